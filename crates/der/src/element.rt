// One element: its identifier and length octets, and the element at a place.
pub(crate) mod between;
pub(crate) mod header;
pub mod identifier;
pub mod length;
pub mod reading;
