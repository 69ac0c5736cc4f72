// Request A9's details of a break of the grammar. specs/meaning/Details.antt has the same names, and the theorems on where a walk stops
// (`stops_exactly`) say a detail as its number, so they are no enum. A detail is only handed on and printed, so an enum would be a second list and a
// match.

pub const FITS_NO_PART: usize = 1;

pub const PART_MISSING: usize = 2;

pub const VALUE_BROKEN: usize = 3;

// Control 3's list beside an action that allows none.
pub const LIST_OR_LOCATION: usize = 4;
