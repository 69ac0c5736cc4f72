// The grammar as a table of lines, the search in it, and the rules of values.
pub(crate) mod codes;
pub(crate) mod details;
pub(crate) mod element;
pub(crate) mod judge;
pub(crate) mod lines;
pub(crate) mod marking;
pub(crate) mod table;
pub(crate) mod value;
