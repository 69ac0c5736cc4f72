// The bounds of an input (SPECIFICATION 1).

// The most bytes that an input may have; a longer one is refused with 1.
pub const LONGEST: usize = 65_535;

// The most levels of depth, of which the batch is the first; an element beyond them is refused with 6.
pub const DEPTH: usize = 20;
