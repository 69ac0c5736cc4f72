// What the test programs share: reading the characters of standard input and the octets of a case, and the table that a program lends.
//
// A program gives `input::for_each_line` what a line is read into, a `case::Case`, or a `Line` of the crate `lines` if its lines have a heading;
// and what judges the line then.
#![tactic(auto)]

pub mod case;
pub mod input;
pub mod table;
