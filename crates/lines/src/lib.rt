// The lines of a test program whose cases have a heading, read one character after the other.
//
//     EDITION/NUMBER=LIST:OCTETS
//
// Each part of the heading may be left out with the mark before it. Numbers are decimal, and each number of the list follows a `;`. What the
// number and the list mean, each program says. The octets are those of a case (`cases::case`).
#![tactic(auto)]

pub mod editions;
pub mod heading;
pub mod line;
