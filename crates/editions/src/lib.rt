// The readers of the two editions.
#![tactic(auto)]

pub mod edition;
pub mod pair;
pub mod reader;
