// Comparing two batches: what changed between them, and the parts that it concerns.
#![tactic(auto)]

pub mod compare;
pub mod entries;
mod found;
mod merge;
mod octets;
pub mod part;
mod rows;
mod tables;
mod times;
