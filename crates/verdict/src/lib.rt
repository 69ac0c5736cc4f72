// The proof verdict and the duplicate search over a batch's messages.
#![tactic(auto)]

pub mod duplicates;
mod elements;
pub mod verdict;
