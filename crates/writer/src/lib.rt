// Writing batches: the batch that a draft describes (`writer`), the join of two batches (`join`), and the batch of one message (`cut`).
#![tactic(auto)]

mod answers;
mod around;
mod assemble;
mod build;
pub mod cut;
mod draft;
pub mod join;
mod lengths;
mod octets;
mod sums;
pub mod writer;
