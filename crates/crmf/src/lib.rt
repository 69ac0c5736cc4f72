// The request grammar of RFC 2511 and RFC 4211 over DER elements, three jobs over one table of lines (`grammar`):
//
//     recognise    whether the bytes are a batch of an edition, and how many rows it has (`recognise::count`, `recognise::read`)
//     explain      where the bytes break the grammar, and which forms of one edition alone they have (`explain::count`)
//     rows         the batch's fields, written into a lent table (`rows::fill`), or each packed into one number of it (`rows::packed::pack`)
//
// There are two ways to judge a batch because nearly all batches are right. The recogniser looks at nest, grammar and certReqIds in one pass and
// says only how many rows there are; bytes that it doesn't recognise are walked again, exactly, to explain what is wrong and where. Both are
// proved against the grammar's meaning, in both directions.
//
// `messages` finds where the message at a position of a batch stands.
#![tactic(auto)]

pub mod explain;
mod grammar;
pub mod kinds;
pub mod messages;
pub mod recognise;
pub mod rows;
