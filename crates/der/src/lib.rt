// DER elements (X.690; SPECIFICATION 2), with three jobs on bytes that may be anything:
//
//     recognise    whether an element has no fault (`recognise::is_element`)
//     explain      the first fault in the order of judging and its place, or the end of the first element (`explain::explain`)
//     read         the element at a place (`element::reading::read_at`), or its length octets alone (`element::length::measure`)
//
// There are two ways to judge a nest, since nearly all input is right. The recogniser keeps no place and names no fault, so it is quick. Only
// an input that it refuses is walked again, to explain why. Both follow the same rules of `element`, `content` and `closing`: by definition,
// the recogniser takes what the walk finds no fault in. `content` is public too: the layers above apply its rules to implicitly tagged values.
#![tactic(auto)]

pub mod bounds;
mod cause;
pub mod closing;
pub mod content;
pub mod element;
pub mod explain;
pub mod recognise;
pub mod refusal;
