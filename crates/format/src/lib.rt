// Numbers, answers and rows as text, written into a page that the caller lends.
//
// A `page::Page` is what the caller lends with the place of the next text; each method writes there. What doesn't fit is left out, and the rest
// of the page stays as it is. Nothing is printed here: a program hands what is written to the standard output.
#![tactic(auto)]

pub mod answer;
pub mod page;
pub mod rows;
