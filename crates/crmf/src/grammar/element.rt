// The line of the grammar that an element fits: how each step of a walk begins.
ghost use Rattle.std.specs.Prelude.{◌≡◌};
ghost use Rattle.crmf.specs.steps.grammar.Packed.{packed};
ghost use Rattle.crmf.specs.steps.grammar.Fitting.{Fitted};

use crate::grammar::table;
use der::element::reading::Element;

// An element that fits a line of the grammar: the line's packed word, the element's first byte, its content's first byte and the place past
// its end.
// The word is a plain number: each contract says which line it is, and a field could say only that it is one. Its places are ordered where the
// element was read: `line_for` fits any element, and asks nothing of it.
#[derive(Clone, Copy)]
pub struct Fit {
    pub word: usize,
    pub first: usize,
    pub content: usize,
    pub end: usize,
}

// Fits an element, whose first byte is at `first`, to the first line from `state` on that has its identifier; None if the search finds none.
pub(crate) fn line_for(element: Element, first: usize, state: usize) -> Option<Fit>
    ensures { Fitted element first state result }
{
    let k = table::find_line(state, element.identifier)?;
    Some(Fit {
        word: table::word(k),
        first,
        content: element.content,
        end: element.end,
    })
}
