// The element at a place, for the layers above.
ghost use Rattle.std.specs.Prelude.{◌≡◌};
ghost use Rattle.der.specs.steps.Reading.{nothing_at, reading_at};

use crate::bounds::LONGEST;
use crate::element::between::between;
use crate::element::identifier::is_allowed;
use crate::element::length::measure;

// An element: its identifier, the first byte of its content and the place after its last byte.
#[derive(Clone, Copy)]
pub struct Element {
    pub identifier: u8,
    pub content: usize,
    pub end: usize,
}

// Reads the element at `at` in a parent that ends at `end`. If there is none, the answer has the identifier 0 and an empty content at the
// end. An input longer than LONGEST has none: the empty content is at `at`. No Option: a walk goes on from the end that the answer has without
// an element too.
pub fn read_at(bytes: &[u8], at: usize, end: usize) -> Element
    ensures { result ≡ reading_at bytes.now at end }
{
    if LONGEST < bytes.len() {
        return nothing_at(at);
    }
    let inside = between(bytes, at, end);
    if let Some(span) = measure(inside) {
        let identifier = inside[0];
        if is_allowed(identifier) {
            return Element {
                identifier,
                content: at + span.octets,
                end: at + span.octets + span.length,
            };
        }
    }
    nothing_at(at + inside.len())
}

// No element: an empty content at the place.
fn nothing_at(at: usize) -> Element
    ensures { result ≡ nothing_at at }
{
    Element {
        identifier: 0,
        content: at,
        end: at,
    }
}
