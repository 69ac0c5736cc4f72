// The recogniser: whether octets have no fault. It doesn't say which fault they have.
ghost use Rattle.std.specs.Prelude.{not, ◌&&◌, ◌||◌, ◌≡◌};
ghost use Rattle.der.specs.steps.Order.{ascends};
ghost use Rattle.der.specs.steps.Recognise.{is_list, is_element};

use crate::bounds::LONGEST;
use crate::closing::descends;
use crate::content;
use crate::element::identifier::{SET, is_allowed, is_constructed};
use crate::element::length::measure;

// Whether the bytes are a list of elements without a fault, with `left` levels of depth left; in a SET they ascend too. Refuses more bytes
// than LONGEST.
#[cycle(is_element_is_list)]
fn is_list(bytes: &[u8], left: usize, in_set: bool) -> bool
    ensures { result ≡ (is_list left bytes.now && (not in_set || ascends bytes.now)) }
{
    if LONGEST < bytes.len() {
        return false;
    }
    // The element before the rest; at first there is none.
    let mut before = &bytes[..0];
    let mut rest = bytes;
    while !rest.is_empty() {
        let Some(span) = measure(rest) else {
            return false;
        };
        if left == 0 {
            return false;
        }
        let (member, after) = rest.split_at(span.octets + span.length);
        if !is_element(member[0], &member[span.octets..], left - 1) {
            return false;
        }
        if in_set && descends(before, member) {
            return false;
        }
        before = member;
        rest = after;
    }
    true
}

// Answers whether an element with the identifier and the content has no fault, with `left` levels of depth left inside it.
#[cycle(is_element_is_list)]
pub fn is_element(id: u8, content: &[u8], left: usize) -> bool
    ensures { result ≡ is_element id left content.now }
{
    if !is_allowed(id) {
        return false;
    }
    if is_constructed(id) {
        return is_list(content, left, id == SET);
    }
    content::holds(id, content)
}
