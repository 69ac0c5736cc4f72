// The rule on a constructed element that is judged at its end, when its inside has no fault: the members of a SET ascend (X.690 11.6).
ghost use Rattle.std.specs.Prelude.{◌≡◌};
ghost use Rattle.der.specs.steps.Order as order;

use crate::element::identifier::SET;
use crate::element::length::measure;

// Answers whether an element with the identifier and the content keeps the rule at its end. Only a SET has one: under another identifier sets
// aren't judged.
pub fn closes(id: u8, content: &[u8]) -> bool
    ensures { result ≡ order.closes id content.now }
{
    (id != SET) || ascends(content)
}

// Whether the content consists of elements, none of which precedes the one before it.
fn ascends(content: &[u8]) -> bool
    ensures { result ≡ order.ascends content.now }
{
    // The element before the rest; at first there is none.
    let mut before = &content[..0];
    let mut rest = content;
    while !rest.is_empty() {
        let Some(span) = measure(rest) else {
            return false;
        };
        let (member, after) = rest.split_at(span.octets + span.length);
        if descends(before, member) {
            return false;
        }
        before = member;
        rest = after;
    }
    true
}

// Whether the second octet string has the smaller octet at the first place where they differ. Between two elements there is such a place in
// both, or they are equal, so that the zero octets of X.690 11.6 never decide.
pub(crate) fn descends(first: &[u8], second: &[u8]) -> bool
    ensures { result ≡ order.descends first.now second.now }
{
    for (a, b) in first.iter().zip(second) {
        if a != b {
            return b < a;
        }
    }
    false
}
