// The times of a validity: the moments of notBefore and notAfter, and their order.
ghost use Rattle.std.specs.Prelude.{◌≡◌, true, false, MatchOption, drop, get_or};
ghost use Rattle.time.specs.meaning.Time.{time_moment};
ghost use Rattle.time.specs.meaning.Validity as validity;
ghost use Rattle.time.specs.steps.Moments.{as_option};

use crate::time;

// The identifiers of the two times, and of the fields that hold one.
// Octets, and no enum: an input may have any octet in their place.
const UTC_TIME: u8 = 0x17;

const GENERALIZED_TIME: u8 = 0x18;

const NOT_BEFORE: u8 = 0xA0;

const NOT_AFTER: u8 = 0xA1;

// The identifier and the content of an element with one length octet, if the octets are one.
fn short_element<'a>(element: &'a [u8]) -> Option<(u8, &'a [u8])>
    ensures { MatchOption result (validity.is_short element.now ≡ false)
        (λ parts. (validity.is_short element.now ≡ true) × (parts.0 ≡ get_or element.now 0 0) × (parts.1.now ≡ drop 2 element.now)) }
{
    let [identifier, length, content @ ..] = element else {
        return None;
    };
    if usize::from(*length) != content.len() {
        return None;
    }
    Some((*identifier, content))
}

// The moment that an element with the identifier and the content shows.
fn time_moment(identifier: u8, content: &[u8]) -> Option<usize>
    ensures { result ≡ as_option (time_moment identifier content.now) }
{
    match identifier {
        UTC_TIME => time::utc_time(content),
        GENERALIZED_TIME => time::generalized_time(content),
        _ => None,
    }
}

// The moment that the element of a Time shows.
fn element_moment(element: &[u8]) -> Option<usize>
    ensures { result ≡ as_option (validity.element_moment element.now) }
{
    let (identifier, content) = short_element(element)?;
    time_moment(identifier, content)
}

// The moment that the element of notBefore or notAfter shows, with its identifier and its length.
pub fn shown_moment(field: &[u8]) -> Option<usize>
    ensures { result ≡ as_option (validity.shown_moment field.now) }
{
    let (identifier, element) = short_element(field)?;
    if (identifier != NOT_BEFORE) & (identifier != NOT_AFTER) {
        return None;
    }
    element_moment(element)
}

// Whether the times of a validity with the content don't run backwards: notAfter isn't earlier than notBefore, if both are there.
pub fn forwards(content: &[u8]) -> bool
    ensures { result ≡ validity.forwards content.now }
{
    let [_, length, ..] = content else {
        return true;
    };
    let Some((first, second)) = content.split_at_checked(2 + usize::from(*length)) else {
        return true;
    };
    let Some(not_before) = shown_moment(first) else {
        return true;
    };
    let Some(not_after) = shown_moment(second) else {
        return true;
    };
    not_before <= not_after
}
