// The walk that explains a refusal: it answers the first fault of an element and of the elements inside it, with its place.
ghost use Rattle.std.specs.Prelude.{◌≡◌, length};
ghost use Rattle.der.specs.meaning.Explains.{Explains};
ghost use Rattle.der.specs.steps.Nest.{nest_of};
ghost use Rattle.der.specs.steps.Explain.{Lent, number_of, place_of, detail_of, end_of, fault_at, list_of, by_rule, element_of};

use crate::bounds::{DEPTH, LONGEST};
use crate::cause::Cause;
use crate::element::between::between;
use crate::element::header;
use crate::element::identifier::is_constructed;
use crate::refusal::Refusal;
use crate::{closing, content};

// The first fault in the order of SPECIFICATION 2.4: why the element is refused, the place of its first byte, and request A9's detail.
#[derive(Clone, Copy)]
pub struct Fault {
    pub refusal: Refusal,
    pub place: usize,
    pub detail: usize,
}

impl Fault {
    // The fault of an element at `place`, by its cause.
    fn new(cause: Cause, place: usize) -> Fault
        ensures { nest_of (Err result) ≡ fault_at cause place }
    {
        Fault {
            refusal: cause.refusal(),
            place,
            detail: cause.detail(),
        }
    }
}

// Explains the first element from `at` on, whose parent ends at `end`: its first fault, or the place after it. Refuses an input longer than
// LONGEST.
pub fn explain(bytes: &[u8], at: usize, end: usize) -> Result<usize, Fault>
    ensures { let nest = nest_of result in Explains bytes.now at end (number_of nest) (place_of nest) (detail_of nest) (end_of nest) }
{
    if LONGEST < bytes.len() {
        return Err(Fault::new(Cause::TooLong, 0));
    }
    element(between(bytes, at, end), at, DEPTH)
}

// The element at `place`, over the bytes from there to its parent's end, with `left` levels of depth left: its first fault, or the place after
// it.
#[cycle(element_list)]
fn element(bytes: &[u8], place: usize, left: usize) -> Result<usize, Fault>
    requires { Lent bytes.now place }
    ensures { nest_of result ≡ element_of left place bytes.now }
{
    if left == 0 {
        return Err(Fault::new(Cause::TooDeep, place));
    }
    let header = match header::read(bytes) {
        Ok(header) => header,
        Err(cause) => return Err(Fault::new(cause, place)),
    };
    let id = header.identifier;
    let size = header.octets + header.length;
    let inside = &bytes[header.octets..size];
    if is_constructed(id) {
        let end = list(inside, place + header.octets, left - 1)?;
        by_rule(closing::closes(id, inside), id, place, end)
    } else {
        by_rule(content::holds(id, inside), id, place, place + size)
    }
}

// The elements from `place` on, one after the other: the first fault, or the place after the last.
#[cycle(element_list)]
fn list(bytes: &[u8], place: usize, left: usize) -> Result<usize, Fault>
    requires { Lent bytes.now place }
    ensures { nest_of result ≡ list_of (element_of left) (length bytes.now) place bytes.now }
{
    let mut rest = bytes;
    let mut at = place;
    while !rest.is_empty() {
        let end = element(rest, at, left)?;
        rest = &rest[end - at..];
        at = end;
    }
    Ok(at)
}

// An element at `place` and up to `end`, by whether it keeps the rule of its identifier.
fn by_rule(kept: bool, id: u8, place: usize, end: usize) -> Result<usize, Fault>
    ensures { nest_of result ≡ by_rule kept place end id }
{
    if kept {
        return Ok(end);
    }
    Err(Fault::new(Cause::WrongContent((id % 32) as usize), place))
}
