// The header of an element: its identifier and length octets.
ghost use Rattle.std.specs.Prelude.{◌≡◌, ◌≤◌, length};
ghost use Rattle.der.specs.meaning.Bounds.{longest};
ghost use Rattle.der.specs.steps.Head.{head_from};
ghost use Rattle.der.specs.steps.Header.{cause_of, head_of};

use crate::cause::Cause;
use crate::element::identifier::is_allowed;
use crate::element::length::measure;

// The header of an element: its identifier, how many octets the header has, and how many the content after it, which ends no later than the
// parent.
#[derive(Clone, Copy)]
pub struct Header {
    pub identifier: u8,
    pub octets: usize,
    pub length: usize,
}

// Reads the header at the start of bytes that end with the element's parent, or answers why there is none.
pub(crate) fn read(bytes: &[u8]) -> Result<Header, Cause>
    requires { length bytes.now ≤ longest }
    ensures { head_from result ≡ head_of bytes.now }
{
    if let Some(span) = measure(bytes) {
        let identifier = bytes[0];
        if is_allowed(identifier) {
            return Ok(Header {
                identifier,
                octets: span.octets,
                length: span.length,
            });
        }
    }
    Err(cause_of(bytes))
}

// The cause for bytes that begin with no element: what is missing or wrong first, in document 01's order. It decodes no length: a length in
// the right form that gives no element runs past the end.
fn cause_of(bytes: &[u8]) -> Cause
    ensures { result ≡ cause_of bytes.now }
{
    if bytes.is_empty() {
        return Cause::NoIdentifier;
    }
    if !is_allowed(bytes[0]) {
        return Cause::WrongIdentifier;
    }
    if bytes.len() == 1 {
        return Cause::NoLength;
    }
    let first = bytes[1];
    // X.690 8.1.3: the short form.
    if first < 0x80 {
        return Cause::PastEnd;
    }
    // X.690 8.1.3: 80 is indefinite, and FF reserved.
    if (first == 0x80) | (first == 0xFF) {
        return Cause::WrongLength;
    }
    let count = (first - 0x80) as usize;
    if bytes.len() - 2 < count {
        return Cause::NoLength;
    }
    // X.690 10.1: the shortest form.
    let top = bytes[2];
    if (top == 0) | (count == 1) & (top < 0x80) {
        return Cause::WrongLength;
    }
    Cause::PastEnd
}
