// The octets that a row adds to a batch, written into a scratch one run after another.
//
// The scratch and the place in it stay two parameters: each function that took a struct with both would have to promise that it still holds the
// same scratch, beside what it writes.
ghost use Rattle.std.specs.Prelude.{suc, ◌+◌, ◌≤◌, ◌≡◌, true, ◌∷◌, ◌++◌, length};
ghost use Rattle.der.specs.meaning.Length.{length_octets};
ghost use Rattle.der.specs.meaning.Bounds.{longest};
ghost use Rattle.crmf.specs.meaning.Lists.{over};
ghost use Rattle.crmf.specs.meaning.Pieces.{piece_of};
ghost use Rattle.crmf.specs.steps.rows.Assembly.{identifier_of, implied, own, whole_of};
ghost use Rattle.writer.specs.steps.Inner.{row_of, lies, Appended};

use crate::draft::Row;
use crmf::kinds;

// X.690 8.1.2 and 8.9: the identifier of a SEQUENCE, and what the number of a context-specific tag is added to where the encoding is constructed.
// `der` names only the identifiers that have a rule there.
const SEQUENCE: u8 = 0x30;

const CONTEXT: u8 = 0xA0;

// "its type is implied": id-regInfo-certReq, 1.3.6.1.5.5.7.5.2.2, as an element.
const CERT_REQ_TYPE: &[u8] = &[
    0x06, 0x09, 0x2B, 0x06, 0x01, 0x05, 0x05, 0x07, 0x05, 0x02, 0x02,
];

// Writes a row's own octets from the place `at` on and answers the place after them, if there is room for them. The row's children have
// `inner` octets together.
pub(crate) fn put(
    row: Row,
    inner: usize,
    bytes: &[u8],
    at: usize,
    scratch: &mut [u8],
) -> Option<usize>
    requires short { whole_of (piece_of bytes.now (row_of row)) inner ≤ longest }
    requires inside { lies bytes.now (row_of row) ≡ true }
    requires room { at ≤ length scratch.old }
    ensures { Appended scratch.old at (own (piece_of bytes.now (row_of row)) inner) result scratch.new }
{
    if kinds::container(row.kind) {
        return put_header(row.kind, inner, at, scratch);
    }
    append(&bytes[row.first..row.first + row.whole], at, scratch)
}

// Writes a container's identifier, shortest length and implied type.
pub(crate) fn put_header(kind: usize, inner: usize, at: usize, scratch: &mut [u8]) -> Option<usize>
    requires short { suc (length (length_octets (length (implied kind) + inner)) + (length (implied kind) + inner)) ≤ longest }
    requires room { at ≤ length scratch.old }
    ensures { Appended scratch.old at (identifier_of kind ∷ (length_octets (length (implied kind) + inner) ++ implied kind)) result scratch.new }
{
    let length = append(&[identifier(kind)], at, scratch)?;
    let content = put_length(implied(kind).len() + inner, length, scratch)?;
    append(implied(kind), content, scratch)
}

// The identifier of a container.
fn identifier(kind: usize) -> u8
    ensures { result ≡ identifier_of kind }
{
    match kind {
        kinds::VALIDITY => CONTEXT + 4,
        kinds::EXTENSIONS => CONTEXT + 9,
        kinds::SIGNATURE => CONTEXT + 1,
        kinds::KEY_ENCIPHERMENT => CONTEXT + 2,
        kinds::KEY_AGREEMENT => CONTEXT + 3,
        _ => SEQUENCE,
    }
}

// The type that a container implies: none, except for an item with a carried certReq, whose type has no row.
pub(crate) fn implied(kind: usize) -> &'static [u8]
    ensures { result.now ≡ implied kind }
{
    if kind == kinds::REG_INFO_CERT_REQ {
        CERT_REQ_TYPE
    } else {
        &[]
    }
}

// Writes the length octets of `content` content octets, in the shortest form.
fn put_length(content: usize, at: usize, scratch: &mut [u8]) -> Option<usize>
    requires { (content ≤ longest) × (at ≤ length scratch.old) }
    ensures { Appended scratch.old at (length_octets content) result scratch.new }
{
    // X.690 8.1.3: the short form, or the octets of the length after their number.
    if content < 128 {
        return append(&[content as u8], at, scratch);
    }
    if content < 256 {
        return append(&[0x81, content as u8], at, scratch);
    }
    append(
        &[0x82, (content / 256) as u8, (content % 256) as u8],
        at,
        scratch,
    )
}

// Writes octets from the place `at` on and answers the place after them, if there is room for them.
pub(crate) fn append(octets: &[u8], at: usize, scratch: &mut [u8]) -> Option<usize>
    requires { at ≤ length scratch.old }
    ensures written { Appended scratch.old at octets.now result scratch.new }
    ensures stays { result ≡ None → scratch.new ≡ scratch.old }
{
    if scratch.len() - at < octets.len() {
        return None;
    }
    copy(octets, at, scratch);
    Some(at + octets.len())
}

// Copies octets over others, from the place `at` on. Octet by octet: `copy_from_slice` calls `memcpy`, and the archive calls nothing but `memset`.
fn copy(octets: &[u8], at: usize, to: &mut [u8])
    requires { at + length octets.now ≤ length to.old }
    ensures { to.new ≡ over to.old at octets.now }
{
    for (i, octet) in octets.iter().enumerate() {
        to[at + i] = *octet;
    }
}
