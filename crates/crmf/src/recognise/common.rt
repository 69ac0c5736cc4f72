// The small insides that a batch has most of, checked without the table: an AlgorithmIdentifier, an AttributeTypeAndValue, a
// RelativeDistinguishedName of one AttributeTypeAndValue, a Name of such, and a SubjectPublicKeyInfo.
// Each asks that its bytes are no more than an input has, and takes a plain slice: a struct with that fact would be built, and the fact proved,
// at each of the slices that they hand on, as it is now.
ghost use Rattle.std.specs.Prelude.{ℕ, suc, ◌≤◌, ◌<◌, ◌≡◌, true, false, length, IfSome};
ghost use Rattle.der.specs.meaning.Bounds.{longest};
ghost use Rattle.der.specs.steps.Order.{closes};
ghost use Rattle.crmf.specs.meaning.Notation.{AlgId, Spki, OneName, RdnSequence, Rdn, Attribute};
ghost use Rattle.crmf.specs.steps.grammar.Lines.{start};
ghost use Rattle.crmf.specs.steps.recognise.Inner.{Leading, Sole, RowlessFrom};

use der::content::{bit_string, holds, object_identifier};
use der::element::identifier::{BIT_STRING, OBJECT_IDENTIFIER, SET, is_allowed, is_constructed};
use der::element::length::{Span, measure};

// The identifier octet of X.690 that these insides have beside those of `der`.
const SEQUENCE: u8 = 0x30;

// The span of the element that the bytes start with, if it has the identifier.
fn leading(bytes: &[u8], id: u8) -> Option<Span>
    ensures { IfSome result (Leading bytes.now id) }
{
    let x = measure(bytes)?;
    (bytes[0] == id).then_some(x)
}

// Where the content starts, if the bytes are exactly one element and it has the identifier.
fn sole(bytes: &[u8], id: u8) -> Option<usize>
    ensures { IfSome result (Sole bytes.now id) }
{
    let x = leading(bytes, id)?;
    (x.octets + x.length == bytes.len()).then_some(x.octets)
}

// Whether the content is an OBJECT IDENTIFIER and one primitive value, which may be missing if it isn't `needed`. An AttributeTypeAndValue
// needs its value, an AlgorithmIdentifier doesn't.
pub(crate) fn type_and_value(bytes: &[u8], needed: bool) -> bool
    requires { length bytes.now ≤ longest }
    ensures { result ≡ true → (needed ≡ false → RowlessFrom (start AlgId) 1 bytes.now) × (needed ≡ true → RowlessFrom (start Attribute) 1 bytes.now) }
{
    let Some(x) = leading(bytes, OBJECT_IDENTIFIER) else {
        return false;
    };
    let from = x.octets;
    let to = from + x.length;
    if !object_identifier(&bytes[from..to]) {
        return false;
    }
    if to == bytes.len() {
        return !needed;
    }
    primitive(&bytes[to..])
}

// Whether the bytes are exactly one primitive element.
fn primitive(bytes: &[u8]) -> bool
    requires { (0 < length bytes.now) × (length bytes.now ≤ longest) }
    ensures { result ≡ true → RowlessFrom (suc (start AlgId)) 1 bytes.now × RowlessFrom (suc (start Attribute)) 1 bytes.now }
{
    let id = bytes[0];
    let Some(from) = sole(bytes, id) else {
        return false;
    };
    if is_constructed(id) | !is_allowed(id) {
        return false;
    }
    holds(id, &bytes[from..])
}

// Whether the content is that of a RelativeDistinguishedName with one AttributeTypeAndValue, which needs no comparing.
pub(crate) fn rdn(bytes: &[u8]) -> bool
    requires { length bytes.now ≤ longest }
    ensures { result ≡ true → RowlessFrom (start Rdn) 2 bytes.now × ((id : ℕ) → closes id bytes.now ≡ true) }
{
    let Some(from) = sole(bytes, SEQUENCE) else {
        return false;
    };
    type_and_value(&bytes[from..], true)
}

// Whether the content is a Name whose RelativeDistinguishedNames have one AttributeTypeAndValue each.
pub(crate) fn name(bytes: &[u8]) -> bool
    requires { length bytes.now ≤ longest }
    ensures { result ≡ true → RowlessFrom (start OneName) 4 bytes.now }
{
    let Some(rdns) = sole(bytes, SEQUENCE) else {
        return false;
    };
    rdn_sequence(&bytes[rdns..])
}

// Whether the content is that of an RDNSequence whose RelativeDistinguishedNames have one AttributeTypeAndValue each.
fn rdn_sequence(bytes: &[u8]) -> bool
    requires { length bytes.now ≤ longest }
    ensures { result ≡ true → RowlessFrom (start RdnSequence) 3 bytes.now }
{
    let mut rest = bytes;
    while !rest.is_empty() {
        let Some(x) = leading(rest, SET) else {
            return false;
        };
        let to = x.octets + x.length;
        if !rdn(&rest[x.octets..to]) {
            return false;
        }
        rest = &rest[to..];
    }
    true
}

// Whether the content is that of a SubjectPublicKeyInfo whose AlgorithmIdentifier has a primitive parameter or none.
pub(crate) fn subject_public_key_info(bytes: &[u8]) -> bool
    requires { length bytes.now ≤ longest }
    ensures { result ≡ true → RowlessFrom (start Spki) 2 bytes.now }
{
    let Some(x) = leading(bytes, SEQUENCE) else {
        return false;
    };
    let from = x.octets;
    let to = from + x.length;
    if !type_and_value(&bytes[from..to], false) {
        return false;
    }
    key_bits(&bytes[to..])
}

// Whether the bytes are exactly one BIT STRING.
fn key_bits(bytes: &[u8]) -> bool
    requires { length bytes.now ≤ longest }
    ensures { result ≡ true → RowlessFrom (suc (start Spki)) 1 bytes.now }
{
    let Some(from) = sole(bytes, BIT_STRING) else {
        return false;
    };
    bit_string(&bytes[from..])
}
