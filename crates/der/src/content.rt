// The content rules, each on the content octets of one element.
mod octet_class;
pub mod utf8;

ghost use Rattle.std.specs.Prelude.{◌<◌, ◌≡◌, length};
ghost use Rattle.der.specs.meaning.Content as rule;
ghost use Rattle.der.specs.steps.ContentTest as test;

use crate::element::identifier;

// Answers whether the octets are the content of a BOOLEAN (X.690 8.2, 11.1): one octet, 00 or FF.
pub fn boolean(content: &[u8]) -> bool
    ensures { result ≡ rule.boolean content.now }
{
    let [octet] = content else {
        return false;
    };
    (*octet == 0x00) | (*octet == 0xFF)
}

// Answers whether the octets are the content of an INTEGER (X.690 8.3) or ENUMERATED (8.4): at least one octet, and no more than the number
// needs.
pub fn integer(content: &[u8]) -> bool
    ensures { result ≡ rule.integer content.now }
{
    let [first, second, ..] = content else {
        return content.len() == 1;
    };
    !((*first == 0x00) & (*second < 0x80) | (*first == 0xFF) & (0x80 <= *second))
}

// Answers whether the octets are the content of a BIT STRING (X.690 8.6, 11.2): the count of unused bits, at most 7, and the bits, of
// which the unused are 0.
pub fn bit_string(content: &[u8]) -> bool
    ensures { result ≡ rule.bit_string content.now }
{
    match content {
        [] => false,
        [unused] => *unused == 0,
        [unused, .., last] => (*unused <= 7) & ((*unused as u32) <= last.trailing_zeros()),
    }
}

// Answers whether the octets are the content of an OBJECT IDENTIFIER (X.690 8.19): at least one subidentifier, each in the shortest form.
pub fn object_identifier(content: &[u8]) -> bool
    ensures { result ≡ rule.object_identifier content.now }
{
    let Some(last) = content.last() else {
        return false;
    };
    // Without an octet 80 no subidentifier is padded.
    if !content.contains(&0x80) {
        return *last < 0x80;
    }
    are_subidentifiers(content)
}

// Whether the octets, at least one, are subidentifiers in the shortest form, the last of them complete.
fn are_subidentifiers(content: &[u8]) -> bool
    requires { 0 < length content.now }
    ensures { result ≡ rule.object_identifier content.now }
{
    // The octet before; at first one that ends a subidentifier.
    let mut before: u8 = 0x00;
    for octet in content {
        if (before < 0x80) & (*octet == 0x80) {
            return false;
        }
        before = *octet;
    }
    before < 0x80
}

// Answers whether the content of a primitive element keeps the rule of its type. NULL is empty (X.690 8.8), and a type without a rule
// takes any content.
pub fn holds(id: u8, content: &[u8]) -> bool
    ensures { result ≡ test.holds id content.now }
{
    match id {
        identifier::BOOLEAN => boolean(content),
        identifier::INTEGER | identifier::ENUMERATED => integer(content),
        identifier::BIT_STRING => bit_string(content),
        identifier::NULL => content.is_empty(),
        identifier::OBJECT_IDENTIFIER => object_identifier(content),
        identifier::UTF8_STRING => utf8::is_text(content),
        _ => true,
    }
}
