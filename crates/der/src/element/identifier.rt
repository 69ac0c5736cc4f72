// Identifier octets (X.690 8.1.2).
ghost use Rattle.std.specs.Prelude.{◌≡◌};
ghost use Rattle.der.specs.meaning.Identifier.{constructed, allowed};

// The identifiers of the primitive types with a content rule. They are octets and no enum: an input may have any octet in their place.
pub const BOOLEAN: u8 = 0x01;

pub const INTEGER: u8 = 0x02;

pub const BIT_STRING: u8 = 0x03;

pub const NULL: u8 = 0x05;

pub const OBJECT_IDENTIFIER: u8 = 0x06;

pub const ENUMERATED: u8 = 0x0A;

pub const UTF8_STRING: u8 = 0x0C;

// The identifier of the constructed type with a rule on its members.
pub const SET: u8 = 0x31;

// Answers whether the identifier is constructed (bit 6): the content is a list of elements.
pub fn is_constructed(id: u8) -> bool
    ensures { result ≡ constructed id }
{
    id / 32 % 2 == 1
}

// Answers whether an element may have the identifier (SPECIFICATION 2.1).
pub fn is_allowed(id: u8) -> bool
    ensures { result ≡ allowed id }
{
    if id < 64 {
        return (UNIVERSAL >> (id as u64)) % 2 == 1;
    }
    id % 32 != 31
}

// A bit for each identifier of the universal class: whether an element may have it.
const UNIVERSAL: u64 = TAGS_1_TO_6 + TAG_10 + TAG_12 + TAGS_18_TO_28 + TAG_30 + LISTS;

// BOOLEAN, INTEGER, BIT STRING, OCTET STRING, NULL and OBJECT IDENTIFIER.
const TAGS_1_TO_6: u64 = (1 << 7) - (1 << 1);

// ENUMERATED.
const TAG_10: u64 = 1 << 10;

// UTF8String.
const TAG_12: u64 = 1 << 12;

// The other strings and the two times, up to UniversalString.
const TAGS_18_TO_28: u64 = (1 << 29) - (1 << 18);

// BMPString.
const TAG_30: u64 = 1 << 30;

// SEQUENCE and SET, constructed: 30 and 31.
const LISTS: u64 = (1 << 0x30) + (1 << 0x31);
