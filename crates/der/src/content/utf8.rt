// UTF-8 (RFC 3629): octets below 80 are checked eight at once, and others by a table of classes of octets.
ghost use Rattle.std.specs.Prelude.{ℕ, ◌+◌, ◌≤◌, ◌<◌, true, List, ◌∷◌, ◌↔◌, ◌≡◌, length, get_or, leb};
ghost use Rattle.std.specs.List.{position};
ghost use Rattle.der.specs.meaning.Eights.{Ascii, MayBegin, StepsOver, AsciiFirst};
ghost use Rattle.der.specs.steps.Utf8Classes.{class_of, utf8_from, utf8, after_step, Classes};

use crate::content::octet_class;

// What the check still wants of a character: how many tails, and the lowest and the highest class of the next.
#[derive(Clone, Copy)]
struct Tails {
    left: u8,
    low: u8,
    high: u8,
}

impl Tails {
    // So many tails, the next of a class from `low` to `high`.
    const fn new(left: u8, low: u8, high: u8) -> Tails
        ensures { result ≡ record { left = left; low = low; high = high } }
    {
        Tails { left, low, high }
    }
}

// What is wanted after an octet of the class at the start of a character; None if no character has it there.
fn lead(class: u8) -> Option<Tails>
    ensures { (b : ℕ) (bs : List ℕ) → class_of b ≡ class → after_step result bs ≡ utf8_from 0 1 3 (b ∷ bs) }
{
    let tails = match class {
        octet_class::WHOLE => Tails::new(0, octet_class::TAIL_80, octet_class::TAIL_A0),
        octet_class::LEAD_C2 => Tails::new(1, octet_class::TAIL_80, octet_class::TAIL_A0),
        octet_class::LEAD_E0 => Tails::new(2, octet_class::TAIL_A0, octet_class::TAIL_A0),
        octet_class::LEAD_E1 => Tails::new(2, octet_class::TAIL_80, octet_class::TAIL_A0),
        octet_class::LEAD_ED => Tails::new(2, octet_class::TAIL_80, octet_class::TAIL_90),
        octet_class::LEAD_F0 => Tails::new(3, octet_class::TAIL_90, octet_class::TAIL_A0),
        octet_class::LEAD_F1 => Tails::new(3, octet_class::TAIL_80, octet_class::TAIL_A0),
        octet_class::LEAD_F4 => Tails::new(3, octet_class::TAIL_80, octet_class::TAIL_80),
        _ => return None,
    };
    Some(tails)
}

// What is wanted after an octet of the class, by what was wanted before it; None if no character has it there.
fn advance(wanted: Tails, class: u8) -> Option<Tails>
    ensures { (b : ℕ) (bs : List ℕ) → class_of b ≡ class → after_step result bs ≡ utf8_from wanted.left wanted.low wanted.high (b ∷ bs) }
{
    if wanted.left == 0 {
        return lead(class);
    }
    if (wanted.low <= class) & (class <= wanted.high) {
        return Some(Tails::new(wanted.left - 1, octet_class::TAIL_80, octet_class::TAIL_A0));
    }
    None
}

// Whether the first eight octets are below 80, by one test of their highest bits.
fn eight(bytes: &[u8]) -> bool
    requires { 8 ≤ length bytes.now }
    ensures { (result ≡ true) ↔ ((k : ℕ) → k < 8 → Ascii (get_or bytes.now k 0)) }
{
    // Octets at fixed places, which the compiler reads by one load.
    let all = u64::from_le_bytes([
        bytes[0], bytes[1], bytes[2], bytes[3], bytes[4], bytes[5], bytes[6], bytes[7],
    ]);
    all & 0x8080_8080_8080_8080 == 0
}

// How many octets the check steps over at a place, if the character there still wants `left` tails: eight where a character may begin and the
// next eight octets are below 80, else one.
// A number, and no bool: document 02's step is a number of octets (`StepsOver`).
fn step(content: &[u8], i: usize, left: u8) -> usize
    requires { (i ≤ length content.now) × ((left ≡ 0) ↔ MayBegin content.now i) }
    ensures { StepsOver content.now i result }
{
    if left != 0 {
        return 1;
    }
    if content.len() < 8 {
        return 1;
    }
    // The last place for eight octets is the same in the whole text.
    if content.len() - 8 < i {
        return 1;
    }
    if eight(&content[i..]) {
        return 8;
    }
    1
}

// Where the first octet is that isn't below 80.
fn first_high(content: &[u8]) -> Option<usize>
    ensures { result ≡ position (λ octet. leb 0x80 octet) content.now }
{
    content.iter().position(|octet| 0x80 <= *octet)
}

// How many octets are below 80 before the first that isn't.
fn ascii(content: &[u8]) -> usize
    ensures { AsciiFirst content.now result }
{
    // Counted by hand: a step is asked for at a place of the whole text, as its contract says (`StepsOver`).
    let mut i = 0;
    while step(content, i, 0) == 8 {
        i += 8;
    }
    match first_high(&content[i..]) {
        Some(further) => i + further,
        None => content.len(),
    }
}

// Answers whether the content is UTF-8; an empty content is.
pub fn is_text(content: &[u8]) -> bool
    ensures { result ≡ utf8 content.now }
{
    let plain = ascii(content);
    if plain == content.len() {
        return true;
    }
    let classes = CLASSES;
    text(content, plain, &classes)
}

// The same, from a place on where a character may begin, by a table of the classes.
fn text(content: &[u8], from: usize, classes: &[u8; 256]) -> bool
    requires { Classes classes.now × (from ≤ length content.now) × MayBegin content.now from }
    ensures { result ≡ utf8 content.now }
{
    let mut wanted = Tails::new(0, octet_class::TAIL_80, octet_class::TAIL_A0);
    // Counted by hand: a step is asked for at a place of the whole text, as its contract says (`StepsOver`).
    let mut i = from;
    while i < content.len() {
        if step(content, i, wanted.left) == 8 {
            i += 8;
            continue;
        }
        let class = classes[content[i] as usize];
        let Some(next) = advance(wanted, class) else {
            return false;
        };
        wanted = next;
        i += 1;
    }
    wanted.left == 0
}

// The class of each octet: 0 a whole character, 1 to 3 tails, 4 to 10 leads, 11 an octet that no character has.
const CLASSES: [u8; 256] = [
    0, 0, 0, 0, 0, 0, 0, 0, 0, 0, 0, 0, 0, 0, 0, 0, 0, 0, 0, 0, 0, 0, 0, 0, 0, 0, 0, 0, 0, 0, 0, 0,
    0, 0, 0, 0, 0, 0, 0, 0, 0, 0, 0, 0, 0, 0, 0, 0, 0, 0, 0, 0, 0, 0, 0, 0, 0, 0, 0, 0, 0, 0, 0, 0,
    0, 0, 0, 0, 0, 0, 0, 0, 0, 0, 0, 0, 0, 0, 0, 0, 0, 0, 0, 0, 0, 0, 0, 0, 0, 0, 0, 0, 0, 0, 0, 0,
    0, 0, 0, 0, 0, 0, 0, 0, 0, 0, 0, 0, 0, 0, 0, 0, 0, 0, 0, 0, 0, 0, 0, 0, 0, 0, 0, 0, 0, 0, 0, 0,
    1, 1, 1, 1, 1, 1, 1, 1, 1, 1, 1, 1, 1, 1, 1, 1, 2, 2, 2, 2, 2, 2, 2, 2, 2, 2, 2, 2, 2, 2, 2, 2,
    3, 3, 3, 3, 3, 3, 3, 3, 3, 3, 3, 3, 3, 3, 3, 3, 3, 3, 3, 3, 3, 3, 3, 3, 3, 3, 3, 3, 3, 3, 3, 3,
    11, 11, 4, 4, 4, 4, 4, 4, 4, 4, 4, 4, 4, 4, 4, 4, 4, 4, 4, 4, 4, 4, 4, 4, 4, 4, 4, 4, 4, 4, 4,
    4, 5, 6, 6, 6, 6, 6, 6, 6, 6, 6, 6, 6, 6, 7, 6, 6, 8, 9, 9, 9, 10, 11, 11, 11, 11, 11, 11, 11,
    11, 11, 11, 11,
];
