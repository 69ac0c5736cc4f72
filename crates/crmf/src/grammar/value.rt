// The value rules, each on the content octets of one element.
ghost use Rattle.std.specs.Prelude.{ℕ, ◌≤◌, ◌≡◌, IfSome};
ghost use Rattle.time.specs.steps.Moments.{as_option};
ghost use Rattle.crmf.specs.meaning.Value as value;
ghost use Rattle.crmf.specs.meaning.Value.{Rule, Selector};
ghost use Rattle.crmf.specs.steps.grammar.Lines.{keep, choose};
ghost use Rattle.crmf.specs.steps.grammar.Packed.{judge_code};
ghost use Rattle.crmf.specs.steps.explain.Walk as walk;

use crate::grammar::{codes, details};
use der::content;
use time::time::{generalized_time, utc_time};
use time::validity::forwards;

// Whether there is a single octet, and it is at most `most`.
fn is_up_to(most: u8, content: &[u8]) -> bool
    ensures { result ≡ value.is_up_to most content.now }
{
    matches!(content, [octet] if *octet <= most)
}

// Whether the octets are the content of a BOOLEAN that is true.
// Apart from `number` and `is_two`: each says its own definition of specs/meaning/Value.antt, and is one pattern.
fn is_true(content: &[u8]) -> bool
    ensures { result ≡ value.is_true_octet content.now }
{
    matches!(content, [0xFF])
}

// Whether the octets are the content of the INTEGER 2.
pub(crate) fn is_two(content: &[u8]) -> bool
    ensures { result ≡ value.is_two content.now }
{
    matches!(content, [0x02])
}

// The value of a single octet, if it is at most `most`.
fn number(most: u8, content: &[u8]) -> Option<usize>
    ensures { result ≡ as_option (value.number most content.now) }
{
    match content {
        [octet] if *octet <= most => Some(usize::from(*octet)),
        _ => None,
    }
}

// The last octet of a known type with the arc, if it is at most `most`; none if the type is unknown.
fn type_number(arc: u8, most: u8, content: &[u8]) -> Option<usize>
    ensures { result ≡ as_option (value.type_number arc most content.now) }
{
    if content.len() != 9 {
        return None;
    }
    // Octet by octet: `==` of slices calls `memcmp`, which the archive may not, and a pattern of nine octets has eleven ways out, each with a
    // proof of its own.
    let front = (content[0] == 0x2B)
        & (content[1] == 0x06)
        & (content[2] == 0x01)
        & (content[3] == 0x05);
    let back = (content[4] == 0x05)
        & (content[5] == 0x07)
        & (content[6] == 0x05)
        & (content[7] == arc);
    let last = content[8];
    if front & back & (1 <= last) & (last <= most) {
        return Some(usize::from(last));
    }
    None
}

// Whether the content keeps the rule that has the code (`judge_code` in specs/steps/grammar/Packed.antt).
pub(crate) fn keeps(code: usize, content: &[u8]) -> bool
    ensures { (x : Rule) → judge_code (keep x) ≡ code → result ≡ value.keeps x content.now }
{
    match code {
        codes::ALWAYS => true,
        codes::INTEGER => content::integer(content),
        codes::BOOLEAN => content::boolean(content),
        codes::BIT_STRING => content::bit_string(content),
        codes::EMPTY => content.is_empty(),
        codes::ZERO_OR_ONE => is_up_to(1, content),
        codes::TRUE_ONLY => is_true(content),
        codes::UTC_TIME => utc_time(content).is_some(),
        codes::GENERALIZED_TIME_FROM_2050 => generalized_time(content).is_some(),
        codes::SOME_FORWARDS => !content.is_empty() & forwards(content),
        _ => false,
    }
}

// The way that the content selects, by the selector that has the code, if it selects one.
pub(crate) fn selected(code: usize, content: &[u8]) -> Option<usize>
    ensures way { (s : Selector) → judge_code (choose s) ≡ code → result ≡ as_option (value.selected s content.now) }
    ensures few { IfSome result (λ way. way ≤ 6) }
{
    match code {
        codes::BY_ACTION => number(1, content),
        codes::BY_METHOD => number(3, content),
        codes::BY_CONTROL_TYPE => Some(type_number(0x01, 6, content).unwrap_or(0)),
        codes::BY_INFO_TYPE => Some(type_number(0x02, 2, content).unwrap_or(0)),
        _ => None,
    }
}

// How many ways the selector that has the code can select; 0 if none has it.
pub(crate) fn ways(code: usize) -> usize
    ensures { ((s : Selector) → judge_code (choose s) ≡ code → result ≡ walk.ways s) × (result ≤ 7) }
{
    match code {
        codes::BY_ACTION => 2,
        codes::BY_METHOD => 4,
        codes::BY_CONTROL_TYPE => 7,
        codes::BY_INFO_TYPE => 3,
        _ => 0,
    }
}

// Request A9's detail for a content that breaks the rule that has the code.
pub(crate) fn rule_detail(code: usize, content: &[u8]) -> usize
    ensures { (x : Rule) → judge_code (keep x) ≡ code → result ≡ walk.rule_detail x content.now }
{
    match code {
        codes::NEVER => details::LIST_OR_LOCATION,
        codes::SOME_FORWARDS if content.is_empty() => details::PART_MISSING,
        _ => details::VALUE_BROKEN,
    }
}
