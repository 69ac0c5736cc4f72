// The fields of a packed line, and the search among the lines.
ghost use Rattle.std.specs.Prelude.{ℕ, ◌≤◌, ◌<◌, ◌≡◌, get_or};
ghost use Rattle.crmf.specs.meaning.Notation.{Identifiers, named, among, general_names};
ghost use Rattle.crmf.specs.steps.grammar.Codes as codes;
ghost use Rattle.crmf.specs.steps.grammar.Packed.{packed, identifiers_code, action_of};
ghost use Rattle.crmf.specs.steps.grammar.Packed.{inside_field, judge_field, kind_field, item_field, marking_field, next_field};
ghost use Rattle.crmf.specs.steps.explain.Walk as walk;
ghost use Rattle.crmf.specs.steps.explain.Walk.{line, rows_by};

use crate::grammar::codes;
use crate::grammar::lines::{LINES, TABLE};

// The word of line k; past the table's end 0, which is the word of an end line. `TABLE` in src/grammar/lines.rt has it line by line, and
// specs/steps/grammar/Packed.antt says what it is computed from.
pub(crate) fn word(k: usize) -> usize
    ensures { result ≡ get_or packed k 0 }
{
    if k < LINES { TABLE[k] } else { 0 }
}

// A function for each field, by its name: one for all would take the weight and the room at every call.

// Where the lines of the element's inside start; FREE if there are none.
pub(crate) fn inside_of(word: usize) -> usize
    ensures { result ≡ inside_field word }
{
    word / codes::INSIDE % codes::LINE_NUMBERS
}

// The code of the rule or the selector that judges the value.
pub(crate) fn judge_of(word: usize) -> usize
    ensures { result ≡ judge_field word }
{
    word / codes::JUDGE % codes::JUDGES
}

// The kind of the element's row.
pub(crate) fn kind_of(word: usize) -> usize
    ensures { result ≡ kind_field word }
{
    word / codes::KIND % codes::KINDS
}

// The kind of the row that the element gives the one around it.
pub(crate) fn item_of(word: usize) -> usize
    ensures { result ≡ item_field word }
{
    word / codes::ITEM % codes::KINDS
}

// The code of how the elements in the line's form are marked; 0 if both editions allow them all.
pub(crate) fn marking_of(word: usize) -> usize
    ensures { result ≡ marking_field word }
{
    word / codes::MARK % codes::MARKS
}

// The line to go on with after the element.
pub(crate) fn next_of(word: usize) -> usize
    ensures { result ≡ next_field word }
{
    word / codes::NEXT % codes::LINE_NUMBERS
}

// What the recogniser does with an element of the line.
pub(crate) fn action_of(word: usize) -> usize
    ensures { (k : ℕ) → word ≡ get_or packed k 0 → result ≡ action_of (line k) }
{
    word / codes::ACTION % codes::ACTIONS
}

// How many rows an element of the line gives by itself: at most two.
pub(crate) fn rows_of(word: usize) -> usize
    ensures { (k : ℕ) → word ≡ get_or packed k 0 → (result ≡ rows_by (line k)) × (result ≤ 2) }
{
    word / codes::ROWS % codes::ROW_COUNTS
}

// Whether an identifier is a GeneralName's.
#[tactic(auto, unfolding(crate::specs::meaning::Notation::among))]
fn general(id: u8) -> bool
    ensures { result ≡ among general_names id }
{
    matches!(
        id,
        0xA0 | 0x81 | 0x82 | 0xA3 | 0xA4 | 0xA5 | 0x86 | 0x87 | 0x88
    )
}

// Whether an identifier is one of those that the code means. The code is not an octet's.
fn names(code: usize, id: u8) -> bool
    requires { code < codes.octet }
    ensures { (i : Identifiers) → identifiers_code i ≡ code → result ≡ named i id }
{
    if code == codes::GENERAL_NAME {
        return general(id);
    }
    code == codes::ANYTHING
}

// The first line from the line `from` on that has the identifier. Answers None if there is none up to the first needed part or the end.
pub(crate) fn find_line(from: usize, id: u8) -> Option<usize>
    ensures { result ≡ walk.find_line from id }
{
    for k in from..LINES {
        let word = word(k);
        let code = word / codes::ID % codes::IDENTIFIERS;
        if code == usize::from(id) + codes::OCTET {
            return Some(k);
        }
        if code < codes::OCTET {
            return names(code, id).then_some(k);
        }
        if word % codes::PASSES < codes::ANOTHER {
            return None;
        }
    }
    None
}

// Whether a container may end at the line `from`: no part from there to its end line is needed.
pub(crate) fn closed(from: usize) -> bool
    ensures { result ≡ walk.closed from }
{
    // By number: `word` alone says that the table is the grammar's, line by line.
    for k in from..LINES {
        let pass = word(k) % codes::PASSES;
        if pass < codes::OVER {
            return pass == codes::ENDS;
        }
    }
    true
}
