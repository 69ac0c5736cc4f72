// What the recogniser does with an element, by the action of its line: which of its octets are checked.
ghost use Rattle.std.specs.Prelude.{ℕ, Some, None, ◌≤◌, ◌≡◌, true, false, eqb, length, get_or};
ghost use Rattle.der.specs.meaning.Bounds.{longest};
ghost use Rattle.der.specs.steps.Order as order;
ghost use Rattle.crmf.specs.meaning.Kinds.{cert_req_id};
ghost use Rattle.crmf.specs.meaning.Notation.{named};
ghost use Rattle.crmf.specs.steps.grammar.Packed.{packed};
ghost use Rattle.crmf.specs.steps.explain.Walk.{line};
ghost use Rattle.crmf.specs.steps.recognise.Inner.{Sized, VisitJustified};
ghost use Rattle.crmf.specs.declared.recognise.step.Visit.TheVariants.{Skip, Descend};

use crate::grammar::{codes, judge, marking, table};
use crate::recognise::common;
use der::closing::closes;
use der::content::utf8;
use der::{content, recognise};

// How the recogniser goes on at an element that it hasn't refused.
#[derive(Clone, Copy)]
pub enum Visit {
    // Its content is checked: skip it, and go on with the line.
    Skip(usize),
    // Its content is checked by the lines inside; then go on with the line.
    Descend(usize),
}

// Skips the content if it was checked with success, else refuses the element.
fn skip_or_refuse(checked: bool, next: usize) -> Option<Visit>
    ensures { result ≡ elim checked [ true ↦ Some (Skip next) | false ↦ None ] }
{
    checked.then_some(Visit::Skip(next))
}

// Skips the content if it was already checked, else descends.
fn skip_or_descend(checked: bool, next: usize) -> Option<Visit>
    ensures { result ≡ elim checked [ true ↦ Some (Skip next) | false ↦ Some (Descend next) ] }
{
    Some(if checked {
        Visit::Skip(next)
    } else {
        Visit::Descend(next)
    })
}

// Skips the content if it was already checked. Otherwise descends if the element keeps the rule at its end, else refuses it.
fn take_set(checked: bool, id: u8, content: &[u8], next: usize) -> Option<Visit>
    ensures { result ≡ elim checked [ true ↦ Some (Skip next) | false ↦ elim (order.closes id content.now) [ true ↦ Some (Descend next) | false ↦ None ] ] }
{
    if !checked && !closes(id, content) {
        return None;
    }
    skip_or_descend(checked, next)
}

// How to go on at an element with the identifier and the content, in the form of the line that the word packs. `left` levels of depth are left
// inside it. `action_of` in specs/steps/grammar/Packed.antt says which lines have which action.
pub(crate) fn take(
    word: usize,
    id: u8,
    content: &[u8],
    left: usize,
    edition: usize,
) -> Option<Visit>
    requires { length content.now ≤ longest }
    ensures { (k whole : ℕ) → word ≡ get_or packed k 0 → named (line k).identifiers id ≡ true → Sized whole content.now → VisitJustified edition k whole left id content.now result }
{
    let next = table::next_of(word);
    match table::action_of(word) {
        codes::TAKE_UNSEEN => Some(Visit::Skip(next)),
        codes::TAKE_OBJECT_IDENTIFIER => skip_or_refuse(content::object_identifier(content), next),
        codes::TAKE_INTEGER => skip_or_refuse(content::integer(content), next),
        codes::TAKE_CERT_REQ_ID => skip_or_refuse(
            (content.len() <= 8) & content::integer(content),
            next,
        ),
        codes::TAKE_BIT_STRING => skip_or_refuse(content::bit_string(content), next),
        codes::TAKE_UTF8_STRING => skip_or_refuse(utf8::is_text(content), next),
        codes::TAKE_NEST => skip_or_refuse(recognise::is_element(id, content, left), next),
        codes::TAKE_INSIDE => Some(Visit::Descend(next)),
        codes::TAKE_ALG_ID => skip_or_descend(
            (1 < left) & common::type_and_value(content, false),
            next,
        ),
        codes::TAKE_ATTRIBUTE => skip_or_descend(
            (1 < left) & common::type_and_value(content, true),
            next,
        ),
        codes::TAKE_RDN => take_set((1 < left) & common::rdn(content), id, content, next),
        codes::TAKE_BY_LINE => take_by_fields(word, id, content, left, edition),
        codes::TAKE_SPKI => skip_or_descend(
            (1 < left) & common::subject_public_key_info(content),
            next,
        ),
        codes::TAKE_NAME => skip_or_descend((3 < left) & common::name(content), next),
        _ => None,
    }
}

// Answers the same by the fields of the line, whatever its action is: by its mark, its rule and its inside. Neither the length nor the rule at
// the element's end is checked, so the line must not be a certReqId's, nor that of a SET with lines inside.
fn take_by_fields(word: usize, id: u8, content: &[u8], left: usize, edition: usize) -> Option<Visit>
    ensures { (k whole : ℕ) → word ≡ get_or packed k 0 → eqb (line k).kind cert_req_id ≡ false → (eqb (line k).inside 0 ≡ false → order.closes id content.now ≡ true) → VisitJustified edition k whole left id content.now result }
{
    let mark = marking::mark_of(word, content);
    if (mark != 0) & (mark / codes::EDITION != edition) {
        return None;
    }
    let next = judge::judge_value(word, content).ok()?;
    if table::inside_of(word) != codes::FREE {
        return Some(Visit::Descend(next));
    }
    skip_or_refuse(recognise::is_element(id, content, left), next)
}
