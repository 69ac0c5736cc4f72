// What the exact walk tallies: the rows, the first form of each edition alone, and the first certReqId that is too long.
ghost use Rattle.std.specs.Prelude.{ℕ, ◌+◌, ◌-◌, ◌≤◌, ◌≡◌, List, length, get_or};
ghost use Rattle.std.proofs.Math.Seq.{slice};
ghost use Rattle.crmf.specs.meaning.Notation.{mark_of};
ghost use Rattle.crmf.specs.steps.grammar.Packed.{packed, mark_code};
ghost use Rattle.crmf.specs.steps.explain.Tally.{tally_of};
ghost use Rattle.crmf.specs.steps.explain.Inner.{Packs, Marks};
ghost use Rattle.crmf.specs.steps.explain.Walk.{line, with_form, with_long_id, with_rows, with_element, empty_tally};

use crate::explain::first::{Difference, LongId};
use crate::grammar::element::Fit;
use crate::grammar::{codes, marking, table};
use crate::kinds;

// The count of rows, the first form of edition 1 alone, the first of edition 2 alone, and the first long certReqId.
// That the rows are few is no field: the bound moves with the walk, and an element adds up to two.
#[derive(Clone, Copy)]
pub struct Tally {
    pub count: usize,
    pub one: Option<Difference>,
    pub two: Option<Difference>,
    pub long: Option<LongId>,
}

// The tally before the first element.
pub(crate) fn empty() -> Tally
    ensures { tally_of result ≡ empty_tally }
{
    Tally {
        count: 0,
        one: None,
        two: None,
        long: None,
    }
}

// The tally after one more element of the bytes, which fits a line.
pub(crate) fn with_element(bytes: &[u8], fit: Fit, tally: Tally) -> Tally
    requires { (fit.first ≤ fit.content) × (fit.content ≤ fit.end) × (fit.end ≤ length bytes.now) × (tally.count ≤ 131070) × Packs fit.word }
    ensures { ((k : ℕ) → fit.word ≡ get_or packed k 0 → tally_of result ≡ with_element (line k) (slice fit.content fit.end bytes.now) fit.first (fit.end - fit.first) (tally_of tally)) × (result.count ≤ tally.count + 2) }
{
    let kind = table::kind_of(fit.word);
    let whole = fit.end - fit.first;
    let from = fit.content;
    let to = fit.end;
    let mark = marking::mark_of(fit.word, &bytes[from..to]);
    let marked = with_form(mark, fit.first, tally);
    let mut after = with_long_id(kind, fit.first, whole, marked);
    after.count = add_rows(
        after.count,
        kinds::row_of(table::item_of(fit.word)),
        kinds::row_of(kind),
    );
    after
}

// The tally after an element with a kind, a place and a whole length. A certReqId of more than 8 content octets is noted if it is the first.
fn with_long_id(kind: usize, place: usize, whole: usize, tally: Tally) -> Tally
    ensures { (tally_of result ≡ with_long_id kind place whole (tally_of tally)) × (result.count ≡ tally.count) }
{
    if (kind == kinds::CERT_REQ_ID) & (10 < whole) & tally.long.is_none() {
        return Tally {
            long: Some(LongId { whole, place }),
            ..tally
        };
    }
    tally
}

// The tally after an element at a place, by the code of its mark. A form of one edition alone is noted if it is that edition's first.
fn with_form(mark: usize, place: usize, tally: Tally) -> Tally
    requires { Marks mark }
    ensures { ((k : ℕ) (c : List ℕ) → mark_code (mark_of (line k).marking c) ≡ mark → tally_of result ≡ with_form (mark_of (line k).marking c) place (tally_of tally)) × (result.count ≡ tally.count) }
{
    // 1 and 2 are the editions' numbers, which the code of a mark has; the tally has a field for each.
    let number = mark % codes::EDITION;
    if (mark / codes::EDITION == 1) & tally.one.is_none() {
        return Tally {
            one: Some(Difference { number, place }),
            ..tally
        };
    }
    if (mark / codes::EDITION == 2) & tally.two.is_none() {
        return Tally {
            two: Some(Difference { number, place }),
            ..tally
        };
    }
    tally
}

// The tally with more rows.
pub(crate) fn with_rows(rows: usize, tally: Tally) -> Tally
    requires { (tally.count ≤ 131070) × (rows ≤ 65535) }
    ensures { tally_of result ≡ with_rows rows (tally_of tally) }
{
    Tally {
        count: tally.count + rows,
        ..tally
    }
}

// How many rows there are after an element: those before it, its item's and its own.
fn add_rows(before: usize, item: usize, own: usize) -> usize
    requires { (before ≤ 131070) × (item ≤ 1) × (own ≤ 1) }
    ensures { result ≡ before + item + own }
{
    before + item + own
}
