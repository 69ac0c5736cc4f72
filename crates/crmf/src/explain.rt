// The exact walk over the elements of a batch, by the grammar's lines: a loop over siblings, and a call for each inside.
pub mod first;
pub mod tally;

ghost use Rattle.std.specs.Prelude.{ℕ, ◌≤◌, ◌<◌, ◌≡◌, length, get_or};
ghost use Rattle.std.proofs.Math.Seq.{slice};
ghost use Rattle.der.specs.meaning.Bounds.{longest};
ghost use Rattle.der.specs.steps.Reading.{tree};
ghost use Rattle.crmf.specs.steps.grammar.Packed.{packed};
ghost use Rattle.crmf.specs.steps.explain.Tally.{tally_of};
ghost use Rattle.crmf.specs.steps.explain.Walk.{line, judged, walked_of, count_of};
ghost use Rattle.crmf.specs.steps.explain.Inner.{Lent, inside_walk, Tried, Passing, walk_from, stepped, Stepped};

use crate::explain::tally::Tally;
use crate::grammar::element::{Fit, line_for};
use crate::grammar::lines::TOP;
use crate::grammar::{codes, details, judge, table};
use crate::{kinds, recognise};
use der::bounds::DEPTH;
use der::element::reading::read_at;

// The first break of a walk: its place, request A9's detail (`details`), and the tally before it.
#[derive(Clone, Copy)]
pub struct Break {
    pub place: usize,
    pub detail: usize,
    pub tally: Tally,
}

// The line and the place that the walk goes on with, and the tally before them.
// Apart from `rows::Spot`, which has a row's number in the tally's place: one generic type would lose both names.
#[derive(Clone, Copy)]
struct Cursor {
    state: usize,
    at: usize,
    tally: Tally,
}

// Walks over the bytes as one batch, and reads the forms of both editions. Answers the tally, or the first break. Bytes that are too long break
// at 0.
pub fn count(bytes: &[u8]) -> Result<Tally, Break>
    ensures { walked_of result ≡ count_of bytes.now }
{
    let tally = tally::empty();
    if der::bounds::LONGEST < bytes.len() {
        return Err(Break {
            place: 0,
            detail: details::FITS_NO_PART,
            tally,
        });
    }
    let start = Cursor {
        state: TOP,
        at: 0,
        tally,
    };
    list(bytes, start, bytes.len(), 0)
}

// Walks over the elements from the cursor to `end`, in a container at the place `around`.
// Bytes, cursor and end stay apart: at a sibling the cursor alone changes, and `Lent` is what holds of the three.
#[cycle(element_inside_list)]
fn list(bytes: &[u8], start: Cursor, end: usize, around: usize) -> Result<Tally, Break>
    requires { Lent bytes.now start.at end start.tally.count }
    ensures { (walked_of result ≡ walk_from bytes.now start end around) × Passing end result }
{
    let mut cursor = start;
    // No index is counted: each turn goes on where the element before it ended.
    while cursor.at < end {
        cursor = element(bytes, cursor, end)?;
    }
    let tally = cursor.tally;
    if table::closed(cursor.state) {
        return Ok(tally);
    }
    Err(Break {
        place: around,
        detail: details::PART_MISSING,
        tally,
    })
}

// Walks over the element at the cursor, before `end`: finds its line by the identifier alone, walks over its inside, then judges its value.
// Answers where to go on, or the break.
#[cycle(element_inside_list)]
fn element(bytes: &[u8], cursor: Cursor, end: usize) -> Result<Cursor, Break>
    requires { Lent bytes.now cursor.at end cursor.tally.count × (cursor.at < end) }
    ensures { Stepped bytes.now cursor end result }
{
    let tally = cursor.tally;
    let element = read_at(bytes, cursor.at, end);
    let Some(fit) = line_for(element, cursor.at, cursor.state) else {
        return Err(Break {
            place: cursor.at,
            detail: details::FITS_NO_PART,
            tally,
        });
    };
    let more = inside(bytes, fit, tally::with_element(bytes, fit, tally))?;
    after_inside(bytes, fit, more)
}

// Walks over the inside of an element, if its line has one. The inside of a message's part is tried with the recogniser first: most have
// neither a fault nor a form of one edition alone.
#[cycle(element_inside_list)]
fn inside(bytes: &[u8], fit: Fit, tally: Tally) -> Result<Tally, Break>
    requires { Lent bytes.now fit.content fit.end tally.count }
    ensures { ((k : ℕ) → fit.word ≡ get_or packed k 0 → walked_of result ≡ inside_walk k (tally_of tally) fit.first (tree fit.content (slice fit.content fit.end bytes.now))) × Passing fit.end result }
{
    let state = table::inside_of(fit.word);
    if state == codes::FREE {
        return Ok(tally);
    }
    if let Some(rows) = count_part(bytes, fit, state) {
        return Ok(tally::with_rows(rows, tally));
    }
    let start = Cursor {
        state,
        at: fit.content,
        tally,
    };
    list(bytes, start, fit.end, fit.first)
}

// Tries the inside of an element, from the line `state` on, if the element is a part of a message. Answers its rows if all of it is recognised
// and none is in a form of one edition alone.
fn count_part(bytes: &[u8], fit: Fit, state: usize) -> Option<usize>
    requires { (fit.content ≤ fit.end) × (fit.end ≤ length bytes.now) × (length bytes.now ≤ longest) }
    ensures { Tried state fit.content (slice fit.content fit.end bytes.now) result }
{
    if !is_part(table::kind_of(fit.word)) {
        return None;
    }
    let from = fit.content;
    let to = fit.end;
    recognise::list(&bytes[from..to], state, DEPTH, 0, recognise::NEITHER)
}

// Whether a kind is that of a message's part.
fn is_part(kind: usize) -> bool {
    matches!(
        kind,
        kinds::CERT_REQ
            | kinds::SIGNATURE
            | kinds::KEY_ENCIPHERMENT
            | kinds::KEY_AGREEMENT
            | kinds::REG_INFO
    )
}

// The step that an element's value makes, after its inside.
fn after_inside(bytes: &[u8], fit: Fit, tally: Tally) -> Result<Cursor, Break>
    requires { (fit.content ≤ fit.end) × (fit.end ≤ length bytes.now) }
    ensures { (k : ℕ) → fit.word ≡ get_or packed k 0 → result ≡ stepped fit.first fit.end tally (judged (line k).judge (line k).next (slice fit.content fit.end bytes.now)) }
{
    let from = fit.content;
    let at = fit.end;
    match judge::judge_value(fit.word, &bytes[from..at]) {
        Ok(state) => Ok(Cursor { state, at, tally }),
        Err(detail) => Err(Break {
            place: fit.first,
            detail,
            tally,
        }),
    }
}
