// The recogniser: one pass that checks nest, grammar and certReqIds of a batch and counts its rows. It stops at the first thing that the
// edition doesn't accept.
mod common;
mod step;

ghost use Rattle.std.specs.Prelude.{ℕ, ◌≤◌, ◌<◌, ◌≡◌, length, drop, get_or};
ghost use Rattle.der.specs.meaning.Bounds.{longest};
ghost use Rattle.crmf.specs.steps.grammar.Packed.{packed};
ghost use Rattle.crmf.specs.steps.recognise.Count.{recognised, recognised_table, agreed};
ghost use Rattle.crmf.specs.steps.recognise.Inner.{Countable, ListCounted, ElementCounted};

use crate::grammar::lines::TOP;
use crate::grammar::table;
use crate::recognise::step::Visit;
use crate::rows;
use crate::rows::Spot;
use crate::rows::agree::agree;
use der::bounds::{DEPTH, LONGEST};
use der::element::length::measure;

// Neither edition: no form of one edition alone is recognised.
// Editions are numbers here: `count`, `read` and `agrees` are public and take every number, and one that names no edition recognises no form of
// one alone.
pub(crate) const NEITHER: usize = 0;

// Answers how many rows the bytes have as a batch of the edition with no certReqId of more than 8 octets. Of any other bytes it answers none:
// `der` and `explain` find what is wrong.
pub fn count(edition: usize, bytes: &[u8]) -> Option<usize>
    ensures { result ≡ recognised edition bytes.now }
{
    count_by(edition, bytes)
}

// Answers the same, and writes the rows into `out` if it has room for them. Otherwise, and for unrecognised bytes, `out` stays as it is.
pub fn read(edition: usize, bytes: &[u8], out: &mut [usize]) -> Option<usize>
    ensures { (result ≡ recognised edition bytes.now) × (out.new ≡ recognised_table edition bytes.now out.old) }
{
    let rows = count_by(edition, bytes)?;
    rows::fill(bytes, rows, out);
    Some(rows)
}

// Whether the bytes are a batch of the edition and their rows agree with a draft's, in place or wherever its leaves stand (`rows::agree`).
// A flag: the clause of this public function has it (`agreed`).
pub fn agrees(edition: usize, bytes: &[u8], draft: &[usize], in_place: bool) -> bool
    ensures { result ≡ agreed edition bytes.now draft.now in_place }
{
    agree(bytes, draft, in_place) && count_by(edition, bytes).is_some()
}

// Answers as `count` does.
// Apart from it, since must-fail edits have `count` wrong where `read` and `agrees` are right.
fn count_by(edition: usize, bytes: &[u8]) -> Option<usize>
    ensures { result ≡ recognised edition bytes.now }
{
    if LONGEST < bytes.len() {
        return None;
    }
    list(bytes, TOP, DEPTH, 0, edition)
}

// Recognises the elements that the bytes are, from the line `state` on, after `before` rows. Answers the rows up to their end, if they are
// recognised.
#[cycle(element_list)]
pub(crate) fn list(
    bytes: &[u8],
    state: usize,
    left: usize,
    before: usize,
    edition: usize,
) -> Option<usize>
    requires { Countable bytes.now before }
    ensures { ListCounted edition left state before bytes.now result }
{
    let mut spot = Spot {
        state,
        at: 0,
        row: before,
    };
    // No index is counted: each turn goes on where the element before it ended.
    while spot.at < bytes.len() {
        spot = element(bytes, spot, left, edition)?;
    }
    table::closed(spot.state).then_some(spot.row)
}

// Recognises the element at a spot of the bytes. `left` levels of depth are left. Answers the spot after it.
#[cycle(element_list)]
fn element(bytes: &[u8], spot: Spot, left: usize, edition: usize) -> Option<Spot>
    requires { Countable (drop spot.at bytes.now) spot.row × (spot.at < length bytes.now) × (length bytes.now ≤ longest) }
    ensures { ElementCounted edition left spot bytes.now result }
{
    let x = measure(&bytes[spot.at..])?;
    if left == 0 {
        return None;
    }
    let from = spot.at + x.octets;
    let to = from + x.length;
    let id = bytes[spot.at];
    let k = table::find_line(spot.state, id)?;
    let word = table::word(k);
    let own = spot.row + table::rows_of(word);
    let content = &bytes[from..to];
    let (state, row) = match step::take(word, id, content, left - 1, edition)? {
        Visit::Skip(next) => (next, own),
        Visit::Descend(next) => (
            next,
            list(content, table::inside_of(word), left - 1, own, edition)?,
        ),
    };
    Some(Spot { state, at: to, row })
}
