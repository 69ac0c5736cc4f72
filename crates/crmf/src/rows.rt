// The rows of a batch, handed over one after another, and written into a lent table of numbers. Where they are written the batch was recognised
// before, so nothing is judged again.
pub(crate) mod agree;
pub mod packed;

ghost use Rattle.std.specs.Prelude.{ℕ, Bool, false, List, ◌+◌, ◌-◌, ◌*◌, ◌≤◌, ◌<◌, ◌≡◌, length, get_or, IfSome};
ghost use Rattle.std.proofs.Math.Seq.{slice};
ghost use Rattle.crmf.specs.steps.grammar.Packed.{packed};
ghost use Rattle.crmf.specs.steps.explain.Walk.{line};
ghost use Rattle.crmf.specs.meaning.Rows.{Row, row_if, parent_if};
ghost use Rattle.crmf.specs.steps.rows.Fill as spec;
ghost use Rattle.crmf.specs.steps.rows.Fill.{goes, row_of, entry_row, fits, filled, around_extent, entry_extent, fit_extent, own_rows, row_above, rows_of_input};
ghost use Rattle.crmf.specs.steps.rows.Take.{Took, Lent, Listed, Stepped, Inner, Writes};

use crate::grammar::element::{Fit, line_for};
use crate::grammar::lines::TOP;
use crate::grammar::{codes, lines, table, value};
use crate::kinds;
use der::bounds::LONGEST;
use der::element::reading::read_at;

// How many numbers a row has.
pub const WIDTH: usize = 5;

// The element around some rows: the row above them, its first byte, its whole length and its content's first byte.
#[derive(Clone, Copy)]
struct Around {
    up: usize,
    place: usize,
    whole: usize,
    content: usize,
}

// Where to go on: the line, the place and the number of the next row.
#[derive(Clone, Copy)]
pub(crate) struct Spot {
    pub(crate) state: usize,
    pub(crate) at: usize,
    pub(crate) row: usize,
}

// The spot at which a batch begins.
const START: Spot = Spot {
    state: TOP,
    at: 0,
    row: 0,
};

// What is around a batch: nothing.
const NOTHING: Around = Around {
    up: 0,
    place: 0,
    whole: 0,
    content: 0,
};

// The row numbers at an element: of the row above it, of the first that it gives and of the next after its own.
// That row numbers are small is asked by each step, since the bound moves with the step.
#[derive(Clone, Copy)]
struct Numbers {
    up: usize,
    row: usize,
    next: usize,
}

// What a row holds: its kind, its element's first byte and whole length, its parent's row, and the first byte of its element's content.
#[derive(Clone, Copy)]
pub(crate) struct Entry {
    pub(crate) kind: usize,
    pub(crate) first: usize,
    pub(crate) whole: usize,
    pub(crate) parent: usize,
    pub(crate) content: usize,
}

// What takes the rows of a batch, one after another. It is lent a table.
// The table is no field of it: each contract would have to say that the taker still holds the same one.
pub(crate) trait Taker {
    // How the row of a number is taken, from the table before to the one after: whether the walk goes on.
    ghost takes: { Self → ℕ → Row → List ℕ → Bool → List ℕ → Type 0 };

    // Takes the row of a number. Answers whether the walk goes on.
    fn take(&self, new: Entry, row: usize, out: &mut [usize]) -> bool
        requires { row ≤ 131072 }
        ensures { takes self.now row (entry_row new) out.old result out.new };
}

// Writes each row into the table as its five numbers, as far as there is room.
struct Separate;

impl Taker for Separate {
    ghost takes = { λ s. Writes false };

    fn take(&self, new: Entry, row: usize, out: &mut [usize]) -> bool {
        let at = WIDTH * row;
        if out.len() < at + WIDTH {
            return true;
        }
        out[at] = new.kind;
        out[at + 1] = new.first;
        out[at + 2] = new.whole;
        out[at + 3] = new.parent;
        out[at + 4] = new.content;
        true
    }
}

// Writes the rows of the bytes into `out`, as far as their numbers are below `count`, and answers true. If `out` has no room for `count` rows,
// it stays as it is, and the answer is false. For an accepted batch and its own count these are the batch's rows.
pub(crate) fn fill(bytes: &[u8], count: usize, out: &mut [usize]) -> bool
    ensures { (result ≡ fits count out.old) × (out.new ≡ filled bytes.now count out.old) }
{
    if out.len() / WIDTH < count {
        return false;
    }
    walk(bytes, &Separate, &mut out[..WIDTH * count]);
    true
}

// Hands the rows of the bytes, as one batch, to a taker. Answers how many they are, or none if the taker didn't go on.
pub(crate) fn walk<T: Taker>(bytes: &[u8], taker: &T, out: &mut [usize]) -> Option<usize>
    ensures { Took (T.takes taker.now) 0 (rows_of_input bytes.now) out.old result out.new }
{
    if LONGEST < bytes.len() {
        return Some(0);
    }
    list(bytes, START, bytes.len(), NOTHING, taker, out)
}

// Hands over the rows of the elements from a spot to the end. Answers the number of the next row, or none if the taker didn't go on.
// Bytes, spot and end stay apart: at a sibling the spot alone changes, and `Lent` is what holds of the three.
#[cycle(element_inside_list)]
fn list<T: Taker>(
    bytes: &[u8],
    start: Spot,
    end: usize,
    around: Around,
    taker: &T,
    out: &mut [usize],
) -> Option<usize>
    requires { Lent bytes.now start.at end start.row }
    ensures { Listed (T.takes taker.now) bytes.now start end around out.old result out.new }
{
    let mut spot = start;
    // No index is counted: each turn goes on where the element before it ended.
    while spot.at < end {
        spot = element(bytes, spot, end, around, taker, out)?;
    }
    Some(spot.row)
}

// Hands over the rows of the element at a spot and of those inside it. Answers the spot after it, or none if the taker didn't go on.
#[cycle(element_inside_list)]
fn element<T: Taker>(
    bytes: &[u8],
    spot: Spot,
    end: usize,
    around: Around,
    taker: &T,
    out: &mut [usize],
) -> Option<Spot>
    requires { Lent bytes.now spot.at end spot.row × (spot.at < end) }
    ensures { Stepped (T.takes taker.now) bytes.now spot end around out.old result out.new }
{
    let element = read_at(bytes, spot.at, end);
    let Some(fit) = line_for(element, spot.at, spot.state) else {
        return Some(Spot {
            state: spot.state,
            at: end,
            row: spot.row,
        });
    };
    let next = own_rows(fit, spot.row, around, taker, out)?;
    let numbers = Numbers {
        up: around.up,
        row: spot.row,
        next,
    };
    let row = inside(bytes, fit, numbers, taker, out)?;
    Some(Spot {
        state: onward(bytes, fit),
        at: fit.end,
        row,
    })
}

// Hands over the rows that an element gives by itself, from the number `row` on: that of the element around it, if the line has a kind for it,
// and its own. Answers as `list` does.
fn own_rows<T: Taker>(
    fit: Fit,
    row: usize,
    around: Around,
    taker: &T,
    out: &mut [usize],
) -> Option<usize>
    requires { (fit.first ≤ fit.end) × (row ≤ 131070) }
    ensures { ((k : ℕ) → fit.word ≡ get_or packed k 0 → Took (T.takes taker.now) row (own_rows (line k) (fit_extent fit) row around) out.old result out.new) × IfSome result (λ next. next ≤ row + 2) }
{
    let next = hand(item_entry(fit, around), row, taker, out)?;
    hand(own_entry(fit, row, around), next, taker, out)
}

// Hands over a row, if there is one. Answers as `list` does.
fn hand<T: Taker>(entry: Option<Entry>, row: usize, taker: &T, out: &mut [usize]) -> Option<usize>
    requires { row ≤ 131072 }
    ensures { Took (T.takes taker.now) row (row_of entry) out.old result out.new }
{
    let Some(new) = entry else {
        return Some(row);
    };
    taker.take(new, row, out).then_some(row + 1)
}

// What the element around another has as its row, if the other's line has a kind for it.
fn item_entry(fit: Fit, around: Around) -> Option<Entry>
    ensures { (k : ℕ) → fit.word ≡ get_or packed k 0 → row_of result ≡ row_if (line k).item (around_extent around) around.up }
{
    if_any(Entry {
        kind: table::item_of(fit.word),
        first: around.place,
        whole: around.whole,
        parent: around.up,
        content: around.content,
    })
}

// What an element has as its own row, if its line has a kind. `row` is the number of the first row that it gives.
fn own_entry(fit: Fit, row: usize, around: Around) -> Option<Entry>
    requires { fit.first ≤ fit.end }
    ensures { (k : ℕ) → fit.word ≡ get_or packed k 0 → row_of result ≡ row_if (line k).kind (fit_extent fit) (parent_if (line k).item row around.up) }
{
    let length = fit.end - fit.first;
    let parent = parent_if(table::item_of(fit.word), row, around.up);
    if_any(Entry {
        kind: table::kind_of(fit.word),
        first: fit.first,
        whole: length,
        parent,
        content: fit.content,
    })
}

// An entry, if its kind is any.
fn if_any(new: Entry) -> Option<Entry>
    ensures { row_of result ≡ row_if new.kind (entry_extent new) new.parent }
{
    (new.kind != kinds::NONE).then_some(new)
}

// The number of the row above what is inside an element in a line's form.
fn row_above(word: usize, row: usize, up: usize) -> usize
    requires { row ≤ 131070 }
    ensures { (k : ℕ) → word ≡ get_or packed k 0 → result ≡ row_above (line k) row up }
{
    let item = table::item_of(word);
    let own = row + kinds::row_of(item);
    parent_if(table::kind_of(word), own, parent_if(item, row, up))
}

// Whether no row comes from the lines of an inside: there are none, or they are Time's, AlgId's, Spki's, OneName's or Extension's.
fn rowless(start: usize) -> bool
    ensures { result ≡ spec.rowless start }
{
    matches!(
        start,
        codes::FREE | lines::TIME | lines::ALG_ID | lines::SPKI | lines::ONE_NAME | lines::EXTENSION
    )
}

// Hands over the rows inside an element, if its line has an inside with rows. Answers as `list` does.
#[cycle(element_inside_list)]
fn inside<T: Taker>(
    bytes: &[u8],
    fit: Fit,
    numbers: Numbers,
    taker: &T,
    out: &mut [usize],
) -> Option<usize>
    requires { Lent bytes.now fit.content fit.end numbers.next × (fit.first ≤ fit.end) × (numbers.row ≤ 131070) }
    ensures { ((k : ℕ) → fit.word ≡ get_or packed k 0 → Inner (T.takes taker.now) k bytes.now fit numbers out.old result out.new) × IfSome result (λ next. next ≤ 2 * fit.end) }
{
    let state = table::inside_of(fit.word);
    if rowless(state) {
        return Some(numbers.next);
    }
    let start = Spot {
        state,
        at: fit.content,
        row: numbers.next,
    };
    let whole = fit.end - fit.first;
    let around = Around {
        up: row_above(fit.word, numbers.row, numbers.up),
        place: fit.first,
        whole,
        content: start.at,
    };
    list(bytes, start, fit.end, around, taker, out)
}

// The line to go on with after an element whose value keeps its rule.
fn onward(bytes: &[u8], fit: Fit) -> usize
    requires { (fit.content ≤ fit.end) × (fit.end ≤ length bytes.now) }
    ensures { (k : ℕ) → fit.word ≡ get_or packed k 0 → result ≡ goes (line k).judge (line k).next (slice fit.content fit.end bytes.now) }
{
    let code = table::judge_of(fit.word);
    let next = table::next_of(fit.word);
    if code < codes::SELECTORS {
        return next;
    }
    let from = fit.content;
    let to = fit.end;
    // What selects no way goes to the line after the last way, as `goes` says; an accepted batch has no such value.
    let way = value::selected(code, &bytes[from..to]).unwrap_or(value::ways(code));
    table::next_of(table::word(next + way))
}

// The number of the row above what is inside an element: its own, `row`, if it has a kind, else `up`.
fn parent_if(kind: usize, row: usize, up: usize) -> usize
    ensures { result ≡ parent_if kind row up }
{
    if kind == kinds::NONE { up } else { row }
}
