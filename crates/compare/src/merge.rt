// The merge of two batches' rows: a walk over the children of counterparts, side by side, that lists what differs.
ghost use Rattle.std.specs.Prelude.{suc, ◌+◌, ◌≤◌, ◌<◌, ◌≡◌, true, ◌||◌, [], ◌∷◌, length};
ghost use Rattle.compare.specs.meaning.Changes.{Later, only_first, only_second};
ghost use Rattle.compare.specs.steps.Lists.{Added};
ghost use Rattle.compare.specs.steps.Tables.{child_at, Ended};
ghost use Rattle.compare.specs.steps.Walking.{Standing, Facing, Stepped, Gone};

use crate::entries::{Change, put};
use crate::octets::equal;
use crate::rows::{Batch, by_position};
use crate::times::seconds_later;
use crmf::kinds;

// A row of each batch.
#[derive(Clone, Copy)]
pub(crate) struct Pair {
    pub(crate) first: usize,
    pub(crate) second: usize,
}

// Where the merge stands: the next row of each batch, and how many entries there are so far.
#[derive(Clone, Copy)]
pub(crate) struct Cursor {
    pub(crate) first: usize,
    pub(crate) second: usize,
    pub(crate) count: usize,
}

// Merges the children of two rows, from the rows of a cursor on, and answers the cursor after them. Entries are listed from number `from` on, as
// far as there is room for them. That number and the list stay two parameters: of a struct around both, each contract would say that its number
// stays.
#[cycle(both_children_spot)]
pub(crate) fn children(
    first: Batch,
    second: Batch,
    above: Pair,
    start: Cursor,
    from: usize,
    list: &mut [i64],
) -> Cursor
    requires { Standing first.bytes.now second.bytes.now first.rows.now second.rows.now above start }
    ensures { Gone first.entry.bytes.now second.entry.bytes.now above start from list.old result list.new }
{
    let mut at = start;
    // Gone through by a cursor, and not by `for`: each step says itself how far it goes in either batch.
    while first.is_child(above.first, at.first) | second.is_child(above.second, at.second) {
        at = spot(first, second, above, at, from, list);
    }
    at
}

// Merges what stands at the next spot.
#[cycle(both_children_spot)]
fn spot(
    first: Batch,
    second: Batch,
    above: Pair,
    at: Cursor,
    from: usize,
    list: &mut [i64],
) -> Cursor
    requires { Standing first.bytes.now second.bytes.now first.rows.now second.rows.now above at
        × ((child_at first.rows.now above.first at.first || child_at second.rows.now above.second at.second) ≡ true) }
    ensures { Stepped first.entry.bytes.now second.entry.bytes.now above at from list.old result list.new }
{
    if !second.is_child(above.second, at.second) {
        return pass_first(first, at, from, list);
    }
    if !first.is_child(above.first, at.first) {
        return pass_second(second, at, from, list);
    }
    let kind = first.kind(at.first);
    let other = second.kind(at.second);
    if kind == other {
        return both(first, second, above, at, from, list);
    }
    if by_position(first.kind(above.first)) {
        let half = pass_first(first, at, from, list);
        return pass_second(second, half, from, list);
    }
    if kind < other {
        return pass_first(first, at, from, list);
    }
    pass_second(second, at, from, list)
}

// Merges two children at one spot that are of one kind: two leaves, or what is below two containers.
#[cycle(both_children_spot)]
fn both(
    first: Batch,
    second: Batch,
    above: Pair,
    at: Cursor,
    from: usize,
    list: &mut [i64],
) -> Cursor
    requires { Standing first.bytes.now second.bytes.now first.rows.now second.rows.now above at
        × Facing first.bytes.now second.bytes.now above at }
    ensures { Stepped first.entry.bytes.now second.entry.bytes.now above at from list.old result list.new }
{
    let next = Cursor {
        first: at.first + 1,
        second: at.second + 1,
        count: at.count,
    };
    let kind = first.kind(at.first);
    if kinds::container(kind) {
        let below = Pair {
            first: at.first,
            second: at.second,
        };
        return children(first, second, below, next, from, list);
    }
    let here = first.element(at.first);
    let there = second.element(at.second);
    if equal(here, there) {
        return next;
    }
    let seconds = seconds_later(kind, here, there);
    let change = Change::LeavesDiffer {
        first: at.first,
        second: at.second,
        seconds,
    };
    put(change, at.count, from, list);
    Cursor {
        count: at.count + 1,
        ..next
    }
}

// Lists the next row of the first batch as one that is only there, and passes it with all below it.
fn pass_first(first: Batch, at: Cursor, from: usize, list: &mut [i64]) -> Cursor
    requires { (at.first < length first.rows.now) × (at.second ≤ 32767) × (at.count ≤ at.first + at.second) }
    ensures { Ended first.entry.rows.now at.first result.first × (result.second ≡ at.second) × (result.count ≡ suc at.count)
        × ((later : Later) → Added later from at.count (only_first at.first ∷ []) list.old list.new) }
{
    put(Change::OnlyFirst { row: at.first }, at.count, from, list);
    Cursor {
        first: first.after(at.first),
        count: at.count + 1,
        ..at
    }
}

// The same of the second batch. One function for both would be a match with these two bodies in its arms.
fn pass_second(second: Batch, at: Cursor, from: usize, list: &mut [i64]) -> Cursor
    requires { (at.second < length second.rows.now) × (at.first ≤ 32767) × (at.count ≤ at.first + at.second) }
    ensures { (result.first ≡ at.first) × Ended second.entry.rows.now at.second result.second × (result.count ≡ suc at.count)
        × ((later : Later) → Added later from at.count (only_second at.second ∷ []) list.old list.new) }
{
    put(Change::OnlySecond { row: at.second }, at.count, from, list);
    Cursor {
        second: second.after(at.second),
        count: at.count + 1,
        ..at
    }
}
