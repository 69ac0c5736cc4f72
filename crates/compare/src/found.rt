// What merging two batches' rows finds, with the tables that the rows are put into.
ghost use Rattle.std.specs.Prelude.{◌<◌, ◌≡◌, Some, None, length, get_or};
ghost use Rattle.crmf.specs.steps.rows.Packing.{first_of, whole_of};
ghost use Rattle.compare.specs.meaning.Changes.{entry_numbers};
ghost use Rattle.compare.specs.steps.Tables.{Ready};
ghost use Rattle.compare.specs.steps.Finding.{Counted, Wanted, Gathered, Begins, Spoken};

use crate::entries::{ENTRY_NUMBERS, ONLY_SECOND};
use crate::merge::{Cursor, Pair, children};
use crate::part::Part;
use crate::rows::Batch;
use crmf::rows::packed;
use editions::pair::File;

// A number that no entry reaches, so that a merge from it on only counts: two batches have fewer rows. With an Option in its place each entry would
// ask whether it is listed at all.
const BEYOND: usize = 65536;

// How many entries there are, and the part that the wanted one speaks of.
#[derive(Clone, Copy)]
pub(crate) struct Found {
    pub(crate) count: usize,
    pub(crate) part: Option<Part>,
}

// Merges the rows of two batches. Without a wanted entry all are listed if there is room for all of them, and otherwise the list stays as it is. If
// one is wanted, by its number, it is listed alone and its part is found. The tables have room for exactly the rows.
pub(crate) fn find(
    first: &[u8],
    second: &[u8],
    one: &mut [usize],
    two: &mut [usize],
    wanted: Option<usize>,
    list: &mut [i64],
) -> Found
    requires { Ready first.now (length one.old) × Ready second.now (length two.old) × Wanted wanted list.old }
    ensures { Gathered first.now second.now wanted list.old result list.new }
{
    packed::pack(first, one);
    packed::pack(second, two);
    let first = Batch {
        bytes: first,
        rows: one,
    };
    let second = Batch {
        bytes: second,
        rows: two,
    };
    match wanted {
        None => Found {
            count: list_all(first, second, list),
            part: None,
        },
        Some(entry) => find_one(first, second, entry, list),
    }
}

// Lists all entries, if there is room for them, and answers their number. They are counted first, unless there is room for as many as two batches
// of so many rows can have.
fn list_all(first: Batch, second: Batch, list: &mut [i64]) -> usize
    ensures { Gathered first.entry.bytes.now second.entry.bytes.now None list.old (record { count = result; part = None }) list.new }
{
    let room = list.len() / ENTRY_NUMBERS;
    if first.rows.len() + second.rows.len() <= room {
        return merge(first, second, 0, list);
    }
    let count = merge(first, second, BEYOND, list);
    if room < count {
        return count;
    }
    merge(first, second, 0, list)
}

// Lists the entry with a number alone, and finds its part.
fn find_one(first: Batch, second: Batch, entry: usize, list: &mut [i64]) -> Found
    requires { length list.old ≡ entry_numbers }
    ensures { Gathered first.entry.bytes.now second.entry.bytes.now (Some entry) list.old result list.new }
{
    let count = merge(first, second, entry, list);
    if count <= entry {
        return Found { count, part: None };
    }
    Found {
        count,
        part: Some(spoken(first, second, list)),
    }
}

// Merges the rows of two batches and answers the number of entries. Those from number `from` on are listed, as far as there is room for them.
fn merge(first: Batch, second: Batch, from: usize, list: &mut [i64]) -> usize
    ensures { Counted first.entry.bytes.now second.entry.bytes.now from list.old result list.new }
{
    let batches = Pair {
        first: 0,
        second: 0,
    };
    let start = Cursor {
        first: 1,
        second: 1,
        count: 0,
    };
    children(first, second, batches, start, from, list).count
}

// The part that the first entry of a list speaks of: the first batch's where both have it.
// Read back from its numbers: a `Change` handed out beside the list would be one more answer of each step of the merge.
fn spoken(first: Batch, second: Batch, list: &[i64]) -> Part
    requires { Begins first.rows.now second.rows.now list.now }
    ensures { Spoken first.entry.rows.now second.entry.rows.now list.now result }
{
    if list[0] == ONLY_SECOND as i64 {
        return part_of(File::Second, second, list[2] as usize);
    }
    part_of(File::First, first, list[1] as usize)
}

// The part that a row's element is, of a batch.
fn part_of(file: File, batch: Batch, row: usize) -> Part
    requires { row < length batch.rows.now }
    ensures { let x = get_or batch.entry.rows.now row 0 in result ≡ record { file = file; from = first_of x; length = whole_of x } }
{
    Part {
        file,
        from: packed::first(batch.rows[row]),
        length: packed::whole(batch.rows[row]),
    }
}
