// Tables for the rows of two batches, in one of three sizes: the smallest that has room for both.
ghost use Rattle.std.specs.Prelude.{◌≤◌};
ghost use Rattle.compare.specs.steps.Tables.{Ready};
ghost use Rattle.compare.specs.steps.Finding.{Wanted, Gathered};

use crate::found::{Found, find};
use crate::merge::Pair;

// How many rows a table of each size has room for: for a message or a few, for most batches, and for any, since none has more.
const FEW: usize = 64;

const MORE: usize = 2048;

const MOST: usize = 32767;

// Merges the rows of two batches, as `find` does, with tables of their counts of rows.
pub(crate) fn find_in_tables(
    first: &[u8],
    second: &[u8],
    rows: Pair,
    wanted: Option<usize>,
    list: &mut [i64],
) -> Found
    requires { Ready first.now rows.first × Ready second.now rows.second × Wanted wanted list.old }
    ensures { Gathered first.now second.now wanted list.old result list.new }
{
    if (rows.first <= FEW) & (rows.second <= FEW) {
        return with_room::<FEW>(first, second, rows, wanted, list);
    }
    if (rows.first <= MORE) & (rows.second <= MORE) {
        return with_room::<MORE>(first, second, rows, wanted, list);
    }
    with_room::<MOST>(first, second, rows, wanted, list)
}

// Merges with the first numbers of tables with so much room. It is never inlined: each size's tables stand in a frame of their own, so that two small
// batches take a small stack.
#[inline(never)]
fn with_room<const ROOM: usize>(
    first: &[u8],
    second: &[u8],
    rows: Pair,
    wanted: Option<usize>,
    list: &mut [i64],
) -> Found
    requires { Ready first.now rows.first × Ready second.now rows.second × Wanted wanted list.old × (rows.first ≤ ROOM) × (rows.second ≤ ROOM) × (ROOM ≤ 32767) }
    ensures { Gathered first.now second.now wanted list.old result list.new }
{
    let mut one = [0usize; ROOM];
    let mut two = [0usize; ROOM];
    find(
        first,
        second,
        &mut one[..rows.first],
        &mut two[..rows.second],
        wanted,
        list,
    )
}
