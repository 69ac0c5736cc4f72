// What changed between two batches (SPECIFICATION 11).
ghost use Rattle.editions.specs.steps.Results.{pair_answer_of};
ghost use Rattle.compare.specs.meaning.Compares.{Compares};
ghost use Rattle.compare.specs.steps.Judging.{Judged};

use crate::entries::ENTRY_NUMBERS;
use crate::merge::Pair;
use crate::tables::find_in_tables;
use der::refusal::{Refusal, Refused};
use editions::pair::PairRefused;
use editions::reader::accept;

// Compares two batches of an edition and answers the number of entries, with all of them in the list. Refuses what `accept` refuses of the first and
// then of the second, and a list that is too short. A refusal leaves the list as it was; otherwise it begins with the entries, and its other
// numbers stay.
pub fn compare(
    edition: usize,
    first: &[u8],
    second: &[u8],
    list: &mut [i64],
) -> Result<usize, PairRefused>
    ensures { let a = pair_answer_of result in Compares edition first.now second.now list.old a.number a.place a.file a.count list.new }
{
    let rows = accept_both(edition, first, second)?;
    let count = find_in_tables(first, second, rows, None, list).count;
    if list.len() / ENTRY_NUMBERS < count {
        return Err(PairRefused::of_neither(Refused {
            refusal: Refusal::NoRoom,
            place: 0,
        }));
    }
    Ok(count)
}

// Judges two batches in an edition and answers the counts of their rows; refuses the first, and then the second.
pub(crate) fn accept_both(edition: usize, first: &[u8], second: &[u8]) -> Result<Pair, PairRefused>
    ensures { Judged edition first.now second.now result }
{
    let one = accept(edition, first).map_err(PairRefused::of_first)?;
    let two = accept(edition, second).map_err(PairRefused::of_second)?;
    Ok(Pair {
        first: one,
        second: two,
    })
}
