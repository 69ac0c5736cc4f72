// The part of one of two batches that an entry speaks of (SPECIFICATION 11).
ghost use Rattle.std.specs.Prelude.{◌≡◌};
ghost use Rattle.compare.specs.meaning.Parts.{Finds, HandsBack};
ghost use Rattle.compare.specs.steps.Judging.{part_answer_of};

use crate::compare::accept_both;
use crate::entries::ENTRY_NUMBERS;
use crate::tables::find_in_tables;
use der::refusal::{Refusal, Refused};
use editions::pair::{File, PairRefused};

// The part of a batch that an entry speaks of: whose it is, its first byte and its length.
#[derive(Clone, Copy)]
pub struct Part {
    pub file: File,
    pub from: usize,
    pub length: usize,
}

// Finds the part that the entry with a number, from 0, speaks of: the whole element of its row, of the first batch where both have it. Refuses what
// `accept` refuses of the first and then of the second, and a number past the last entry.
pub fn find_part(
    edition: usize,
    first: &[u8],
    second: &[u8],
    entry: usize,
) -> Result<Part, PairRefused>
    ensures { let a = part_answer_of result in Finds edition first.now second.now entry a.number a.place a.file a.from a.length }
{
    let rows = accept_both(edition, first, second)?;
    let mut list = [0i64; ENTRY_NUMBERS];
    let found = find_in_tables(first, second, rows, Some(entry), &mut list);
    let Some(part) = found.part else {
        return Err(PairRefused::of_neither(Refused {
            refusal: Refusal::NoSuchMessage,
            place: 0,
        }));
    };
    Ok(part)
}

// Hands back the part that the entry with a number speaks of, of the first batch or of the second; an empty part with every refusal.
pub fn entry_part<'a>(edition: usize, first: &'a [u8], second: &'a [u8], entry: usize) -> &'a [u8]
    ensures { HandsBack edition first.entry second.entry entry result }
{
    let part = find_part(edition, first, second, entry).unwrap_or_else(empty_part);
    let end = part.from + part.length;
    match part.file {
        File::Second => &second[part.from..end],
        File::First | File::Neither => &first[part.from..end],
    }
}

// The empty part that a refusal hands back.
fn empty_part(refused: PairRefused) -> Part
    ensures { result ≡ record { file = refused.file; from = 0; length = 0 } }
{
    Part {
        file: refused.file,
        from: 0,
        length: 0,
    }
}
