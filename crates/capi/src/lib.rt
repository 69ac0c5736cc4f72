// The C calls; their manual is include/phagundro.h. A slice comes as a pointer and a length.
#![tactic(auto)]

mod answers;
mod parts;
mod verdicts;

ghost use Rattle.std.specs.Prelude.{◌≡◌};
ghost use Rattle.time.specs.meaning.Validity.{shown_moment};
ghost use Rattle.editions.specs.meaning.Reads.{Reads};
ghost use Rattle.writer.specs.meaning.Writes.{Writes};
ghost use Rattle.writer.specs.meaning.Joins.{Joins};
ghost use Rattle.writer.specs.meaning.Cuts.{Cuts};
ghost use Rattle.verdict.specs.meaning.Judges.{Judges};
ghost use Rattle.verdict.specs.meaning.Searches.{Searches};
ghost use Rattle.compare.specs.meaning.Compares.{Compares};
ghost use Rattle.compare.specs.meaning.Parts.{Finds};
ghost use Rattle.capi.specs.OneNumber.{AcceptsBy, JudgesBy, moment_number};

use crate::answers::{Answer, PairAnswer};
use crate::parts::Part;
use crate::verdicts::{Duplicates, Verdict};
use crmf::messages::Position;

// What is added to a refusal's number if a verdict may come back in the same number. Verdicts are at most 7 (`number_tells`).
const REFUSED: usize = 256;

// Judges a batch in an edition and answers 0, or the refusal's number.
#[unsafe(no_mangle)]
pub extern "C" fn phagundro_accept(edition: usize, bytes: &[u8]) -> usize
    ensures { AcceptsBy edition bytes.now result }
{
    Answer::from(editions::reader::accept(edition, bytes)).number
}

// Reads a batch in an edition and answers the count of its rows, with the rows in the table; or answers the refusal, and leaves the table as
// it was.
#[unsafe(no_mangle)]
pub extern "C" fn phagundro_read(edition: usize, bytes: &[u8], table: &mut [usize]) -> Answer
    ensures { Reads edition bytes.now table.old result.number result.place result.count table.new }
{
    editions::reader::read(edition, bytes, table).into()
}

// Writes the batch that a draft over a slice describes in an edition and answers its length as the count; or answers the refusal, and leaves
// the output as it was.
#[unsafe(no_mangle)]
pub extern "C" fn phagundro_write(
    edition: usize,
    draft: &[usize],
    slice: &[u8],
    output: &mut [u8],
) -> Answer
    ensures { Writes edition draft.now slice.now output.old result.number result.place result.count output.new }
{
    writer::writer::write(edition, draft, slice, output).into()
}

// Judges the proof of the message at a position and answers the verdict and the signed part's place and length; or answers the refusal.
#[unsafe(no_mangle)]
pub extern "C" fn phagundro_verdict(edition: usize, bytes: &[u8], position: usize) -> Verdict
    ensures { Judges edition bytes.now position result.number result.place result.verdict result.from result.length }
{
    verdict::verdict::judge(edition, bytes, Position(position)).into()
}

// The same in one number: the verdict, or 256 plus the refusal's number.
#[unsafe(no_mangle)]
pub extern "C" fn phagundro_verdict_number(edition: usize, bytes: &[u8], position: usize) -> usize
    ensures { JudgesBy edition bytes.now position result }
{
    match verdict::verdict::judge(edition, bytes, Position(position)) {
        Ok(found) => found.verdict.number(),
        Err(refused) => REFUSED + refused.refusal.number(),
    }
}

// Searches a batch for two messages with the same certReqId and answers the first pair, or that there is none; or answers the refusal.
#[unsafe(no_mangle)]
pub extern "C" fn phagundro_duplicates(edition: usize, bytes: &[u8]) -> Duplicates
    ensures { Searches edition bytes.now result.number result.place result.found result.earlier.0 result.later.0 }
{
    verdict::duplicates::search(edition, bytes).into()
}

// Joins two batches of an edition and answers the join's length as the count; or answers the refusal and whose it is, and leaves the output as
// it was.
#[unsafe(no_mangle)]
pub extern "C" fn phagundro_join(
    edition: usize,
    first: &[u8],
    second: &[u8],
    output: &mut [u8],
) -> PairAnswer
    ensures { Joins edition first.now second.now output.old result.number result.place result.file result.count output.new }
{
    writer::join::join(edition, first, second, output).into()
}

// Cuts the message at a position out of a batch and answers the length of its batch as the count; or answers the refusal, and leaves the output
// as it was.
#[unsafe(no_mangle)]
pub extern "C" fn phagundro_cut(
    edition: usize,
    bytes: &[u8],
    position: usize,
    output: &mut [u8],
) -> Answer
    ensures { Cuts edition bytes.now position output.old result.number result.place result.count output.new }
{
    writer::cut::cut(edition, bytes, Position(position), output).into()
}

// Compares two batches of an edition and answers the number of entries, with all of them in the list; or answers the refusal and whose it is, and
// leaves the list as it was.
#[unsafe(no_mangle)]
pub extern "C" fn phagundro_compare(
    edition: usize,
    first: &[u8],
    second: &[u8],
    entries: &mut [i64],
) -> PairAnswer
    ensures { Compares edition first.now second.now entries.old result.number result.place result.file result.count entries.new }
{
    compare::compare::compare(edition, first, second, entries).into()
}

// Finds the part of one of two batches that an entry speaks of and answers whose it is, its place and its length; or answers the refusal and whose
// it is.
#[unsafe(no_mangle)]
pub extern "C" fn phagundro_compare_part(
    edition: usize,
    first: &[u8],
    second: &[u8],
    entry: usize,
) -> Part
    ensures { Finds edition first.now second.now entry result.number result.place result.file result.from result.length }
{
    compare::part::find_part(edition, first, second, entry).into()
}

// Answers the moment that the element of a notBefore or notAfter shows, in whole seconds from 0000-01-01 00:00:00 on; or -1 if it shows none.
#[unsafe(no_mangle)]
pub extern "C" fn phagundro_moment(bytes: &[u8]) -> i64
    ensures { result ≡ moment_number (shown_moment bytes.now) }
{
    match time::validity::shown_moment(bytes) {
        Some(seconds) => seconds as i64,
        None => -1,
    }
}
