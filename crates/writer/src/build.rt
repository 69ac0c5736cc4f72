// Writes a draft's batch by way of a scratch, in which its candidate is put together and judged. The scratch and the sums that this takes have
// one of four sizes: the smallest that holds them.
ghost use Rattle.std.specs.Prelude.{◌≤◌, ◌≡◌};
ghost use Rattle.der.specs.meaning.Bounds.{longest};
ghost use Rattle.editions.specs.steps.Results.{answer_of};
ghost use Rattle.writer.specs.steps.Writing.{most_rows, judged_answer, judged_output};
ghost use Rattle.writer.specs.steps.Inner.{Room, Computed, Tried, Built};

use crate::answers::{NO_SUCH_BATCH, deliver};
use crate::assemble::assemble;
use crate::draft::{Draft, rows};
use crate::sums::add_up;
use crmf::recognise::agrees;
use der::bounds::LONGEST;
use der::refusal::Refused;

// The most rows that a batch can have.
pub(crate) const MOST_ROWS: usize = 32767;

// How many rows and octets each size has room for, but the longest and the largest. A batch of SMALL_OCTETS has fewer than SMALL_ROWS rows.
const TINY_ROWS: usize = 64;

const TINY_OCTETS: usize = 1024;

const SMALL_ROWS: usize = 2048;

const SMALL_OCTETS: usize = 4096;

const LONG_ROWS: usize = 4096;

// Writes with the smallest of the sizes that is large enough: for a message or two, for any batch of at most SMALL_OCTETS, for long batches of
// no more rows than most have, and for any batch.
pub(crate) fn sized(draft: &Draft<'_>, output: &mut [u8]) -> Result<usize, Refused>
    ensures { let d = draft.now in Computed d.edition d.numbers.now d.bytes.now output.old (answer_of result) output.new }
{
    if let Some(answer) = with_room::<TINY_ROWS, TINY_OCTETS>(draft, output) {
        return answer;
    }
    if let Some(answer) = with_room::<SMALL_ROWS, SMALL_OCTETS>(draft, output) {
        return answer;
    }
    if let Some(answer) = with_room::<LONG_ROWS, LONGEST>(draft, output) {
        return answer;
    }
    with_room::<MOST_ROWS, LONGEST>(draft, output).unwrap_or(Err(NO_SUCH_BATCH))
}

// Writes with sums for so many rows and a scratch of so many octets, if they are large enough. It isn't inlined: the arrays of one size stay out
// of the stack that another takes, so that a small draft takes a small stack.
#[inline(never)]
fn with_room<const ROWS: usize, const OCTETS: usize>(
    draft: &Draft<'_>,
    output: &mut [u8],
) -> Option<Result<usize, Refused>>
    requires few { ROWS ≤ most_rows }
    requires short { OCTETS ≤ longest }
    ensures { let d = draft.now in Tried ROWS OCTETS d.edition d.numbers.now d.bytes.now output.old result output.new }
{
    if ROWS < rows(draft.numbers).len() {
        return None;
    }
    let mut sums = [0usize; ROWS];
    let mut scratch = [0u8; OCTETS];
    build(draft, &mut sums, &mut scratch, output)
}

// Writes with the sums and the scratch that are lent, if the candidate has room in the scratch. A candidate that has none in the longest is no
// batch.
fn build(
    draft: &Draft<'_>,
    sums: &mut [usize],
    scratch: &mut [u8],
    output: &mut [u8],
) -> Option<Result<usize, Refused>>
    requires { Room draft.now.numbers.now sums.old scratch.old }
    ensures { let d = draft.now in Built d.edition d.numbers.now d.bytes.now scratch.old output.old result output.new }
{
    if !add_up(draft, sums) {
        return Some(Err(NO_SUCH_BATCH));
    }
    if let Some(length) = assemble(draft, sums, scratch) {
        return Some(judge(draft, &scratch[..length], output));
    }
    if scratch.len() < LONGEST {
        return None;
    }
    Some(Err(NO_SUCH_BATCH))
}

// Delivers a candidate if it is a batch of the edition that has the draft's rows.
fn judge(draft: &Draft<'_>, batch: &[u8], output: &mut [u8]) -> Result<usize, Refused>
    ensures { (answer_of result ≡ judged_answer draft.now.edition draft.now.numbers.now batch.now output.old)
        × (output.new ≡ judged_output draft.now.edition draft.now.numbers.now batch.now output.old) }
{
    if !agrees(draft.edition, batch, draft.numbers, false) {
        return Err(NO_SUCH_BATCH);
    }
    deliver(batch, output)
}
