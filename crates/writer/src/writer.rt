// Writing the batch that a draft describes (SPECIFICATION 6).
ghost use Rattle.std.specs.Prelude.{◌≡◌, true};
ghost use Rattle.crmf.specs.steps.recognise.Count.{agreed};
ghost use Rattle.editions.specs.steps.Results.{answer_of};
ghost use Rattle.writer.specs.meaning.Writes.{Writes};
ghost use Rattle.writer.specs.steps.Writing as spec;

use crate::answers::{NO_SUCH_BATCH, deliver};
use crate::build::{MOST_ROWS, sized};
use crate::draft::{Draft, Row, rows};
use crmf::recognise::agrees;
use crmf::rows::WIDTH;
use der::refusal::Refused;
use editions::edition::Edition;

// Writes the batch that a draft over `bytes` describes in an edition, and answers its length. Refuses a number that is neither 1 nor 2, a
// draft that describes no batch, and an output that is too short. A refusal leaves the output as it was; otherwise the output
// begins with the batch, and its other bytes stay. If the bytes are themselves the batch whose rows these are, it is judged where it stands.
pub fn write(
    edition: usize,
    draft: &[usize],
    bytes: &[u8],
    output: &mut [u8],
) -> Result<usize, Refused>
    ensures { let a = answer_of result in Writes edition draft.now bytes.now output.old a.number a.place a.count output.new }
{
    Edition::try_from(edition)?;
    if !shaped(draft) {
        return Err(NO_SUCH_BATCH);
    }
    let draft = Draft {
        edition,
        numbers: draft,
        bytes,
    };
    if stands(&draft) {
        return deliver(bytes, output);
    }
    sized(&draft, output)
}

// Whether the bytes are themselves a batch of the edition, and the draft's rows are its own. Only a draft whose first row is as long as the
// bytes is compared with them.
fn stands(draft: &Draft<'_>) -> bool
    ensures { result ≡ true → agreed draft.now.edition draft.now.bytes.now draft.now.numbers.now true ≡ true }
{
    let Some(numbers) = rows(draft.numbers).first() else {
        return false;
    };
    let whole = Row::from(*numbers);
    if (whole.first != 0) | (whole.whole != draft.bytes.len()) {
        return false;
    }
    agrees(draft.edition, draft.bytes, draft.numbers, true)
}

// Whether a draft has whole rows, and no more than a batch can have.
fn shaped(draft: &[usize]) -> bool
    ensures { result ≡ spec.shaped draft.now }
{
    (WIDTH * rows(draft).len() == draft.len()) & (rows(draft).len() <= MOST_ROWS)
}
