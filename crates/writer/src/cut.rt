// Cutting a message out of a batch (SPECIFICATION 10).
ghost use Rattle.editions.specs.steps.Results.{answer_of};
ghost use Rattle.writer.specs.meaning.Cuts.{Cuts};

use crate::answers::NO_SUCH_MESSAGE;
use crate::around::put_around;
use crmf::messages::{Position, message_at};
use der::element::reading::read_at;
use der::refusal::Refused;
use editions::reader::accept;

// Writes the batch whose one message is the one at a position, and answers its length. Refuses what `accept` refuses, a position
// without a message, and an output that is too short. A refusal leaves the output as it was; otherwise the output begins with the batch,
// and its other bytes stay.
pub fn cut(
    edition: usize,
    bytes: &[u8],
    position: Position,
    output: &mut [u8],
) -> Result<usize, Refused>
    ensures { let a = answer_of result in Cuts edition bytes.now position.0 output.old a.number a.place a.count output.new }
{
    accept(edition, bytes)?;
    let Some(at) = message_at(bytes, position) else {
        return Err(NO_SUCH_MESSAGE);
    };
    let end = read_at(bytes, at, bytes.len()).end;
    put_around(&bytes[at..end], &[], output)
}
