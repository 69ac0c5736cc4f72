// What writing answers: a refusal, or the batch in the output.
ghost use Rattle.std.specs.Prelude.{◌≡◌};
ghost use Rattle.editions.specs.steps.Results.{answer_of};
ghost use Rattle.writer.specs.steps.Writing.{delivered_answer, delivered_output};

use crate::octets::append;
use der::refusal::{Refusal, Refused};

// A batch that is longer than LONGEST.
pub(crate) const TOO_LONG: Refused = Refused {
    refusal: Refusal::TooLong,
    place: 0,
};

// An output that is too short.
pub(crate) const NO_ROOM: Refused = Refused {
    refusal: Refusal::NoRoom,
    place: 0,
};

// A draft that describes no batch.
pub(crate) const NO_SUCH_BATCH: Refused = Refused {
    refusal: Refusal::NoSuchBatch,
    place: 0,
};

// A position without a message.
pub(crate) const NO_SUCH_MESSAGE: Refused = Refused {
    refusal: Refusal::NoSuchMessage,
    place: 0,
};

// Copies a batch into the output and answers its length, or refuses if there is no room for it.
pub(crate) fn deliver(batch: &[u8], output: &mut [u8]) -> Result<usize, Refused>
    ensures { (answer_of result ≡ delivered_answer batch.now output.old) × (output.new ≡ delivered_output batch.now output.old) }
{
    append(batch, 0, output).ok_or(NO_ROOM)
}
