// Joining two batches (SPECIFICATION 10).
ghost use Rattle.std.specs.Prelude.{◌≤◌, ◌≡◌, length, drop};
ghost use Rattle.der.specs.meaning.Bounds.{longest};
ghost use Rattle.der.specs.steps.Reading.{reading_at};
ghost use Rattle.editions.specs.steps.Results.{pair_answer_of};
ghost use Rattle.writer.specs.meaning.Joins.{Joins};

use crate::around::put_around;
use der::element::reading::read_at;
use editions::pair::PairRefused;
use editions::reader::accept;

// Writes the batch that has the first's messages and then the second's, and answers its length. Refuses what `accept` refuses of
// the first and then of the second, a batch that is longer than LONGEST, and an output that is too short. A refusal leaves the output as
// it was; otherwise the output begins with the batch, and its other bytes stay.
pub fn join(
    edition: usize,
    first: &[u8],
    second: &[u8],
    output: &mut [u8],
) -> Result<usize, PairRefused>
    ensures { let a = pair_answer_of result in Joins edition first.now second.now output.old a.number a.place a.file a.count output.new }
{
    accept(edition, first).map_err(PairRefused::of_first)?;
    accept(edition, second).map_err(PairRefused::of_second)?;
    put_around(content(first), content(second), output).map_err(PairRefused::of_neither)
}

// The content of the batch that the bytes are.
fn content(bytes: &[u8]) -> &[u8]
    requires { length bytes.now ≤ longest }
    ensures { result.now ≡ drop (reading_at bytes.now 0 (length bytes.now)).content bytes.now }
{
    let end = bytes.len();
    let start = read_at(bytes, 0, end).content;
    &bytes[start..end]
}
