// A batch written around the octets of its messages.
ghost use Rattle.std.specs.Prelude.{◌≤◌, ◌≡◌, length};
ghost use Rattle.der.specs.meaning.Bounds.{longest};
ghost use Rattle.editions.specs.steps.Results.{answer_of};
ghost use Rattle.writer.specs.steps.Around.{around, around_answer, around_output};
ghost use Rattle.writer.specs.steps.Inner.{Appended};

use crate::answers::{NO_ROOM, TOO_LONG};
use crate::lengths::whole_around;
use crate::octets::{append, put_header};
use crmf::kinds;
use der::refusal::Refused;

// Writes the batch whose content is the octets `left` and then `right`, and answers its length. Refuses a batch that is too long, and then an
// output that is too short.
pub(crate) fn put_around(left: &[u8], right: &[u8], output: &mut [u8]) -> Result<usize, Refused>
    requires { (length left.now ≤ longest) × (length right.now ≤ longest) }
    ensures { (answer_of result ≡ around_answer left.now right.now output.old) × (output.new ≡ around_output left.now right.now output.old) }
{
    let inner = left.len() + right.len();
    let whole = whole_around(kinds::BATCH, inner).ok_or(TOO_LONG)?;
    if output.len() < whole {
        return Err(NO_ROOM);
    }
    put_runs(left, right, output).ok_or(NO_ROOM)
}

// Writes that batch if it has room, and answers its length.
fn put_runs(left: &[u8], right: &[u8], output: &mut [u8]) -> Option<usize>
    requires { length (around left.now right.now) ≤ longest }
    ensures { Appended output.old 0 (around left.now right.now) result output.new }
{
    let inner = left.len() + right.len();
    let content = put_header(kinds::BATCH, inner, 0, output)?;
    let middle = append(left, content, output)?;
    append(right, middle, output)
}
