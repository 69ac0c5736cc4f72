// A draft's candidate: the only batch that can have its rows, assembled from the first row to the last.
ghost use Rattle.writer.specs.steps.Writing.{candidate};
ghost use Rattle.writer.specs.steps.Inner.{Lent, Begins};

use crate::draft::{Draft, Row, rows};
use crate::octets::put;

// Writes the candidate into a scratch and answers its length, if there is room for it.
pub(crate) fn assemble(draft: &Draft<'_>, sums: &[usize], scratch: &mut [u8]) -> Option<usize>
    requires { Lent draft.now.numbers.now draft.now.bytes.now sums.now scratch.old }
    ensures { Begins (candidate draft.now.numbers.now draft.now.bytes.now) result scratch.new }
{
    let mut at = 0;
    for (numbers, inner) in rows(draft.numbers).iter().zip(sums) {
        at = put(Row::from(*numbers), *inner, draft.bytes, at, scratch)?;
    }
    Some(at)
}
