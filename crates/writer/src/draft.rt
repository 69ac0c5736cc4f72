// A draft of a batch, and its rows.
ghost use Rattle.std.specs.Prelude.{◌≡◌, true};
ghost use Rattle.writer.specs.steps.Writing.{shaped, is_known};
ghost use Rattle.writer.specs.steps.Inner.{row_of, row_with, Numbered};

use crmf::rows::WIDTH;

// A draft that has a batch's shape: the edition that it is written in, the numbers of its rows, and the slice that its leaves point into. The
// edition is a number, since `agrees`, which stands beneath the editions, takes one.
#[derive(Clone, Copy)]
pub(crate) struct Draft<'a> {
    pub(crate) edition: usize,
    pub(crate) numbers: &'a [usize],
    pub(crate) bytes: &'a [u8],
    ghost known: { is_known edition ≡ true },
    ghost shape: { shaped numbers.now ≡ true },
}

// A row of a draft. crmf has the same five numbers in a type of its own, which is private to the walks that fill a table and compare rows; to
// share it would make their inner step public.
#[derive(Clone, Copy)]
pub(crate) struct Row {
    pub(crate) kind: usize,
    pub(crate) first: usize,
    pub(crate) whole: usize,
    pub(crate) parent: usize,
    pub(crate) content: usize,
}

impl From<[usize; WIDTH]> for Row {
    // The row that has these numbers.
    fn from(numbers: [usize; WIDTH]) -> Row
        ensures { row_of result ≡ row_with numbers }
    {
        let [kind, first, whole, parent, content] = numbers;
        Row {
            kind,
            first,
            whole,
            parent,
            content,
        }
    }
}

// The numbers of each row that a draft has, without those that are no whole row.
pub(crate) fn rows(draft: &[usize]) -> &[[usize; WIDTH]]
    ensures { Numbered draft.now result.now }
{
    draft.as_chunks().0
}
