// A batch's rows, each packed into a number: which are children of a row, and where the rows below a row end.
ghost use Rattle.std.specs.Prelude.{◌+◌, ◌<◌, ◌≡◌, length, get_or};
ghost use Rattle.std.proofs.Math.Seq.{slice};
ghost use Rattle.crmf.specs.steps.rows.Packing.{kind_of, first_of, whole_of};
ghost use Rattle.compare.specs.meaning.Counterparts as meaning;
ghost use Rattle.compare.specs.steps.Tables.{Tabled, child_at, Ended};

use crmf::kinds;
use crmf::rows::packed;

// A batch: its bytes, and its rows, which are the ones that a batch of these bytes has.
#[derive(Clone, Copy)]
pub(crate) struct Batch<'a> {
    pub(crate) bytes: &'a [u8],
    pub(crate) rows: &'a [usize],
    ghost tabled: { Tabled bytes.now rows.now },
}

impl<'a> Batch<'a> {
    // Whether there is a row with a number, and it is a child of a row.
    pub(crate) fn is_child(self, parent: usize, row: usize) -> bool
        ensures { result ≡ child_at self.entry.rows.now parent row }
    {
        let Some(child) = self.rows.get(row) else {
            return false;
        };
        packed::parent(*child) == parent
    }

    // The number of the next row after a row and those below it; the rows' count if there is none. No Option: the merge goes on from there, and
    // ends at the count.
    pub(crate) fn after(self, row: usize) -> usize
        requires { row < length self.rows.now }
        ensures { Ended self.entry.rows.now row result }
    {
        // By number: it is the answer, too.
        for next in row + 1..self.rows.len() {
            if packed::parent(self.rows[next]) < row {
                return next;
            }
        }
        self.rows.len()
    }

    // The kind of a row.
    pub(crate) fn kind(self, row: usize) -> usize
        requires { row < length self.rows.now }
        ensures { result ≡ kind_of (get_or self.entry.rows.now row 0) }
    {
        packed::kind(self.rows[row])
    }

    // The element of a row, a part of the bytes.
    pub(crate) fn element(self, row: usize) -> &'a [u8]
        requires { row < length self.rows.now }
        ensures { result.now ≡ (let x = get_or self.entry.rows.now row 0 in slice (first_of x) (first_of x + whole_of x) self.entry.bytes.now) }
    {
        let from = packed::first(self.rows[row]);
        let to = from + packed::whole(self.rows[row]);
        &self.bytes[from..to]
    }
}

// Whether the children of a container of a kind are matched by position.
#[tactic(auto, unfolding(crate::specs::meaning::Counterparts::by_position))]
pub(crate) fn by_position(kind: usize) -> bool
    ensures { result ≡ meaning.by_position kind }
{
    matches!(kind, kinds::BATCH | kinds::CONTROLS | kinds::REG_INFO)
}
