// A batch's rows, each packed into one number: its kind, first byte, whole length and parent's row. specs/steps/rows/Packing.antt has the same
// names.
// One number, and no struct of four: two tables of 32,767 rows stand on the stack, and the 600,000 bytes that comparing may take have room for
// one number a row.
ghost use Rattle.std.specs.Prelude.{true, ◌≡◌, length, take};
ghost use Rattle.crmf.specs.meaning.Lists.{over};
ghost use Rattle.crmf.specs.steps.rows.Fill.{rows_of_input, entry_row};
ghost use Rattle.crmf.specs.steps.rows.Take.{Writes};
ghost use Rattle.crmf.specs.steps.rows.Packing.{pack_row, packed_rows, kind_of, first_of, whole_of, parent_of};

use crate::rows::{Entry, Taker, walk};

// The room of each field: kinds are below KINDS; places, lengths and row numbers are below PLACES.
const KINDS: usize = 128;

const PLACES: usize = 0x1_0000;

// The weight of each field, from the lowest up. The kind is the lowest and weighs 1.
const FIRST_WEIGHT: usize = KINDS;

const WHOLE_WEIGHT: usize = FIRST_WEIGHT * PLACES;

const PARENT_WEIGHT: usize = WHOLE_WEIGHT * PLACES;

// Writes the rows of the bytes into `out`, each packed into one number, as far as there is room for them. For an accepted batch these are the
// batch's rows.
pub fn pack(bytes: &[u8], out: &mut [usize])
    ensures { out.new ≡ over out.old 0 (packed_rows (take (length out.old) (rows_of_input bytes.now))) }
{
    walk(bytes, &Packed, out);
}

// Writes each row into the table packed into one number, as far as there is room.
struct Packed;

impl Taker for Packed {
    ghost takes = { λ s. Writes true };

    fn take(&self, new: Entry, row: usize, out: &mut [usize]) -> bool {
        if out.len() <= row {
            return true;
        }
        out[row] = number(new);
        true
    }
}

// An entry's row as one number. A field that is too large for its room would be taken modulo it; of a batch's rows none is.
fn number(new: Entry) -> usize
    ensures { result ≡ pack_row (entry_row new) }
{
    new.kind % KINDS
        + FIRST_WEIGHT * (new.first % PLACES)
        + WHOLE_WEIGHT * (new.whole % PLACES)
        + PARENT_WEIGHT * (new.parent % PLACES)
}

// A function for each field, by its name: one for all would take the weight and the room at every call.

// A packed row's kind.
pub fn kind(row: usize) -> usize
    ensures { result ≡ kind_of row }
{
    row % KINDS
}

// The first byte of a packed row's element.
pub fn first(row: usize) -> usize
    ensures { result ≡ first_of row }
{
    row / FIRST_WEIGHT % PLACES
}

// The whole length of a packed row's element.
pub fn whole(row: usize) -> usize
    ensures { result ≡ whole_of row }
{
    row / WHOLE_WEIGHT % PLACES
}

// The number of the row above a packed row.
pub fn parent(row: usize) -> usize
    ensures { result ≡ parent_of row }
{
    row / PARENT_WEIGHT % PLACES
}
