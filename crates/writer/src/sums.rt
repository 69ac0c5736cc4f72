// How many octets each row's children have together, added up from the last row to the first.
// They stand beside the rows, and not in them: the draft is C's, nothing is written into it, and nothing is allocated.
ghost use Rattle.std.specs.Prelude.{ℕ, ◌*◌, ◌≤◌, ◌<◌, ◌≡◌, true, length, get_or};
ghost use Rattle.der.specs.meaning.Bounds.{longest};
ghost use Rattle.writer.specs.steps.Writing.{most_rows};
ghost use Rattle.crmf.specs.steps.rows.Agree.{draft_rows};
ghost use Rattle.writer.specs.steps.Inner.{sound, Summed, Blank, Added};

use crate::draft::{Draft, Row, rows};
use crate::lengths::whole_of;

// Adds up the sums in a table and answers whether every leaf lies in the slice and no row is too long.
pub(crate) fn add_up(draft: &Draft<'_>, table: &mut [usize]) -> bool
    requires { Blank (draft_rows draft.now.numbers.now) table.old }
    ensures { (result ≡ sound draft.now.bytes.now 0 (draft_rows draft.now.numbers.now))
        × (result ≡ true → Summed draft.now.bytes.now (draft_rows draft.now.numbers.now) table.new) }
{
    let rows = rows(draft.numbers);
    // By number: the sum of each row is read, and that of its parent, which stands elsewhere in the table, is written.
    for i in (0..rows.len()).rev() {
        let row = Row::from(rows[i]);
        let Some(whole) = whole_of(row, draft.bytes, table[i]) else {
            return false;
        };
        add(table, row.parent, i, whole);
    }
    true
}

// Adds the whole length of row `i` to its parent's sum, if the parent is an earlier row.
fn add(table: &mut [usize], parent: usize, i: usize, whole: usize)
    requires { (i ≤ length table.old) × (whole ≤ longest) × ((k : ℕ) → k < i → get_or table.old k 0 ≤ longest * most_rows) }
    ensures { Added table.old parent i whole table.new }
{
    if i <= parent {
        return;
    }
    table[parent] += whole;
}
