// The whole lengths of rows.
ghost use Rattle.std.specs.Prelude.{suc, ◌+◌, ◌*◌, ◌≤◌, ◌≡◌, length};
ghost use Rattle.der.specs.meaning.Length.{length_octets};
ghost use Rattle.der.specs.meaning.Bounds.{longest};
ghost use Rattle.crmf.specs.steps.rows.Assembly.{implied};
ghost use Rattle.writer.specs.steps.Writing.{most_rows};
ghost use Rattle.writer.specs.steps.Inner.{row_of, Told, Whole};

use crate::draft::Row;
use crate::octets::implied;
use crmf::kinds;
use der::bounds::LONGEST;

// The whole length of a row whose children have `inner` octets together, unless it is too long, or the row is a leaf that leaves the slice.
pub(crate) fn whole_of(row: Row, bytes: &[u8], inner: usize) -> Option<usize>
    requires { inner ≤ longest * most_rows }
    ensures { Whole bytes.now (row_of row) inner result }
{
    if kinds::container(row.kind) {
        return whole_around(row.kind, inner);
    }
    let end = row.first.checked_add(row.whole)?;
    if (bytes.len() < end) | (LONGEST < row.whole) {
        return None;
    }
    Some(row.whole)
}

// The whole length of a container whose children have `inner` octets together, unless it is too long.
pub(crate) fn whole_around(kind: usize, inner: usize) -> Option<usize>
    requires { inner ≤ longest * most_rows }
    ensures { Told (suc (length (length_octets (length (implied kind) + inner)) + (length (implied kind) + inner))) result }
{
    let content = implied(kind).len() + inner;
    if LONGEST < content {
        return None;
    }
    let whole = 1 + length_octets(content) + content;
    if LONGEST < whole {
        return None;
    }
    Some(whole)
}

// How many length octets `content` content octets need. Counted by itself: a row's whole length is known before anything is written.
fn length_octets(content: usize) -> usize
    requires { content ≤ longest }
    ensures { (result ≡ length (length_octets content)) × (result ≤ 3) }
{
    if content < 128 {
        return 1;
    }
    if content < 256 {
        return 2;
    }
    3
}
