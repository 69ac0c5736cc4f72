// Whether a draft's rows are those of a batch: each row of the batch is compared with the draft's.
ghost use Rattle.std.specs.Prelude.{◌+◌, ◌-◌, ◌*◌, ◌≤◌, ◌<◌, ◌≡◌, length, drop};
ghost use Rattle.crmf.specs.meaning.Rows.{width};
ghost use Rattle.crmf.specs.steps.rows.Fill.{entry_row, rows_of_input};
ghost use Rattle.crmf.specs.steps.rows.Agree as spec;
ghost use Rattle.crmf.specs.steps.rows.Agree.{draft_rows, row_from, first_agrees};

use crate::kinds;
use crate::rows::{Entry, Taker, WIDTH, walk};

// Whether the draft has as many rows as the bytes, and each agrees. In place, all numbers of a row are the same. Otherwise kind and parent are and,
// in a leaf, its length and its header's, wherever it stands.
pub(crate) fn agree(bytes: &[u8], draft: &[usize], in_place: bool) -> bool
    ensures { result ≡ spec.agree in_place (draft_rows draft.now) (rows_of_input bytes.now) }
{
    let rows = draft.len() / WIDTH;
    let taker = Draft {
        numbers: draft,
        in_place,
    };
    walk(bytes, &taker, &mut []) == Some(rows)
}

// Compares each row with the draft's of the same number. Nothing is written.
#[derive(Clone, Copy)]
struct Draft<'a> {
    numbers: &'a [usize],
    in_place: bool,
}

impl Taker for Draft<'_> {
    ghost takes = { λ s n q old b new. b ≡ first_agrees s.in_place (drop n (draft_rows s.numbers.now)) q };

    fn take(&self, new: Entry, row: usize, out: &mut [usize]) -> bool {
        let at = WIDTH * row;
        if self.numbers.len() < at + WIDTH {
            return false;
        }
        agrees(new, self.numbers, at, self.in_place)
    }
}

// Whether an entry agrees with the draft's row from the place `at` on.
fn agrees(new: Entry, draft: &[usize], at: usize, in_place: bool) -> bool
    requires { at + width ≤ length draft.now }
    ensures { result ≡ spec.agrees in_place (row_from draft.now at) (entry_row new) }
{
    if draft[at] != new.kind {
        return false;
    }
    if draft[at + 3] != new.parent {
        return false;
    }
    let first = draft[at + 1];
    let whole = draft[at + 2];
    let content = draft[at + 4];
    if in_place {
        return (first == new.first) & (whole == new.whole) & (content == new.content);
    }
    if kinds::container(new.kind) {
        return true;
    }
    (whole == new.whole) & (header_length(first, content) == header_length(new.first, new.content))
}

// How far a content is from its element's first byte; 0 if it is before that.
fn header_length(first: usize, content: usize) -> usize
    ensures { result ≡ content - first }
{
    content.saturating_sub(first)
}
