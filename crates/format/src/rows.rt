// The numbers of a table as text, a row to a line.
ghost use Rattle.std.specs.Prelude.{◌≡◌, take};
ghost use Rattle.format.specs.Page.{put};
ghost use Rattle.format.specs.Lent.{lent};
ghost use Rattle.format.specs.Rows.{mark, rows_text};

use crate::page::Page;

impl Page<'_> {
    // Writes the first `count` numbers of a table, or all if it has fewer, `width` of them to a line, or one if the width is 0.
    pub fn rows(&mut self, width: usize, table: &[usize], count: usize)
        ensures same_page { self.new.octets.ghost_name ≡ self.old.octets.ghost_name }
        ensures written { lent self.new ≡ put (lent self.old) (rows_text width (take count table.now)) }
    {
        let numbers = &table[..count.min(table.len())];
        for (i, &n) in numbers.iter().enumerate() {
            self.number(n);
            self.character(after(width, i));
        }
    }
}

// The character after the number at place `i`: a line's end after the last number of a row, and a space after any other.
#[tactic(auto, unfolding(crate::specs::Rows::mark))]
fn after(width: usize, i: usize) -> u8
    ensures { result ≡ mark width i }
{
    if width == 0 || i % width == width - 1 {
        return b'\n';
    }
    b' '
}
