// The editions that a line is judged in.
ghost use Rattle.std.specs.Prelude.{OnOk};
ghost use Rattle.std.specs.List.{FoldsTo};
ghost use Rattle.std.specs.Fn.{Called};
ghost use Rattle.lines.specs.Editions.{editions_of};

use crate::heading::Heading;
use std::io;

impl Heading {
    // Judges a line in the edition that it names, or in one edition and then in another if it names none. An error ends it.
    pub fn in_editions<F: FnMut(usize) -> io::Result<()>>(
        &self,
        one: usize,
        other: usize,
        mut judge: F,
    ) -> io::Result<()>
        requires { F.IsAlwaysCallable judge }
        ensures { OnOk result ((last : F)
            × FoldsTo (λ p edition q. Called F.FnMut p (edition, tt) (Ok tt) q) judge (editions_of self.now.edition one other) last) }
    {
        match self.edition {
            Some(edition) => judge(edition),
            None => {
                judge(one)?;
                judge(other)
            }
        }
    }
}
