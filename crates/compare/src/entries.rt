// The entries of the list.
ghost use Rattle.std.specs.Prelude.{◌≤◌, ◌≡◌, [], ◌∷◌};
ghost use Rattle.compare.specs.meaning.Changes.{Later, entry};
ghost use Rattle.compare.specs.meaning.Changes as meaning;
ghost use Rattle.compare.specs.steps.Lists.{Added};
ghost use Rattle.compare.specs.steps.Told.{Small, numbers_of};

// How many numbers an entry has.
pub const ENTRY_NUMBERS: usize = 4;

// The first number of an entry, as C has it: what is only in the first batch, what is only in the second, and leaves whose octets differ.
pub const ONLY_FIRST: usize = 1;

pub const ONLY_SECOND: usize = 2;

pub const LEAVES_DIFFER: usize = 3;

// What changed, by rows.
#[derive(Clone, Copy)]
pub(crate) enum Change {
    // What is only in the first batch.
    OnlyFirst {
        row: usize,
    },
    // What is only in the second batch.
    OnlySecond {
        row: usize,
    },
    // Leaves whose octets differ, and how many seconds later the second of two times is.
    LeavesDiffer {
        first: usize,
        second: usize,
        seconds: i64,
    },
}

impl Change {
    // The four numbers of the entry: which change it is, the row in either batch, 0 where none, and the seconds.
    // No From: the numbers are those only of a change whose rows are small (`Small`).
    fn numbers(self) -> (i64, i64, i64, i64)
        requires { Small self }
        ensures { (result.0 ∷ result.1 ∷ result.2 ∷ result.3 ∷ []) ≡ numbers_of self }
    {
        match self {
            Change::OnlyFirst { row } => (ONLY_FIRST as i64, row as i64, 0, 0),
            Change::OnlySecond { row } => (ONLY_SECOND as i64, 0, row as i64, 0),
            Change::LeavesDiffer {
                first,
                second,
                seconds,
            } => (LEAVES_DIFFER as i64, first as i64, second as i64, seconds),
        }
    }
}

// Writes the entry with a number into the list, if the list has room for it. The list begins with the entry whose number is `from`.
pub(crate) fn put(change: Change, number: usize, from: usize, list: &mut [i64])
    requires { Small change × (number ≤ 131070) }
    ensures { (later : Later) (c : meaning.Change) → entry later c ≡ numbers_of change → Added later from number (c ∷ []) list.old list.new }
{
    if number < from {
        return;
    }
    let at = ENTRY_NUMBERS * (number - from);
    if list.len() < at + ENTRY_NUMBERS {
        return;
    }
    let (what, first, second, seconds) = change.numbers();
    list[at] = what;
    list[at + 1] = first;
    list[at + 2] = second;
    list[at + 3] = seconds;
}
