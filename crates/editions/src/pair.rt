// What a call with two batches refuses, and whose refusal it is.
ghost use Rattle.std.specs.Prelude.{◌≡◌};
ghost use Rattle.editions.specs.declared.pair.File.TheVariants.{Neither, First, Second};
ghost use Rattle.editions.specs.steps.Results.{file_number};

use der::refusal::Refused;

// Whose refusal it is.
// One enum of three, and no Option of two: document 01 gives the three one row of numbers, and C's structs one field.
#[derive(Clone, Copy, PartialEq, Eq)]
pub enum File {
    // Neither batch's.
    Neither,
    // The first batch's.
    First,
    // The second batch's.
    Second,
}

impl File {
    // Document 01's number.
    pub fn number(self) -> usize
        ensures { result ≡ file_number self }
    {
        match self {
            File::Neither => 0,
            File::First => 1,
            File::Second => 2,
        }
    }
}

// A refusal, and whose it is.
#[derive(Clone, Copy)]
pub struct PairRefused {
    pub refused: Refused,
    pub file: File,
}

impl PairRefused {
    // One for each file: `map_err` takes a function of the refusal alone.

    // A refusal that is neither batch's.
    pub fn of_neither(refused: Refused) -> PairRefused
        ensures { result ≡ record { refused = refused; file = Neither } }
    {
        PairRefused {
            refused,
            file: File::Neither,
        }
    }

    // A refusal of the first batch.
    pub fn of_first(refused: Refused) -> PairRefused
        ensures { result ≡ record { refused = refused; file = First } }
    {
        PairRefused {
            refused,
            file: File::First,
        }
    }

    // A refusal of the second batch.
    pub fn of_second(refused: Refused) -> PairRefused
        ensures { result ≡ record { refused = refused; file = Second } }
    {
        PairRefused {
            refused,
            file: File::Second,
        }
    }
}
