// What C gets from a call with one batch, or with two, in C's layout.
ghost use Rattle.std.specs.Prelude.{◌≡◌};
ghost use Rattle.editions.specs.steps.Results.{answer_of, pair_answer_of};

use der::refusal::{ACCEPTED, Refused};
use editions::pair::{File, PairRefused};

// Document 01's number (`der::refusal`), the place, and the count.
#[repr(C)]
#[derive(Clone, Copy)]
pub struct Answer {
    pub number: usize,
    pub place: usize,
    pub count: usize,
}

impl From<Result<usize, Refused>> for Answer {
    ghost from_gives = { λ answered c. let a = answer_of answered in c ≡ record { number = a.number; place = a.place; count = a.count } };

    fn from(answered: Result<usize, Refused>) -> Answer {
        match answered {
            Ok(count) => Answer {
                number: ACCEPTED,
                place: 0,
                count,
            },
            Err(refused) => Answer {
                number: refused.refusal.number(),
                place: refused.place,
                count: 0,
            },
        }
    }
}

// Document 01's number (`der::refusal`), the place, whose refusal it is (`editions::pair::File`), and the count.
#[repr(C)]
#[derive(Clone, Copy)]
pub struct PairAnswer {
    pub number: usize,
    pub place: usize,
    pub file: usize,
    pub count: usize,
}

impl From<Result<usize, PairRefused>> for PairAnswer {
    ghost from_gives = { λ answered c. let a = pair_answer_of answered in c ≡ record { number = a.number; place = a.place; file = a.file; count = a.count } };

    fn from(answered: Result<usize, PairRefused>) -> PairAnswer {
        match answered {
            Ok(count) => PairAnswer {
                number: ACCEPTED,
                place: 0,
                file: File::Neither.number(),
                count,
            },
            Err(pair) => PairAnswer {
                number: pair.refused.refusal.number(),
                place: pair.refused.place,
                file: pair.file.number(),
                count: 0,
            },
        }
    }
}
