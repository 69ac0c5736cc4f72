// What the C call for the part of an entry answers: the struct of the header, and the answer of `compare` as that.
ghost use Rattle.std.specs.Prelude.{◌≡◌};
ghost use Rattle.compare.specs.steps.Judging.{part_answer_of};

use compare::part::Part as Found;
use der::refusal::ACCEPTED;
use editions::pair::PairRefused;

// Document 01's number (`der::refusal`; ACCEPTED with a part), the place, whose part or refusal it is (`editions::pair::File`), and the part's
// place and length, 0 and 0 with a refusal.
#[repr(C)]
#[derive(Clone, Copy)]
pub struct Part {
    pub number: usize,
    pub place: usize,
    pub file: usize,
    pub from: usize,
    pub length: usize,
}

impl From<Result<Found, PairRefused>> for Part {
    ghost from_gives = { λ found c. let a = part_answer_of found in c ≡ record { number = a.number; place = a.place; file = a.file; from = a.from; length = a.length } };

    fn from(found: Result<Found, PairRefused>) -> Part {
        match found {
            Ok(part) => Part {
                number: ACCEPTED,
                place: 0,
                file: part.file.number(),
                from: part.from,
                length: part.length,
            },
            Err(pair) => Part {
                number: pair.refused.refusal.number(),
                place: pair.refused.place,
                file: pair.file.number(),
                from: 0,
                length: 0,
            },
        }
    }
}
