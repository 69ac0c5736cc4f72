// What the C calls answer of a message's proof and of duplicates: the structs of the header, and the answers of `verdict` as these.
ghost use Rattle.std.specs.Prelude.{◌≡◌};
ghost use Rattle.crmf.specs.declared.messages.Position.{Position};
ghost use Rattle.verdict.specs.steps.Results.{judge_answer_of, search_answer_of};

use crmf::messages::Position;
use der::refusal::{ACCEPTED, Refused};
use verdict::duplicates::Pair;
use verdict::verdict::{Extent, ProofVerdict, Verdict as Found};

// Document 01's number (`der::refusal`; ACCEPTED with a verdict), the place, the verdict's number, and the signed part's place and length, 0 and
// 0 if there is none.
#[repr(C)]
#[derive(Clone, Copy)]
pub struct Verdict {
    pub number: usize,
    pub place: usize,
    pub verdict: usize,
    pub from: usize,
    pub length: usize,
}

impl From<Result<Found, Refused>> for Verdict {
    ghost from_gives = { λ judged c. let a = judge_answer_of judged in c ≡ record { number = a.number; place = a.place; verdict = a.verdict; from = a.from; length = a.length } };

    fn from(judged: Result<Found, Refused>) -> Verdict {
        match judged {
            Ok(found) => {
                let part = found.part.unwrap_or(Extent { from: 0, length: 0 });
                Verdict {
                    number: ACCEPTED,
                    place: 0,
                    verdict: found.verdict.number(),
                    from: part.from,
                    length: part.length,
                }
            }
            Err(refused) => Verdict {
                number: refused.refusal.number(),
                place: refused.place,
                verdict: ProofVerdict::NoProof.number(),
                from: 0,
                length: 0,
            },
        }
    }
}

// Document 01's number (`der::refusal`; ACCEPTED if it searched), the place, 1 if a pair was found and 0 if not, and the pair's positions, 0 and
// 0 if there is none.
#[repr(C)]
#[derive(Clone, Copy)]
pub struct Duplicates {
    pub number: usize,
    pub place: usize,
    pub found: usize,
    pub earlier: Position,
    pub later: Position,
}

impl From<Result<Option<Pair>, Refused>> for Duplicates {
    ghost from_gives = { λ searched c. let a = search_answer_of searched in c ≡ record { number = a.number; place = a.place; found = a.found; earlier = a.earlier; later = a.later } };

    fn from(searched: Result<Option<Pair>, Refused>) -> Duplicates {
        match searched {
            Ok(Some(pair)) => Duplicates {
                number: ACCEPTED,
                place: 0,
                found: 1,
                earlier: pair.earlier,
                later: pair.later,
            },
            Ok(None) => without_pair(ACCEPTED, 0),
            Err(refused) => without_pair(refused.refusal.number(), refused.place),
        }
    }
}

// An answer without a pair.
fn without_pair(number: usize, place: usize) -> Duplicates
    ensures { result ≡ record { number = number; place = place; found = 0; earlier = record { 0 = 0 }; later = record { 0 = 0 } } }
{
    Duplicates {
        number,
        place,
        found: 0,
        earlier: Position(0),
        later: Position(0),
    }
}
