// The two editions of the request grammar (SPECIFICATION 1).
ghost use Rattle.std.specs.Prelude.{◌≡◌};
ghost use Rattle.editions.specs.meaning.Edition.{opposite};
ghost use Rattle.editions.specs.steps.Results.{edition_number, ReadsEdition};

use der::refusal::{Refusal, Refused};

// The numbers stay beside the enum: the public functions take an edition as any number, since one that is neither has an answer of its own.

// The number of RFC 2511, of 1999.
pub const RFC2511: usize = 1;

// The number of RFC 4211, of 2005.
pub const RFC4211: usize = 2;

// An edition.
#[derive(Clone, Copy, PartialEq, Eq)]
pub enum Edition {
    // Edition 1: RFC 2511.
    Rfc2511,
    // Edition 2: RFC 4211.
    Rfc4211,
}

// The edition of a number, or the refusal of one that is neither 1 nor 2.
impl TryFrom<usize> for Edition {
    type Error = Refused;

    ghost try_from_gives = { ReadsEdition };

    fn try_from(number: usize) -> Result<Edition, Refused> {
        match number {
            RFC2511 => Ok(Edition::Rfc2511),
            RFC4211 => Ok(Edition::Rfc4211),
            _ => Err(Refused {
                refusal: Refusal::UnknownEdition,
                place: 0,
            }),
        }
    }
}

impl Edition {
    // The other edition.
    pub fn opposite(self) -> Edition
        ensures { edition_number result ≡ opposite (edition_number self) }
    {
        match self {
            Edition::Rfc2511 => Edition::Rfc4211,
            Edition::Rfc4211 => Edition::Rfc2511,
        }
    }
}
