// What comes back from a call that refuses, and its numbers (SPECIFICATION 4): document 01's table "Numbers that come back".
ghost use Rattle.std.specs.Prelude.{◌≡◌};
ghost use Rattle.der.specs.steps.Refusal.{refusal_number};

// Accepted, with the row count.
// A number, and no variant: it is no refusal, but C has it in the same field.
pub const ACCEPTED: usize = 0;

// Why a call refuses.
#[derive(Clone, Copy, PartialEq, Eq)]
pub enum Refusal {
    // The input is longer than 65,535 bytes.
    TooLong,
    // An element is cut short, or goes past its parent's end.
    Truncated,
    // An identifier is not allowed.
    BadIdentifier,
    // A length is indefinite or not the shortest.
    BadLength,
    // A content breaks DER.
    BadContent,
    // An element is deeper than 20; the batch is at depth 1.
    TooDeep,
    // Bytes follow the batch.
    TrailingBytes,
    // The batch is not in the grammar of either edition.
    NotInGrammar,
    // The batch is not in this edition's grammar, but in the other's.
    OtherEdition,
    // A certReqId has more than 8 content octets.
    LongCertReqId,
    // The table or the output is too short.
    NoRoom,
    // The draft describes no acceptable batch.
    NoSuchBatch,
    // The edition is neither 1 nor 2.
    UnknownEdition,
    // There is no message at the position.
    NoSuchMessage,
}

impl Refusal {
    // Document 01's number of a refusal.
    // A method by its name, and no From: a refusal has this number in document 01 alone.
    pub fn number(self) -> usize
        ensures { result ≡ refusal_number self }
    {
        match self {
            Refusal::TooLong => 1,
            Refusal::Truncated => 2,
            Refusal::BadIdentifier => 3,
            Refusal::BadLength => 4,
            Refusal::BadContent => 5,
            Refusal::TooDeep => 6,
            Refusal::TrailingBytes => 7,
            Refusal::NotInGrammar => 8,
            Refusal::OtherEdition => 9,
            Refusal::LongCertReqId => 10,
            Refusal::NoRoom => 11,
            Refusal::NoSuchBatch => 12,
            Refusal::UnknownEdition => 13,
            Refusal::NoSuchMessage => 14,
        }
    }
}

// A refusal and the place where it was found: the error of every call.
#[derive(Clone, Copy, PartialEq, Eq)]
pub struct Refused {
    pub refusal: Refusal,
    pub place: usize,
}
