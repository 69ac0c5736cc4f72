// Why an element is refused, by name. This is the one place that gives the refusal and request A9's detail of each cause.
ghost use Rattle.std.specs.Prelude.{◌≡◌};
ghost use Rattle.der.specs.steps.Cause.{cause_number, cause_detail};
ghost use Rattle.der.specs.steps.Refusal.{refusal_number};

use crate::refusal::Refusal;

// The causes, in the order in which an element is judged after the input's length.
#[derive(Clone, Copy)]
pub enum Cause {
    // The input is longer than it may be.
    TooLong,
    // The element is deeper than it may be.
    TooDeep,
    // There is no identifier octet before the end.
    NoIdentifier,
    // The identifier is not allowed.
    WrongIdentifier,
    // Not all length octets come before the end.
    NoLength,
    // The length is indefinite, reserved or not in the shortest form.
    WrongLength,
    // The content runs past the end.
    PastEnd,
    // The content breaks the rule of its type, whose tag number is given.
    WrongContent(usize),
}

impl Cause {
    // The refusal of an element for the cause.
    pub(crate) fn refusal(self) -> Refusal
        ensures { refusal_number result ≡ cause_number self }
    {
        match self {
            Cause::TooLong => Refusal::TooLong,
            Cause::TooDeep => Refusal::TooDeep,
            Cause::NoIdentifier => Refusal::Truncated,
            Cause::WrongIdentifier => Refusal::BadIdentifier,
            Cause::NoLength => Refusal::Truncated,
            Cause::WrongLength => Refusal::BadLength,
            Cause::PastEnd => Refusal::Truncated,
            Cause::WrongContent(_) => Refusal::BadContent,
        }
    }

    // Request A9's detail of the cause: for 2 what is missing, for 5 the tag number.
    // A number, and no enum or Option: the definitions say the detail as A9's number, 0 where a rule has one detail alone (`cause_detail`).
    pub(crate) fn detail(self) -> usize
        ensures { result ≡ cause_detail self }
    {
        match self {
            Cause::NoIdentifier => 1,
            Cause::NoLength => 2,
            Cause::PastEnd => 3,
            Cause::WrongContent(tag) => tag,
            Cause::TooLong | Cause::TooDeep | Cause::WrongIdentifier | Cause::WrongLength => 0,
        }
    }
}
