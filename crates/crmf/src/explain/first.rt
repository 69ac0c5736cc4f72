// What the exact walk notes once: a form of one edition alone, and a certReqId that is too long.
ghost use Rattle.std.specs.Prelude.{◌<◌};

// A form of one edition alone: its difference's number and its place.
#[derive(Clone, Copy)]
pub struct Difference {
    pub number: usize,
    pub place: usize,
    ghost some: { 0 < number },
}

// A certReqId of more than 8 content octets: its whole length and its place.
#[derive(Clone, Copy)]
pub struct LongId {
    pub whole: usize,
    pub place: usize,
    ghost some: { 0 < whole },
}
