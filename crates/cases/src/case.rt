// The octets of a case, read from a line one character after the other.
//
// Octets are written in hex (upper case), in tokens separated by a space; `0500*3` stands for the token's octets three times. They go into a
// room. If a case is longer than the room, its first octets are kept.
ghost use Rattle.std.specs.Prelude.{◌≡◌, ◌-◌, take};
ghost use Rattle.std.specs.List.{fold};
ghost use Rattle.cases.specs.Reading.{filled, pushed, pushed_again, pushed_part, token_at, case_of, with_filled, started, restarted, token_ended, digit_of, with_count_digit, with_octet_digit, read_next};

use crate::input::Reading;

// How many octets the room holds.
pub const ROOM: usize = 70000;

// The room, and how many octets of a case it has.
// No Vec: to add an octet could then fail, and reading a character can't.
#[derive(Clone, Copy)]
pub struct Filled {
    pub room: [u8; ROOM],
    pub octets: usize,
}

// A case as far as it has been read.
#[derive(Clone, Copy)]
pub struct Case {
    filled: Filled,
    // Where the present token's octets begin.
    token: usize,
    // The first digit of an octet whose second is still to come.
    high: Option<u8>,
    // The token's count as far as it is read, if it is being read.
    times: Option<usize>,
}

// How far a case has been read: all of it but the room. Apart from the room, since a loop that writes to the room keeps them in registers only so.
#[derive(Clone, Copy)]
struct Progress {
    octets: usize,
    token: usize,
    high: Option<u8>,
    times: Option<usize>,
}

impl Progress {
    // Adds an octet to the room; a full room stays as it is.
    #[tactic(auto, unfolding(crate::specs::Reading::pushed))]
    fn push(&mut self, octet: u8, room: &mut [u8; ROOM])
        ensures { case_of self.new room.new ≡ with_filled (case_of self.old room.old) (pushed (filled room.old self.old.octets) octet) }
    {
        if self.octets >= ROOM {
            return;
        }
        room[self.octets] = octet;
        self.octets += 1;
    }

    // Adds the octet at place `i` of the room once more, if the room has that place.
    #[tactic(auto, unfolding(crate::specs::Reading::pushed_again))]
    fn push_again(&mut self, i: usize, room: &mut [u8; ROOM])
        ensures { case_of self.new room.new ≡ with_filled (case_of self.old room.old) (pushed_again i (filled room.old self.old.octets)) }
    {
        if i >= ROOM {
            return;
        }
        self.push(room[i], room);
    }

    // Adds the octets from place `from` up to place `to` of the room once more, until the room is full.
    fn push_part(&mut self, from: usize, to: usize, room: &mut [u8; ROOM])
        ensures { case_of self.new room.new ≡ with_filled (case_of self.old room.old) (pushed_part (to - from) from (filled room.old self.old.octets)) }
    {
        // By index: the octets that are read stand in the room that they are added to.
        for i in from..to {
            if ROOM <= self.octets {
                return;
            }
            self.push_again(i, room);
        }
    }

    // Begins a token after the octets that the room has.
    fn begin_token(&mut self)
        ensures { (room : _) → case_of self.new room ≡ token_at (filled room self.old.octets) }
    {
        self.token = self.octets;
        self.high = None;
        self.times = None;
    }

    // Ends a token: its octets are repeated as often as its count says.
    fn end_token(&mut self, room: &mut [u8; ROOM])
        ensures { case_of self.new room.new ≡ token_at (token_ended (case_of self.old room.old)) }
    {
        let (from, to) = (self.token, self.octets);
        for turn in 1..self.times.unwrap_or(1) {
            self.push_part(from, to, room);
        }
        self.begin_token();
    }

    // Reads a digit of the token's octets.
    #[tactic(auto, unfolding(crate::specs::Reading::with_octet_digit))]
    fn octet_digit(&mut self, digit: u8, room: &mut [u8; ROOM])
        ensures { case_of self.new room.new ≡ with_octet_digit (case_of self.old room.old) digit }
    {
        match self.high {
            None => self.high = Some(digit),
            Some(high) => {
                self.push(high % 16 * 16 + digit % 16, room);
                self.high = None;
            }
        }
    }

    // Reads the next character of a case.
    #[tactic(auto, unfolding(crate::specs::Reading::read_next))]
    fn read(&mut self, c: u8, room: &mut [u8; ROOM])
        ensures { case_of self.new room.new ≡ read_next (case_of self.old room.old) c }
    {
        match c {
            b' ' | b'\n' => self.end_token(room),
            b'*' => self.times = Some(0),
            _ => match self.times {
                Some(times) => self.times = Some(count_digit(times, digit(c))),
                None => self.octet_digit(digit(c), room),
            },
        }
    }
}

// The first `n` octets of a room or a page, or all of them if it has fewer.
pub fn octets(room: &[u8], n: usize) -> &[u8]
    ensures { result.now ≡ take n room.now }
{
    &room[..n.min(room.len())]
}

impl Case {
    // A case of which nothing is read yet.
    #[tactic(auto, unfolding(crate::specs::Reading::started))]
    pub fn start() -> Case
        ensures { result ≡ started }
    {
        Case {
            filled: Filled {
                room: [0; ROOM],
                octets: 0,
            },
            token: 0,
            high: None,
            times: None,
        }
    }

    // The octets that the case has so far.
    pub fn octets(&self) -> &[u8]
        ensures { result.now ≡ take self.now.filled.octets self.now.filled.room }
    {
        octets(&self.filled.room, self.filled.octets)
    }

    // How far it has been read.
    fn progress(&self) -> Progress
        ensures { case_of result self.now.filled.room ≡ self.now }
    {
        Progress {
            octets: self.filled.octets,
            token: self.token,
            high: self.high,
            times: self.times,
        }
    }

    // Sets how far it has been read; its room stays as it is.
    fn proceed(&mut self, to: Progress)
        ensures { self.new ≡ case_of to self.old.filled.room }
    {
        self.filled.octets = to.octets;
        self.token = to.token;
        self.high = to.high;
        self.times = to.times;
    }
}

impl Reading for Case {
    ghost anew = { restarted };

    ghost after = { read_next };

    // Begins a case anew: its room stays as it is, and has no octet of the case.
    #[tactic(auto, unfolding(crate::specs::Reading::restarted))]
    fn restart(&mut self)
        ensures { self.new ≡ restarted self.old }
    {
        self.filled.octets = 0;
        self.token = self.filled.octets;
        self.high = None;
        self.times = None;
    }

    // Reads the next character of a case: a space and a line's end end a token, `*` begins its count, and any other is a digit. The caller
    // starts a new case after a line's end.
    fn read(&mut self, c: u8)
        ensures { self.new ≡ read_next self.old c }
    {
        self.read_all(&[c]);
    }

    // Reads characters, one after the other.
    fn read_all(&mut self, text: &[u8])
        ensures { self.new ≡ fold read_next self.old text.now }
    {
        let mut progress = self.progress();
        for &c in text {
            progress.read(c, &mut self.filled.room);
        }
        self.proceed(progress);
    }
}

// The value of a hex digit; 0 for any other character.
// No Option: `digit_of` says 0, and a line with another character is read as before.
#[tactic(auto, unfolding(crate::specs::Reading::digit_of))]
pub fn digit(c: u8) -> u8
    ensures { result ≡ digit_of c }
{
    match c {
        b'0'..=b'9' => c - b'0',
        b'A'..=b'F' => c - b'A' + 10,
        _ => 0,
    }
}

// A token's count with a digit more; a count that is too large stays as it is.
#[tactic(auto, unfolding(crate::specs::Reading::with_count_digit))]
fn count_digit(times: usize, digit: u8) -> usize
    ensures { result ≡ with_count_digit times digit }
{
    if times > ROOM {
        return times;
    }
    times * 10 + digit as usize
}
