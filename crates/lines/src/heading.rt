// The heading of a line.
ghost use Rattle.std.specs.Prelude.{◌%◌, ◌≡◌};
ghost use Rattle.cases.specs.Reading.{digit_of};
ghost use Rattle.lines.specs.Heading.{blank, with_digit, Written, with_mark, with_number, with_last, with_digit_at, heading_next};

use cases::case::digit;

// The parts of a line.
#[derive(Clone, Copy, PartialEq, Eq)]
pub enum Part {
    Edition,
    Number,
    List,
    Octets,
}

// A heading as far as it has been read.
#[derive(Clone, Copy)]
pub struct Heading {
    // The part that is being read.
    pub part: Part,
    // The edition, if one is named.
    pub edition: Option<usize>,
    // The number, if one is given.
    pub number: Option<usize>,
    // Whether a list is given, and how many numbers it has. Two fields: a `;` before the list's mark counts too, and gives no list.
    pub listed: bool,
    pub count: usize,
}

impl Heading {
    // A heading of which nothing is read yet.
    pub fn start() -> Heading
        ensures { result ≡ blank }
    {
        Heading {
            part: Part::Edition,
            edition: None,
            number: None,
            listed: false,
            count: 0,
        }
    }

    // Reads the next character of a heading: a mark begins a part, `;` a number of the list, and any other is a digit.
    #[tactic(auto, unfolding(crate::specs::Heading::heading_next))]
    pub fn read(&mut self, c: u8, list: &mut [usize])
        ensures { Written self.new list.new (heading_next self.old c list.old) }
    {
        match c {
            b':' | b'/' | b'=' => self.begin_part(c),
            b';' => self.begin_number(list),
            _ => self.read_digit(c, list),
        }
    }

    // Begins the part that a mark announces.
    #[tactic(auto, unfolding(crate::specs::Heading::with_mark))]
    fn begin_part(&mut self, mark: u8)
        ensures { self.new ≡ with_mark self.old mark }
    {
        match mark {
            b':' => self.part = Part::Octets,
            b'/' => {
                self.part = Part::Number;
                self.number = Some(self.number.unwrap_or(0));
            }
            _ => {
                self.part = Part::List;
                self.listed = true;
            }
        }
    }

    // Begins a number of the list, if there is room for it.
    #[tactic(auto, unfolding(crate::specs::Heading::with_number))]
    fn begin_number(&mut self, list: &mut [usize])
        ensures { Written self.new list.new (with_number self.old list.old) }
    {
        if self.count < list.len() {
            list[self.count] = 0;
            self.count += 1;
        }
    }

    // Reads a digit of the present part's number.
    #[tactic(auto, unfolding(crate::specs::Heading::with_digit_at))]
    fn read_digit(&mut self, c: u8, list: &mut [usize])
        ensures { Written self.new list.new (with_digit_at self.old c list.old) }
    {
        match self.part {
            Part::Edition => self.edition = Some(decimal(self.edition.unwrap_or(0), c)),
            Part::Number => self.number = Some(decimal(self.number.unwrap_or(0), c)),
            Part::List | Part::Octets => add_digit(list, self.count, c),
        }
    }
}

// Adds a digit to the last of the first `count` numbers of a list.
#[tactic(auto, unfolding(crate::specs::Heading::with_last))]
fn add_digit(list: &mut [usize], count: usize, c: u8)
    ensures { list.new ≡ with_last list.old count c }
{
    if 0 < count && count <= list.len() {
        list[count - 1] = decimal(list[count - 1], c);
    }
}

// A decimal number with one more digit; the largest `usize` if that is larger.
#[tactic(auto, unfolding(crate::specs::Heading::with_digit))]
fn decimal(number: usize, c: u8) -> usize
    ensures { result ≡ with_digit number (digit_of c % 10) }
{
    let ones = (digit(c) % 10) as usize;
    number.saturating_mul(10).saturating_add(ones)
}
