// A line: a heading, the numbers of its list, and the octets of a case.
ghost use Rattle.std.specs.Prelude.{◌≡◌, take};
ghost use Rattle.std.specs.List.{fold};
ghost use Rattle.lines.specs.Line.{blank_line, fresh_line, line_next};

use crate::heading::{Heading, Part};
use cases::case::Case;
use cases::input::Reading;
use cases::table::NUMBERS;

// A line as far as it has been read.
#[derive(Clone, Copy)]
pub struct Line {
    pub heading: Heading,
    // No Vec: reading a character can't fail. A program that has read the list may use its room as a table.
    pub list: [usize; NUMBERS],
    pub case: Case,
}

impl Line {
    // A line of which nothing is read yet.
    pub fn start() -> Line
        ensures { result ≡ blank_line result.list }
    {
        Line {
            heading: Heading::start(),
            list: [0; NUMBERS],
            case: Case::start(),
        }
    }

    // The numbers of the list.
    pub fn numbers(&self) -> &[usize]
        ensures { result.now ≡ take self.now.heading.count self.now.list }
    {
        &self.list[..self.heading.count.min(NUMBERS)]
    }

    // The octets of the case.
    pub fn octets(&self) -> &[u8]
        ensures { result.now ≡ take self.now.case.filled.octets self.now.case.filled.room }
    {
        self.case.octets()
    }
}

impl Reading for Line {
    ghost anew = { fresh_line };

    ghost after = { line_next };

    // Begins a line anew; the room and the list stay as they are.
    fn restart(&mut self)
        ensures { self.new ≡ fresh_line self.old }
    {
        self.heading = Heading::start();
        self.case.restart();
    }

    // Reads the next character of a line.
    #[tactic(auto, unfolding(crate::specs::Line::line_next))]
    fn read(&mut self, c: u8)
        ensures { self.new ≡ line_next self.old c }
    {
        if self.heading.part == Part::Octets {
            return self.case.read(c);
        }
        self.heading.read(c, &mut self.list);
    }

    // Reads characters, one after the other: those of the octets all in one call.
    fn read_all(&mut self, text: &[u8])
        ensures { self.new ≡ fold line_next self.old text.now }
    {
        let mut rest = text;
        while let Some((c, more)) = rest.split_first() {
            if self.heading.part == Part::Octets {
                return self.case.read_all(rest);
            }
            self.read(*c);
            rest = more;
        }
    }
}
