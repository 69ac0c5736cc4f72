// Refusals, faults and answers as text.
ghost use Rattle.std.specs.Prelude.{◌≡◌};
ghost use Rattle.format.specs.Page.{put};
ghost use Rattle.format.specs.Lent.{lent};
ghost use Rattle.format.specs.Answer.{refusal_text, fault_text, remark, answer_text, outcome_text};

use crate::page::Page;
use der::refusal::{ACCEPTED, Refused};

impl Page<'_> {
    // Writes a refusal: NUMBER@PLACE.
    pub fn refusal(&mut self, refused: usize, place: usize)
        ensures same_page { self.new.octets.ghost_name ≡ self.old.octets.ghost_name }
        ensures written { lent self.new ≡ put (lent self.old) (refusal_text refused place) }
    {
        self.number(refused);
        self.character(b'@');
        self.number(place);
    }

    // Writes a fault: NUMBER@PLACE DETAIL.
    pub fn fault(&mut self, refused: usize, place: usize, detail: usize)
        ensures same_page { self.new.octets.ghost_name ≡ self.old.octets.ghost_name }
        ensures written { lent self.new ≡ put (lent self.old) (fault_text refused place detail) }
    {
        self.refusal(refused, place);
        self.character(b' ');
        self.number(detail);
    }

    // Writes an answer: `0 COUNT` or NUMBER@PLACE, with `and not 0 but N` if the third number, which should be 0, isn't.
    // Three numbers, and no Result: any three are written, and a wrong third is said (`answer_text`).
    pub fn answer(&mut self, found: usize, place: usize, count: usize)
        ensures same_page { self.new.octets.ghost_name ≡ self.old.octets.ghost_name }
        ensures written { lent self.new ≡ put (lent self.old) (answer_text found place count) }
    {
        if found != 0 {
            self.refusal(found, place);
            return self.not_zero(count);
        }
        self.text(b"0 ");
        self.number(count);
        self.not_zero(place);
    }

    // Writes what a call answers: `0 COUNT`, or its refusal: NUMBER@PLACE.
    #[tactic(auto, unfolding(crate::specs::Answer::outcome_text))]
    pub fn outcome(&mut self, outcome: Result<usize, Refused>)
        ensures same_page { self.new.octets.ghost_name ≡ self.old.octets.ghost_name }
        ensures written { lent self.new ≡ put (lent self.old) (outcome_text outcome) }
    {
        match outcome {
            Ok(count) => self.answer(ACCEPTED, 0, count),
            Err(refused) => self.answer(refused.refusal.number(), refused.place, 0),
        }
    }

    // Writes `and not 0 but N` for a number that should be 0 and isn't.
    fn not_zero(&mut self, n: usize)
        ensures same_page { self.new.octets.ghost_name ≡ self.old.octets.ghost_name }
        ensures written { lent self.new ≡ put (lent self.old) (remark n) }
    {
        if n == 0 {
            return;
        }
        self.text(b" and not 0 but ");
        self.number(n);
    }
}
