// Elements that stand one after another in bytes, and the search among them.
ghost use Rattle.std.specs.Prelude.{◌≤◌, ◌≡◌, length, [], ◌∷◌};
ghost use Rattle.der.specs.meaning.Bounds.{longest};
ghost use Rattle.der.specs.steps.Reading.{reading_at};
ghost use Rattle.crmf.specs.meaning.Fields.{first_with};
ghost use Rattle.crmf.specs.steps.Fields.{fields_between};
ghost use Rattle.verdict.specs.steps.Judging.{holds, part_found};

use crate::verdict::Extent;
use der::element::reading::read_at;

// The elements of some bytes from one place to another.
#[derive(Clone, Copy)]
pub(crate) struct Elements<'a> {
    pub(crate) bytes: &'a [u8],
    pub(crate) at: usize,
    pub(crate) end: usize,
    ghost order: { at ≤ end },
    ghost within: { end ≤ length bytes.now },
    ghost short: { length bytes.now ≤ longest },
}

// The first of some elements, with those inside it and those after it.
#[derive(Clone, Copy)]
pub(crate) struct Split<'a> {
    pub(crate) identifier: u8,
    pub(crate) inside: Elements<'a>,
    pub(crate) after: Elements<'a>,
}

impl<'a> Elements<'a> {
    // Takes the first of them apart from the others. If there is none, it has the identifier 0, and nothing is inside it or after it.
    // No Option, as `read_at` has none: where a message ends after its certReq, `proof_verdict` tells that by the identifier.
    pub(crate) fn split(self) -> Split<'a>
        ensures identifier { let s = self.entry in let x = reading_at s.bytes.now s.at s.end in result.identifier ≡ x.identifier }
        ensures inside { let s = self.entry in let x = reading_at s.bytes.now s.at s.end in (result.inside.bytes.now ≡ s.bytes.now) × (result.inside.at ≡ x.content) × (result.inside.end ≡ x.end) }
        ensures after { let s = self.entry in let x = reading_at s.bytes.now s.at s.end in (result.after.bytes.now ≡ s.bytes.now) × (result.after.at ≡ x.end) × (result.after.end ≡ s.end) }
    {
        let bytes = self.bytes;
        let x = read_at(bytes, self.at, self.end);
        let inside = Elements {
            bytes,
            at: x.content,
            end: x.end,
        };
        let after = Elements {
            bytes,
            at: x.end,
            end: self.end,
        };
        Split {
            identifier: x.identifier,
            inside,
            after,
        }
    }

    // The first of them with an identifier, as a part of the bytes.
    pub(crate) fn find(self, id: u8) -> Option<Extent>
        ensures { let s = self.entry in result ≡ part_found (first_with (id ∷ []) (fields_between s.bytes.now s.at s.end)) }
    {
        let mut rest = self;
        // No index is counted: each turn leaves an element behind, of any length.
        while rest.at < rest.end {
            let first = rest.split();
            if first.identifier == id {
                return Some(Extent {
                    from: rest.at,
                    length: first.after.at - rest.at,
                });
            }
            rest = first.after;
        }
        None
    }

    // Whether one of them has an identifier.
    pub(crate) fn has(self, id: u8) -> bool
        ensures { let s = self.entry in result ≡ holds id (fields_between s.bytes.now s.at s.end) }
    {
        self.find(id).is_some()
    }
}
