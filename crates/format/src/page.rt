// Characters and numbers on a page.
ghost use Rattle.std.specs.Prelude.{◌≡◌, [], ◌∷◌, take};
ghost use Rattle.format.specs.Page.{page, put};
ghost use Rattle.format.specs.Lent.{lent};
ghost use Rattle.format.specs.Decimal.{decimal};

// A page that the caller lends, and the place where the next text is written.
// No String: to write could then fail, and here what doesn't fit is left out.
#[derive(Drop)]
pub struct Page<'a> {
    pub octets: &'a mut [u8],
    pub at: usize,
}

impl<'a> Page<'a> {
    // A page on which nothing is written yet.
    pub fn new(octets: &'a mut [u8]) -> Page<'a>
        ensures same_page { result.octets.ghost_name ≡ octets.entry.ghost_name }
        ensures blank { lent result ≡ page octets.old 0 }
    {
        Page { octets, at: 0 }
    }
}

impl Page<'_> {
    // What is written: the page's octets up to its place, or all if the place is past the end.
    pub fn written(&self) -> &[u8]
        ensures { result.now ≡ take self.now.at self.now.octets.now }
    {
        &self.octets[..self.at.min(self.octets.len())]
    }

    // Writes a character; a page whose place is past its end stays as it is.
    pub fn character(&mut self, c: u8)
        ensures same_page { self.new.octets.ghost_name ≡ self.old.octets.ghost_name }
        ensures written { lent self.new ≡ put (lent self.old) (c ∷ []) }
    {
        if self.at >= self.octets.len() {
            return;
        }
        self.octets[self.at] = c;
        self.at += 1;
    }

    // Writes a text, as far as it fits.
    pub fn text(&mut self, characters: &[u8])
        ensures same_page { self.new.octets.ghost_name ≡ self.old.octets.ghost_name }
        ensures written { lent self.new ≡ put (lent self.old) characters.now }
    {
        for &c in characters {
            self.character(c);
        }
    }

    // Writes a number in decimal digits, as far as they fit. By hand, and not by `write!`: that answers a result, whose contract says nothing of
    // the page at an error, and this one always writes.
    pub fn number(&mut self, n: usize)
        ensures same_page { self.new.octets.ghost_name ≡ self.old.octets.ghost_name }
        ensures written { lent self.new ≡ put (lent self.old) (decimal n) }
    {
        if n < 10 {
            return self.character(b'0' + n as u8);
        }
        self.number(n / 10);
        self.character(b'0' + (n % 10) as u8);
    }
}
