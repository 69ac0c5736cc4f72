// The characters of a program's standard input, one after the other.
ghost use Rattle.std.specs.Prelude.{ℕ, ◌≡◌, true, false, IfOk, OnErr, OnOk};
ghost use Rattle.std.specs.Io.KnownBytes.{Keeps};
ghost use Rattle.std.specs.List.{fold};
ghost use Rattle.cases.specs.Input.{opened, taken, Found, Left, Next, AtEnd, LongestRun, ReadsRun};
ghost use Rattle.cases.specs.Lines.{ReadsOn, ReadsLine, JudgesLines, ChangesLines};

use std::io;
use std::io::Read;

// How many characters of the input are read at a time.
pub const TEXT: usize = 65536;

// What a line is read into, one character after the other.
pub trait Reading {
    ghost anew: { Self → Self };

    ghost after: { Self → ℕ → Self };

    // Begins anew, before a line's first character.
    fn restart(&mut self)
        ensures { self.new ≡ anew self.old };

    // Reads the next character; the line's end is one too.
    fn read(&mut self, c: u8)
        ensures { self.new ≡ after self.old c };

    // Reads characters, one after the other.
    fn read_all(&mut self, text: &[u8])
        ensures { self.new ≡ fold after self.old text.now };
}

// The text that was read last, and how far it has been read.
// No Vec or BufReader: their memory is asked for, and `open` can't fail.
#[derive(Clone, Copy)]
pub struct Input {
    text: [u8; TEXT],
    // How many characters the text has, and the place of the next one.
    read: usize,
    at: usize,
}

impl Input {
    // An input of which nothing is read yet.
    pub fn open() -> Input
        ensures { result ≡ opened }
    {
        Input {
            text: [0; TEXT],
            read: 0,
            at: 0,
        }
    }

    // The next character: of the text, or of more text if none is left; none if the input has ended. An error is the reader's own, and
    // comes only where no character is left; the reader has then given nothing.
    pub fn next<R: Read>(&mut self, reader: &mut R) -> io::Result<Option<u8>>
        ensures read { IfOk result (λ c. Next self.old self.new c) }
        ensures failed { OnErr result (AtEnd self.old self.new) }
        ensures kept { OnErr result (Keeps (R.remaining reader.old) (R.remaining reader.new)) }
    {
        if let Some(c) = self.take() {
            return Ok(Some(c));
        }
        self.read = reader.read(&mut self.text)?;
        self.at = 0;
        Ok(self.take())
    }

    // Reads the next line, and answers whether there was one; a line that has no end is none. Of such a line, and if an error ends it, the characters
    // before have been read.
    pub fn line<R: Read, T: Reading>(&mut self, reader: &mut R, line: &mut T) -> io::Result<bool>
        ensures whole { IfOk result (λ whole. whole ≡ true → ReadsLine T.after (T.anew line.old) line.new) }
        ensures rest { IfOk result (λ whole. whole ≡ false → ReadsOn T.after (T.anew line.old) line.new) }
        ensures failed { OnErr result (ReadsOn T.after (T.anew line.old) line.new) }
    {
        line.restart();
        // A count bounds this loop and the one below, since every loop is proved to end; no input has as many characters.
        for turn in 0..usize::MAX {
            self.read_run(line);
            let Some(c) = self.next(reader)? else {
                return Ok(false);
            };
            line.read(c);
            if c == b'\n' {
                return Ok(true);
            }
        }
        Ok(false)
    }

    // Reads the characters of the text that are left before a line's end, all in one call.
    fn read_run<T: Reading>(&mut self, line: &mut T)
        ensures { ReadsRun T.after self.old line.old self.new line.new }
    {
        let end = self.run_end();
        if self.at < end {
            line.read_all(&self.text[self.at..end]);
            self.at = end;
        }
    }

    // The place of the next line's end in the text, or of the text's end.
    fn run_end(&self) -> usize
        ensures { LongestRun self.now result }
    {
        let last = self.read.min(TEXT);
        let mut end = self.at;
        while end < last && self.text[end] != b'\n' {
            end += 1;
        }
        end
    }

    // The next character of the text, if one is left.
    fn take(&mut self) -> Option<u8>
        ensures left { Left self.old → Found self.new result (taken self.old.read self.old.text self.old.at) }
        ensures none { (Left self.old → ⊥) → Found self.new result (self.old, None) }
    {
        if self.at >= self.read || self.at >= TEXT {
            return None;
        }
        let c = self.text[self.at];
        self.at += 1;
        Some(c)
    }
}

// Reads an input line by line, and gives each line to `judge`, until the input ends. An error is the reader's or the judge's, and ends it too.
pub fn for_each_line<R: Read, T: Reading, F: FnMut(&T) -> io::Result<()>>(
    reader: &mut R,
    line: &mut T,
    mut judge: F,
) -> io::Result<()>
    requires { F.IsAlwaysCallable judge }
    ensures { OnOk result ((last : F) × JudgesLines F.FnMut T.anew T.after judge last) }
{
    let mut input = Input::open();
    for turn in 0..usize::MAX {
        if !input.line(reader, line)? {
            return Ok(());
        }
        judge(line)?;
    }
    Ok(())
}

// The same with a judge that may change what a line is read into, which begins anew before the next line.
pub fn for_each_line_mut<R: Read, T: Reading, F: FnMut(&mut T) -> io::Result<()>>(
    reader: &mut R,
    line: &mut T,
    mut judge: F,
) -> io::Result<()>
    requires { F.IsAlwaysCallable judge }
    ensures { OnOk result ((last : F) × ChangesLines F.FnMut T.anew T.after judge last) }
{
    let mut input = Input::open();
    for turn in 0..usize::MAX {
        let whole = input.line(reader, line)?;
        if !whole {
            return Ok(());
        }
        judge(line)?;
    }
    Ok(())
}
