// Judges the batch of each case of its input in an edition, or in both: the verdict on the message at a position, and the search for
// duplicates. A case is a line
//
//     EDITION/POSITION:OCTETS
//
// as the crate `lines` says, and has no list. If no edition is named, the batch is judged in edition 1 and then in edition 2. Without
// `/POSITION` the message at position 0 is judged. The answer is
//
//     NUMBER PLACE VERDICT FROM LENGTH / NUMBER PLACE FOUND EARLIER LATER
//
// followed by `, part of N` if the signed part that is handed back has another length.
#![tactic(auto)]

use cases::input::for_each_line;
use crmf::messages::Position;
use der::refusal::Refused;
use editions::edition::{RFC2511, RFC4211};
use format::page::Page;
use lines::line::Line;
use std::io;
use verdict::duplicates::{Pair, search};
use verdict::verdict::{Extent, Verdict, signed_part};

// The octets of the page on which a line is written.
const PAGE: usize = 256;

// The part of a verdict that has none.
const NO_PART: Extent = Extent { from: 0, length: 0 };

// Writes a number after a space.
fn write_next(page: &mut Page, n: usize) {
    page.character(b' ');
    page.number(n);
}

// Writes a refusal, with 0 for each of the three numbers that an answer has.
fn write_refusal(page: &mut Page, refused: Refused) {
    page.number(refused.refusal.number());
    write_next(page, refused.place);
    page.text(b" 0 0 0");
}

// Writes a verdict.
fn write_verdict(page: &mut Page, found: Verdict) {
    let part = found.part.unwrap_or(NO_PART);
    page.text(b"0 0");
    write_next(page, found.verdict.number());
    write_next(page, part.from);
    write_next(page, part.length);
}

// Writes an answer of the search for duplicates.
fn write_pair(page: &mut Page, found: Option<Pair>) {
    match found {
        Some(pair) => {
            page.text(b"0 0 1");
            write_next(page, pair.earlier.0);
            write_next(page, pair.later.0);
        }
        None => page.text(b"0 0 0 0 0"),
    }
}

// Judges a batch in one edition: writes the answers, and the length of the part that was handed back if it is another.
fn judge(page: &mut Page, edition: usize, bytes: &[u8], position: Position) {
    let found = verdict::verdict::judge(edition, bytes, position);
    match found {
        Ok(found) => write_verdict(page, found),
        Err(refused) => write_refusal(page, refused),
    }
    page.text(b" / ");
    match search(edition, bytes) {
        Ok(pair) => write_pair(page, pair),
        Err(refused) => write_refusal(page, refused),
    }
    let length = found.map_or(0, |found| found.part.unwrap_or(NO_PART).length);
    let part = signed_part(edition, bytes, position).len();
    if part != length {
        page.text(b", part of");
        write_next(page, part);
    }
    page.character(b'\n');
}

// Judges a line in the edition that it names, or in both.
fn judge_line(rt: &impl Print, line: &Line, octets: &mut [u8; PAGE]) -> io::Result<()> {
    line.heading.in_editions(RFC2511, RFC4211, |edition| {
        let mut page = Page::new(octets);
        judge(
            &mut page,
            edition,
            line.octets(),
            Position(line.heading.number.unwrap_or(0)),
        );
        rt.write_all(page.written())
    })
}

fn main(rt: HostRuntime) -> io::Result<()> {
    let mut page = [0u8; PAGE];
    for_each_line(&mut rt.stdin(), &mut Line::start(), |line| {
        judge_line(&rt, line, &mut page)
    })
}
