// Writes the draft of each case of its input in an edition, or in both, and prints the answer. A case is a line
//
//     EDITION/ROOM=DRAFT:OCTETS
//
// as the crate `lines` says; the octets are the slice. If no edition is named, the draft is written in edition 1 and then in edition 2.
// ROOM octets of the output are lent, and without `/ROOM` all of them. Without `=DRAFT` the octets are read in the edition, and the rows
// shown are the draft. The answer is one of
//
//     0 LENGTH SUM    written; the sum is the batch's Adler-32 (RFC 1950)
//     NUMBER@PLACE    refused: by writing, or by the reading of a line without a draft
//
// `, changed` follows if an octet of the output has changed that shouldn't: any at a refusal, and one after the batch at an acceptance.
#![tactic(auto)]

use cases::case::octets;
use cases::input::for_each_line_mut;
use cases::table::NUMBERS;
use crmf::rows::WIDTH;
use editions::edition::{RFC2511, RFC4211};
use editions::reader::read;
use format::page::Page;
use lines::line::Line;
use std::io;
use writer::writer::write;

// The rows that a draft can have.
const ROWS: usize = NUMBERS / WIDTH;

// The octets of the output.
const OUTPUT: usize = 70000;

// The octets of the page on which a line is written.
const PAGE: usize = 256;

// The modulus of Adler-32 (RFC 1950).
const MODULUS: usize = 65521;

// What the output holds at a place beforehand.
fn before(place: usize) -> u8 {
    (place % 251) as u8
}

// Fills the output with what it holds beforehand. Apart from `cases::table`, which does the same for its numbers: each of the two functions is
// one chain of the library's, and one for both types would take a closure and a law of `==` with it.
fn prepare(output: &mut [u8; OUTPUT]) {
    for (i, octet) in output.iter_mut().enumerate() {
        *octet = before(i);
    }
}

// Whether the output's octets from a place on are as they were beforehand.
fn is_untouched(output: &[u8; OUTPUT], from: usize) -> bool {
    (from..OUTPUT).all(|i| output[i] == before(i))
}

// The sum of two numbers by the modulus.
fn plus(a: usize, b: usize) -> usize {
    (a % MODULUS + b % MODULUS) % MODULUS
}

// The Adler-32 sum of octets.
fn sum(octets: &[u8]) -> usize {
    let mut a = 1;
    let mut b = 0;
    for &octet in octets {
        a = plus(a, octet as usize);
        b = plus(b, a);
    }
    b % MODULUS * 65536 + a % MODULUS
}

// Judges a draft in one edition, with as many octets of the output lent as the line says, or all of them.
fn judge_draft(
    page: &mut Page,
    edition: usize,
    draft: &[usize],
    line: &Line,
    output: &mut [u8; OUTPUT],
) {
    prepare(output);
    let lent = line.heading.number.unwrap_or(OUTPUT).min(OUTPUT);
    let written = write(edition, draft, line.octets(), &mut output[..lent]);
    page.outcome(written);
    if let Ok(length) = written {
        page.character(b' ');
        page.number(sum(octets(output, length)));
    }
    if !is_untouched(output, written.unwrap_or(0)) {
        page.text(b", changed");
    }
}

// Judges a line in one edition: its draft, or the rows that a reading of its octets shows, unless they are refused. The rows are written where
// the draft would be.
fn judge(page: &mut Page, edition: usize, line: &mut Line, output: &mut [u8; OUTPUT]) {
    if line.heading.listed {
        let drafted: &Line = line;
        return judge_draft(page, edition, drafted.numbers(), drafted, output);
    }
    let rows = &mut line.list[..];
    let found = read(edition, line.case.octets(), rows);
    let Ok(count) = found else {
        return page.outcome(found);
    };
    let shown: &Line = line;
    let numbers = WIDTH * count.min(ROWS);
    judge_draft(page, edition, &shown.list[..numbers], shown, output);
}

// Judges a line in the edition that it names, or in both.
fn judge_line(
    rt: &impl Print,
    line: &mut Line,
    output: &mut [u8; OUTPUT],
    octets: &mut [u8; PAGE],
) -> io::Result<()> {
    let heading = line.heading;
    heading.in_editions(RFC2511, RFC4211, |edition| {
        let mut page = Page::new(octets);
        judge(&mut page, edition, line, output);
        page.character(b'\n');
        rt.write_all(page.written())
    })
}

fn main(rt: HostRuntime) -> io::Result<()> {
    let mut output = [0u8; OUTPUT];
    let mut page = [0u8; PAGE];
    for_each_line_mut(&mut rt.stdin(), &mut Line::start(), |line| {
        judge_line(&rt, line, &mut output, &mut page)
    })
}
