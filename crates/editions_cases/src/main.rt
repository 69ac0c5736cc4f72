// Reads the batch of each case of its input in an edition, or in both, and prints the answer and the rows. A case is a line
//
//     EDITION/NUMBERS:OCTETS
//
// as the crate `lines` says, and has no list: the room of one is the table, which is prepared for each reading. If no edition is named, the batch
// is read in edition 1 and then in edition 2. NUMBERS numbers of the table are lent, and without `/NUMBERS` all of them. The answer is one of
//
//     0 COUNT         accepted; below it a line for each row, if there are at most 60: kind, first byte, whole length, parent's row, content's
//                     first byte
//     NUMBER@PLACE    refused
//
// `, accept` and the answer of `accept` follow if that is another, and `, changed` if a number of the table has changed that shouldn't: any at a
// refusal, and one after the rows at an acceptance.
#![tactic(auto)]

use cases::input::for_each_line_mut;
use cases::table::{NUMBERS, is_untouched, prepare};
use crmf::rows::WIDTH;
use der::refusal::Refused;
use editions::edition::{RFC2511, RFC4211};
use editions::reader::{accept, read};
use format::page::Page;
use lines::line::Line;
use std::io;

// The most rows that are printed.
const SHOWN: usize = 60;

// The rows that the table holds.
const ROWS: usize = NUMBERS / WIDTH;

// The octets of the page on which an answer and its rows are written.
const PAGE: usize = 8192;

// Writes what was answered, and how `accept` answers if that is another.
fn write_answers(page: &mut Page, found: Result<usize, Refused>, accepted: Result<usize, Refused>) {
    page.outcome(found);
    if found != accepted {
        page.text(b", accept ");
        page.outcome(accepted);
    }
}

// Writes whether the table has changed after its rows, and the rows.
fn write_table(page: &mut Page, table: &[usize; NUMBERS], count: usize) {
    if count > ROWS || !is_untouched(table, WIDTH * count) {
        page.text(b", changed");
    }
    page.character(b'\n');
    if count <= SHOWN {
        page.rows(WIDTH, table, WIDTH * count);
    }
}

// Judges a line in one edition, with as many numbers of the table lent as the line says, or all of them.
fn judge(page: &mut Page, edition: usize, line: &mut Line) {
    prepare(&mut line.list);
    let lent = line.heading.number.unwrap_or(NUMBERS).min(NUMBERS);
    let table = &mut line.list[..];
    let found = read(edition, line.case.octets(), &mut table[..lent]);
    write_answers(page, found, accept(edition, line.octets()));
    write_table(page, &line.list, found.unwrap_or(0));
}

// Judges a line in the edition that it names, or in both.
fn judge_line(rt: &impl Print, line: &mut Line, octets: &mut [u8; PAGE]) -> io::Result<()> {
    let heading = line.heading;
    heading.in_editions(RFC2511, RFC4211, |edition| {
        let mut page = Page::new(octets);
        judge(&mut page, edition, line);
        rt.write_all(page.written())
    })
}

fn main(rt: HostRuntime) -> io::Result<()> {
    let mut page = [0u8; PAGE];
    for_each_line_mut(&mut rt.stdin(), &mut Line::start(), |line| {
        judge_line(&rt, line, &mut page)
    })
}
