// Reads the rows of each batch in edition 1, or in edition 2 if edition 1 refuses it, and prints them. A line has octets alone, as `cases::case`
// says: the first two are how many numbers of the table are lent, and the batch follows. The answer is one of
//
//     the rows, one row a line: kind, first byte, whole length, parent's row, content's first byte
//     too short, the table unchanged
//     -                                 in neither edition's grammar
//
// and an empty line. One more line says so if a number of the table has changed that shouldn't.
#![tactic(auto)]

use cases::case::Case;
use cases::input::for_each_line;
use cases::table::{NUMBERS, is_untouched, prepare};
use crmf::recognise::read;
use crmf::rows::WIDTH;
use format::page::Page;
use std::io;

// The rows that the table holds.
const ROWS: usize = NUMBERS / WIDTH;

// The octets of the page on which an answer is written: no number of a batch's rows has more than five digits.
const PAGE: usize = 6 * NUMBERS + 100;

// Writes a table that was filled.
fn write_filled(page: &mut Page, table: &[usize; NUMBERS], count: usize) {
    let numbers = WIDTH * count.min(ROWS);
    page.rows(WIDTH, table, numbers);
    if !is_untouched(table, numbers) {
        page.text(b"other numbers changed\n");
    }
}

// Writes that a table was too short.
fn write_short(page: &mut Page, table: &[usize; NUMBERS]) {
    if is_untouched(table, 0) {
        page.text(b"too short, the table unchanged\n");
    } else {
        page.text(b"too short, the table changed\n");
    }
}

// Reads a batch in an edition with `numbers` numbers of the table lent, or all of them if it has fewer, and writes the answer; answers
// whether it is a batch of the edition.
fn fill(
    page: &mut Page,
    edition: usize,
    batch: &[u8],
    table: &mut [usize; NUMBERS],
    numbers: usize,
) -> bool {
    prepare(table);
    let lent = numbers.min(NUMBERS);
    let Some(count) = read(edition, batch, &mut table[..lent]) else {
        return false;
    };
    if lent / WIDTH < count {
        write_short(page, table);
    } else {
        write_filled(page, table, count);
    }
    true
}

// Reads a batch in the first edition that accepts it, with `numbers` numbers of a table lent, and writes the answer.
fn write_answer(page: &mut Page, batch: &[u8], numbers: usize) {
    let mut table = [0usize; NUMBERS];
    // 1 and 2 are the editions' numbers: this program stands beneath the crate that names them.
    if !fill(page, 1, batch, &mut table, numbers) && !fill(page, 2, batch, &mut table, numbers) {
        page.text(b"-\n");
    }
    page.character(b'\n');
}

// Judges a case; one that is too short to say how much is lent has no answer.
fn judge(rt: &impl Print, octets: &[u8], lines: &mut [u8; PAGE]) -> io::Result<()> {
    let [high, low, batch @ ..] = octets else {
        return Ok(());
    };
    let mut page = Page::new(lines);
    write_answer(&mut page, batch, *high as usize * 256 + *low as usize);
    rt.write_all(page.written())
}

fn main(rt: HostRuntime) -> io::Result<()> {
    let mut page = [0u8; PAGE];
    for_each_line(&mut rt.stdin(), &mut Case::start(), |case| {
        judge(&rt, case.octets(), &mut page)
    })
}
