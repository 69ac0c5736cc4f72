// Walks the batch of each case that it reads, with the forms of both editions readable, and prints one line a case. A line has octets
// alone, as `cases::case` says. The answer is one of
//
//     0 COUNT ONE TWO           in the grammar, and the count of rows
//     8@PLACE DETAIL ONE TWO    the place of the break, and request A9's detail
//
// ONE and TWO are the first form of edition 1 alone and of edition 2 alone that was met (before the break): Dn@PLACE, with the
// difference's number; or `-` for none.
#![tactic(auto)]

use cases::case::Case;
use cases::input::for_each_line;
use crmf::explain::Break;
use crmf::explain::first::Difference;
use crmf::explain::tally::Tally;
use der::refusal::Refusal;
use format::page::Page;
use std::io;

// The octets of the page on which a line is written.
const PAGE: usize = 256;

// Writes the first form of one edition alone, if any was met.
fn write_form(page: &mut Page, first: Option<Difference>) {
    let Some(form) = first else {
        return page.text(b" -");
    };
    page.text(b" D");
    page.refusal(form.number, form.place);
}

// Writes the forms that were met, and ends the line.
fn write_forms(page: &mut Page, tally: Tally) {
    write_form(page, tally.one);
    write_form(page, tally.two);
    page.character(b'\n');
}

// Writes an answer of the walk.
fn write_answer(page: &mut Page, counted: Result<Tally, Break>) {
    match counted {
        Ok(tally) => {
            page.text(b"0 ");
            page.number(tally.count);
            write_forms(page, tally);
        }
        Err(first) => {
            page.fault(Refusal::NotInGrammar.number(), first.place, first.detail);
            write_forms(page, first.tally);
        }
    }
}

// Judges a case.
fn judge(rt: &impl Print, batch: &[u8], octets: &mut [u8; PAGE]) -> io::Result<()> {
    let mut page = Page::new(octets);
    write_answer(&mut page, crmf::explain::count(batch));
    rt.write_all(page.written())
}

fn main(rt: HostRuntime) -> io::Result<()> {
    let mut page = [0u8; PAGE];
    for_each_line(&mut rt.stdin(), &mut Case::start(), |case| {
        judge(&rt, case.octets(), &mut page)
    })
}
