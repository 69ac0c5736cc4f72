// Judges the nest of elements of each case that it reads, and prints one line a case. A line has octets alone, as `cases::case` says. The
// answer is one of
//
//     0 END                  no fault, and the place after the first element
//     NUMBER@PLACE DETAIL    document 01's number and place of the fault, and the rule's detail
#![tactic(auto)]

use cases::case::Case;
use cases::input::for_each_line;
use der::explain::Fault;
use format::page::Page;
use std::io;

// The octets of the page on which a line is written.
const PAGE: usize = 256;

// Writes an answer of the walk.
fn write_answer(page: &mut Page, explained: Result<usize, Fault>) {
    match explained {
        Ok(end) => {
            page.text(b"0 ");
            page.number(end);
        }
        Err(fault) => page.fault(fault.refusal.number(), fault.place, fault.detail),
    }
}

// Judges a case.
fn judge(rt: &impl Print, bytes: &[u8], octets: &mut [u8; PAGE]) -> io::Result<()> {
    let mut page = Page::new(octets);
    write_answer(&mut page, der::explain::explain(bytes, 0, bytes.len()));
    page.character(b'\n');
    rt.write_all(page.written())
}

fn main(rt: HostRuntime) -> io::Result<()> {
    let mut page = [0u8; PAGE];
    for_each_line(&mut rt.stdin(), &mut Case::start(), |case| {
        judge(&rt, case.octets(), &mut page)
    })
}
