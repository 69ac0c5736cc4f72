// Reading a batch in an edition (SPECIFICATION 4 and 5): document 01's answer, and the rows in a lent table.
ghost use Rattle.std.specs.Prelude.{◌≤◌, ◌≡◌, Err, is_none, length};
ghost use Rattle.der.specs.meaning.Bounds.{longest};
ghost use Rattle.crmf.specs.steps.explain.Tally.{tally_of};
ghost use Rattle.editions.specs.meaning.Answers.{Answers};
ghost use Rattle.editions.specs.meaning.Reads.{Reads};
ghost use Rattle.editions.specs.steps.Reading.{eight_or_nine, batch_answer, answer};
ghost use Rattle.editions.specs.steps.OneWalk.{first_form, passed_answer, broken_answer, shown_answer};
ghost use Rattle.der.specs.steps.Refusal.{refusal_number};
ghost use Rattle.editions.specs.steps.Results.{answer_of, edition_number};

use crate::edition::Edition;
use crmf::explain::tally::Tally;
use der::refusal::{Refusal, Refused};

// Reads a batch in an edition and answers the count of its rows, with the rows in the table; or answers the refusal, and leaves the table as
// it was.
pub fn read(edition: usize, bytes: &[u8], table: &mut [usize]) -> Result<usize, Refused>
    ensures { let a = answer_of result in Reads edition bytes.now table.old a.number a.place a.count table.new }
{
    let known = Edition::try_from(edition)?;
    match crmf::recognise::read(edition, bytes, table) {
        Some(count) => shown(count, table.len()),
        None => exact(known, bytes),
    }
}

// The answer for a recognised batch with `count` rows and a table of `room` numbers, which holds the rows if there is room.
fn shown(count: usize, room: usize) -> Result<usize, Refused>
    ensures { answer_of result ≡ shown_answer count room }
{
    if room / crmf::rows::WIDTH < count {
        return Err(Refused {
            refusal: Refusal::NoRoom,
            place: 0,
        });
    }
    Ok(count)
}

// Judges a batch in an edition without a table. The answer is that of `read`, except that it never refuses for want of room.
pub fn accept(edition: usize, bytes: &[u8]) -> Result<usize, Refused>
    ensures { let a = answer_of result in Answers edition bytes.now a.number a.place a.count }
{
    let known = Edition::try_from(edition)?;
    match crmf::recognise::count(edition, bytes) {
        Some(count) => Ok(count),
        None => exact(known, bytes),
    }
}

// The answer with its place: the length is judged first, then the nest, then the grammar.
fn exact(edition: Edition, bytes: &[u8]) -> Result<usize, Refused>
    ensures { answer_of result ≡ answer (edition_number edition) bytes.now }
{
    if der::bounds::LONGEST < bytes.len() {
        return Err(Refused {
            refusal: Refusal::TooLong,
            place: 0,
        });
    }
    // By hand, and not by From: this is the one place that leaves a fault's detail out.
    let end = der::explain::explain(bytes, 0, bytes.len()).map_err(|fault| Refused {
        refusal: fault.refusal,
        place: fault.place,
    })?;
    if end < bytes.len() {
        return Err(Refused {
            refusal: Refusal::TrailingBytes,
            place: end,
        });
    }
    batch(edition, bytes)
}

// The answer for bytes that are one element, with nothing after it.
fn batch(edition: Edition, bytes: &[u8]) -> Result<usize, Refused>
    requires { length bytes.now ≤ longest }
    ensures { answer_of result ≡ batch_answer (edition_number edition) bytes.now }
{
    match crmf::explain::count(bytes) {
        Ok(tally) => passed(edition, tally),
        Err(found) => Err(broken(edition, found.place, found.tally)),
    }
}

// The answer if the walk that reads every form passes.
fn passed(edition: Edition, tally: Tally) -> Result<usize, Refused>
    ensures { answer_of result ≡ passed_answer (edition_number edition) (tally_of tally) }
{
    if let Some(place) = first_form(edition.opposite(), tally) {
        return Err(Refused {
            refusal: stop(first_form(edition, tally)),
            place,
        });
    }
    if let Some(long) = tally.long {
        return Err(Refused {
            refusal: Refusal::LongCertReqId,
            place: long.place,
        });
    }
    Ok(tally.count)
}

// The refusal if the walk passes but has met a form of the opposite edition alone. It depends on whether a form of this edition alone was met
// too: `own` is the place of its first.
fn stop(own: Option<usize>) -> Refusal
    ensures { refusal_number result ≡ eight_or_nine (is_none own) }
{
    match own {
        None => Refusal::OtherEdition,
        Some(_) => Refusal::NotInGrammar,
    }
}

// The refusal if the walk that reads every form breaks at a place. A form that the edition doesn't read may come before it.
fn broken(edition: Edition, place: usize, tally: Tally) -> Refused
    ensures { answer_of (Err result) ≡ broken_answer (edition_number edition) place (tally_of tally) }
{
    Refused {
        refusal: Refusal::NotInGrammar,
        place: first_form(edition.opposite(), tally).unwrap_or(place),
    }
}

// The place of the first form of one edition alone that the tally has, if any.
fn first_form(edition: Edition, tally: Tally) -> Option<usize>
    ensures { result ≡ first_form (edition_number edition) (tally_of tally) }
{
    let first = match edition {
        Edition::Rfc2511 => tally.one,
        Edition::Rfc4211 => tally.two,
    };
    first.map(|form| form.place)
}
