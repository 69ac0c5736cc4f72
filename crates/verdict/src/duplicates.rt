// The search for two messages with the same certReqId (SPECIFICATION 8).
ghost use Rattle.std.specs.Prelude.{◌-◌, ◌%◌, ◌≤◌, ◌≡◌, true, false, length, option_map, take, drop};
ghost use Rattle.std.proofs.Math.Seq.{slice};
ghost use Rattle.verdict.specs.meaning.Duplicates.{signed};
ghost use Rattle.verdict.specs.meaning.Searches.{Searches};
ghost use Rattle.verdict.specs.steps.SearchAnswer.{ids, is_among, numbers_of, pair_at, pair_of};
ghost use Rattle.verdict.specs.steps.Collecting.{Accepted, Collected, id_in, Short};
ghost use Rattle.verdict.specs.steps.Sizes.{Tried};
ghost use Rattle.verdict.specs.steps.Results.{search_answer_of};

use crmf::messages::Position;
use der::element::reading;
use der::refusal::Refused;

// A message's certReqId, a signed whole number. It is never a position.
#[derive(Clone, Copy, PartialEq, Eq)]
pub struct ReqId(pub i64);

// The positions of two messages with the same certReqId.
#[derive(Clone, Copy)]
pub struct Pair {
    pub earlier: Position,
    pub later: Position,
}

// The numbers of messages for which there is room, one after another. MOST_MESSAGES is the most that a batch can have: each has at least 9 of
// its 65,535 octets.
const SMALL: usize = 32;

const MEDIUM: usize = 1024;

const LARGE: usize = 4096;

const MOST_MESSAGES: usize = 7281;

// How many certReqIds are compared at once.
const EIGHT: usize = 8;

// Searches the messages of a batch, read in an edition, for two with the same certReqId, and answers the first pair, if there is one. Refuses
// what `editions::reader::accept` refuses.
pub fn search(edition: usize, bytes: &[u8]) -> Result<Option<Pair>, Refused>
    ensures { let a = search_answer_of result in Searches edition bytes.now a.number a.place a.found a.earlier.0 a.later.0 }
{
    editions::reader::accept(edition, bytes)?;
    Ok(search_accepted(bytes))
}

// Searches an accepted batch with room for few messages, and with more room only if there are more messages. There is always enough at last.
// That the batch is accepted is no type: it is said of the bytes alone, and known from `search` on.
fn search_accepted(bytes: &[u8]) -> Option<Pair>
    requires { Accepted bytes.now }
    ensures { result ≡ option_map pair_at (pair_of (ids bytes.now)) }
{
    let found = with_room::<SMALL>(bytes)
        .or_else(|| with_room::<MEDIUM>(bytes))
        .or_else(|| with_room::<LARGE>(bytes))
        .or_else(|| with_room::<MOST_MESSAGES>(bytes));
    found.unwrap()
}

// Searches with room for so many messages, and answers nothing if there are more. It is never inlined: a batch of few messages would
// take the stack of every room together.
#[inline(never)]
fn with_room<const ROOM: usize>(bytes: &[u8]) -> Option<Option<Pair>>
    requires batch { Accepted bytes.now }
    requires room { ROOM ≤ MOST_MESSAGES }
    ensures { Tried ROOM bytes.now result }
{
    let mut room = [ReqId(0); ROOM];
    let count = collect(bytes, &mut room)?;
    Some(first_pair(&room[..count]))
}

// Collects the certReqIds of an accepted batch's messages by position, and answers how many there are; or nothing, if there is no room for all.
fn collect(bytes: &[u8], room: &mut [ReqId]) -> Option<usize>
    requires { Accepted bytes.now }
    ensures { Collected bytes.now room.new result }
{
    let end = bytes.len();
    let mut at = reading::read_at(bytes, 0, end).content;
    let mut count = 0;
    // Counted by hand: the loop steps over elements of any length, and `count` only says where the next certReqId goes.
    while at < end {
        if count == room.len() {
            return None;
        }
        let message = reading::read_at(bytes, at, end);
        room[count] = own_id(bytes, message.content, message.end);
        count += 1;
        at = message.end;
    }
    Some(count)
}

// The certReqId of the message whose inside is from `at` to `end`.
fn own_id(bytes: &[u8], at: usize, end: usize) -> ReqId
    requires { Short bytes.now (id_in bytes.now at end) }
    ensures { let x = id_in bytes.now at end in result.0 ≡ signed (slice x.content x.end bytes.now) }
{
    let request = reading::read_at(bytes, at, end);
    let id = reading::read_at(bytes, request.content, request.end);
    let from = id.content;
    let to = id.end;
    ReqId(signed(&bytes[from..to]))
}

// The signed whole number that an INTEGER's octets give.
fn signed(content: &[u8]) -> i64
    requires { (1 ≤ length content.now) × (length content.now ≤ 8) }
    ensures { result ≡ signed content.now }
{
    let mut number = if 0x80 <= content[0] { -1 } else { 0 };
    for octet in content {
        number = number * 256 + i64::from(*octet);
    }
    number
}

// The first pair of positions with the same certReqId: the one with the least later position, and then the least earlier one.
fn first_pair(ids: &[ReqId]) -> Option<Pair>
    ensures { result ≡ option_map pair_at (pair_of (numbers_of ids.now)) }
{
    let mut pair = None;
    // Document 01 names this form: two nested loops over positions, left by a label at the first equal pair.
    'pair: for (later, id) in ids.iter().enumerate() {
        for earlier in passed(*id, &ids[..later])..later {
            if ids[earlier] == *id {
                pair = Some(Pair {
                    earlier: Position(earlier),
                    later: Position(later),
                });
                break 'pair;
            }
        }
    }
    pair
}

// How many positions at the front are passed over: eight at once, as long as eight are left and none of them has this certReqId.
fn passed(id: ReqId, ids: &[ReqId]) -> usize
    ensures without { (result ≤ length ids.now) × (is_among id.0 (numbers_of (take result ids.now)) ≡ false) }
    ensures eights { result % EIGHT ≡ 0 }
    ensures most { EIGHT ≤ length ids.now - result → is_among id.0 (numbers_of (take EIGHT (drop result ids.now))) ≡ true }
{
    let mut rest = ids;
    while let Some((eight, more)) = rest.split_first_chunk::<EIGHT>() {
        if is_among(id, eight) {
            break;
        }
        rest = more;
    }
    ids.len() - rest.len()
}

// Whether one of eight certReqIds is this one.
fn is_among(id: ReqId, eight: &[ReqId; EIGHT]) -> bool
    ensures { result ≡ is_among id.0 (numbers_of eight.now) }
{
    eight.iter().fold(false, |any, other| any | (*other == id))
}
