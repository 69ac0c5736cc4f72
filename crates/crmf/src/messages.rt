// The messages of a batch, by their position.
ghost use Rattle.std.specs.Prelude.{◌≡◌, drop};
ghost use Rattle.crmf.specs.steps.Fields.{fields_between, Places};
ghost use Rattle.crmf.specs.steps.Positions.{first_place, MessageFound};

use der::bounds::LONGEST;
use der::element::reading::read_at;

// A message's position in its batch, from 0. It is never a certReqId.
#[repr(C)]
#[derive(Clone, Copy)]
pub struct Position(pub usize);

// The first byte of the message at a position of a batch, if it has one there. An input longer than LONGEST has none.
pub fn message_at(bytes: &[u8], position: Position) -> Option<usize>
    ensures { MessageFound bytes.now position.0 result }
{
    let end = bytes.len();
    if LONGEST < end {
        return None;
    }
    let batch = read_at(bytes, 0, end);
    let place = skip(bytes, batch.content, end, position.0);
    if end <= place {
        return None;
    }
    Some(place)
}

// The place of the element after the first `count` of those from `at` to `end`; the end if there is none.
// No Option: the end is where the steps come to when no element is left, and `message_at` asks that once.
fn skip(bytes: &[u8], at: usize, end: usize, count: usize) -> usize
    requires { Places bytes.now at end }
    ensures { result ≡ first_place end (drop count (fields_between bytes.now at end)) }
{
    let mut place = at;
    for passed in 0..count {
        if end <= place {
            return place;
        }
        place = read_at(bytes, place, end).end;
    }
    place
}
