// How many seconds later a time of the second batch is than its counterpart in the first.
ghost use Rattle.std.specs.Prelude.{◌≤◌, ◌≡◌, pos, ◌-ℤ◌};
ghost use Rattle.compare.specs.meaning.Times.{is_time_kind, leaf_seconds};

use crmf::kinds;
use time::validity::shown_moment;

// The moment of the second of two leaves of a kind less that of the first, in seconds; 0 if they are no times. No Option: document 02 gives an entry
// the number 0 there (`leaf_seconds`).
pub(crate) fn seconds_later(kind: usize, first: &[u8], second: &[u8]) -> i64
    ensures { result ≡ leaf_seconds kind first.now second.now }
{
    if !is_time(kind) {
        return 0;
    }
    match (shown_moment(first), shown_moment(second)) {
        (Some(one), Some(other)) => less(other, one),
        _ => 0,
    }
}

// Whether a kind is that of a time.
#[tactic(auto, unfolding(crate::specs::meaning::Times::is_time_kind))]
fn is_time(kind: usize) -> bool
    ensures { result ≡ is_time_kind kind }
{
    matches!(kind, kinds::NOT_BEFORE | kinds::NOT_AFTER)
}

// A moment less another, in seconds. None is later than the last of the year 9999.
fn less(moment: usize, other: usize) -> i64
    requires { (moment ≤ 315_569_519_999) × (other ≤ 315_569_519_999) }
    ensures { result ≡ pos moment -ℤ pos other }
{
    moment as i64 - other as i64
}
