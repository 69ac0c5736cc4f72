// UTCTime and GeneralizedTime by their content octets: the one check of times, which answers the moment.
ghost use Rattle.std.specs.Prelude.{◌+◌, ◌≤◌, ◌<◌, ◌≡◌, length};
ghost use Rattle.std.proofs.Math.Option.{bind};
ghost use Rattle.time.specs.meaning.Calendar.{moment};
ghost use Rattle.time.specs.meaning.Time as time;
ghost use Rattle.time.specs.steps.Moments.{as_option};

use crate::calendar;

// The first year that stands as GeneralizedTime.
const FIRST_GENERALIZED_YEAR: usize = 2050;

// The number that the two decimal digits at i make, if both are digits.
fn pair_at(content: &[u8], i: usize) -> Option<usize>
    requires { i + 1 < length content.now }
    ensures { result ≡ as_option (time.pair_at content.now i) }
{
    let tens = content[i];
    let ones = content[i + 1];
    if tens.is_ascii_digit() & ones.is_ascii_digit() {
        return Some(usize::from(tens - b'0') * 10 + usize::from(ones - b'0'));
    }
    None
}

// The moment of a year whose month, day, hour, minute and second are written from i on, with Z after them.
fn moment_at(year: usize, content: &[u8], i: usize) -> Option<usize>
    requires { (year ≤ 9999) × (i + 10 < length content.now) }
    ensures { result ≡ as_option (bind (time.date_at year content.now i) moment) }
{
    // All parts are read before the first is asked for, so that one test asks for all.
    let month = pair_at(content, i);
    let day = pair_at(content, i + 2);
    let hour = pair_at(content, i + 4);
    let minute = pair_at(content, i + 6);
    let second = pair_at(content, i + 8);
    let (month, day, hour, minute, second) = (month?, day?, hour?, minute?, second?);
    let is_day = (1 <= day) & (day <= calendar::days_in(year, month)?);
    if is_day & (hour <= 23) & (minute <= 59) & (second <= 59) & (content[i + 10] == b'Z') {
        let days = calendar::days_before(year, month, day);
        return Some(calendar::seconds(days, hour, minute, second));
    }
    None
}

// The full year that a two-digit year means: 50 to 99 are 19xx, others 20xx.
fn century(year: usize) -> usize
    requires { year ≤ 99 }
    ensures { (result ≡ time.century year) × (result ≤ 9999) }
{
    if 50 <= year {
        return 1900 + year;
    }
    2000 + year
}

// The moment that the content octets of a UTCTime show.
pub fn utc_time(content: &[u8]) -> Option<usize>
    ensures { result ≡ as_option (time.utc_moment content.now) }
{
    if content.len() != 13 {
        return None;
    }
    let year = pair_at(content, 0)?;
    moment_at(century(year), content, 2)
}

// The moment that the content octets of a GeneralizedTime show.
pub fn generalized_time(content: &[u8]) -> Option<usize>
    ensures { result ≡ as_option (time.generalized_moment content.now) }
{
    if content.len() != 15 {
        return None;
    }
    let year = pair_at(content, 0)? * 100 + pair_at(content, 2)?;
    if year < FIRST_GENERALIZED_YEAR {
        return None;
    }
    moment_at(year, content, 4)
}
