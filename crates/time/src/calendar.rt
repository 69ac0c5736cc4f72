// The Gregorian calendar from the year 0 on.
// A date stays its numbers: each bound is asked where it is added up, and `moment_at` alone tests them.
ghost use Rattle.std.specs.Prelude.{◌+◌, ◌-◌, ◌*◌, ◌≤◌, ◌≡◌};
ghost use Rattle.time.specs.meaning.Calendar as calendar;
ghost use Rattle.time.specs.steps.Moments.{as_option};

// Whether a year is a leap year.
fn leap(year: usize) -> bool
    ensures { result ≡ calendar.leap year }
{
    (year % 4 == 0) & ((year % 100 != 0) | (year % 400 == 0))
}

// The days of each month of a common year, from January on.
const MONTH_DAYS: [u8; 12] = [31, 28, 31, 30, 31, 30, 31, 31, 30, 31, 30, 31];

// The days of a month of a year, if the number is a month's.
#[inline(always)]
pub(crate) fn days_in(year: usize, month: usize) -> Option<usize>
    ensures { result ≡ as_option (calendar.days_in year month) }
{
    let days = usize::from(*MONTH_DAYS.get(month.checked_sub(1)?)?);
    if leap(year) & (month == 2) {
        return Some(days + 1);
    }
    Some(days)
}

// The days of all years before a year: 365 each, and one more for each leap year.
fn days_before_year(year: usize) -> usize
    requires { year ≤ 9999 }
    ensures { result ≡ calendar.days_before_year year }
{
    365 * year + (year + 3) / 4 - (year + 99) / 100 + (year + 399) / 400
}

// The days before each month of a common year, January at 1.
const DAYS_BEFORE: [u16; 13] = [0, 0, 31, 59, 90, 120, 151, 181, 212, 243, 273, 304, 334];

// The days of all months before a month of a year.
fn days_before_month(year: usize, month: usize) -> usize
    requires { month ≤ 12 }
    ensures { result ≡ calendar.days_before_month year month }
{
    let days = usize::from(DAYS_BEFORE[month]);
    if leap(year) & (2 < month) {
        return days + 1;
    }
    days
}

// The days before a day of a year, from 0000-01-01 on.
#[inline(always)]
pub(crate) fn days_before(year: usize, month: usize, day: usize) -> usize
    requires { (year ≤ 9999) × (month ≤ 12) × (1 ≤ day) × (day ≤ 31) }
    ensures { (result ≡ calendar.days_before_year year + calendar.days_before_month year month + (day - 1)) × (result ≤ 3660000) }
{
    days_before_year(year) + days_before_month(year, month) + (day - 1)
}

// The seconds up to a time of day, after whole days.
pub(crate) fn seconds(days: usize, hour: usize, minute: usize, second: usize) -> usize
    requires { (days ≤ 3660000) × (hour ≤ 23) × (minute ≤ 59) × (second ≤ 59) }
    ensures { result ≡ ((days * 24 + hour) * 60 + minute) * 60 + second }
{
    ((days * 24 + hour) * 60 + minute) * 60 + second
}
