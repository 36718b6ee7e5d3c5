// Today as the caller lends it, and the rules that need it (02 W4).
ghost use Rattle.std.specs.Prelude.{◌≡◌, ◌≤◌};
ghost use Rattle.calendar.specs.Clock.{lent_day, lendable, today_of, first_day, last_day, created, year_allowed, accountable, lies_in, issued};

use crate::{Day, Month, limits};
use record::{Field, Justification, Line};

// Today's eight bytes, and how they are taken: EBCDIC, whatever the file is.
const LENT: Field = Field {
    start: 1,
    width: 8,
    justification: Justification::Fixed,
};

const EBCDIC: Line = Line {
    number: 0,
    ascii: false,
};

// Eight digits of a real day are lent.
fn is_day(lent: &[u8]) -> bool
    ensures { result ≡ lent_day lent.now }
{
    lent.len() == 8 && crate::date_yyyymmdd(lent, EBCDIC, LENT)
}

// A real day is lent, or nothing.
pub fn is_lendable(lent: &[u8]) -> bool
    ensures { result ≡ lendable lent.now }
{
    lent.is_empty() || is_day(lent)
}

// Today, where it is lent.
pub fn read_today(lent: &[u8]) -> Option<Day>
    ensures { result ≡ today_of lent.now }
{
    if is_day(lent) {
        return Some(crate::day_of(lent, EBCDIC, LENT));
    }
    None
}

// The creation date is not after today (field 17).
pub fn is_created(today: Day, day: Day) -> bool
    ensures { result ≡ created today day }
{
    limits::ahead_at_most(0, limits::difference(day.number, today.number))
}

// The accounting year is not above today's, except January when today is in December.
fn is_year_allowed(today: Day, month: Month) -> bool
    ensures { result ≡ year_allowed today month }
{
    month.year <= today.year || (month.month == 1 && today.month == 12)
}

// A month's first day by its number. It and the next differ in the day alone, and specs/Clock.antt has a definition for each.
fn first_day(month: Month) -> u64
    requires { (1 ≤ month.year) × (month.year ≤ 9999) × (1 ≤ month.month) × (month.month ≤ 12) }
    ensures { result ≡ first_day month }
{
    crate::day_number(month.year, month.month, 1)
}

// A month's last day by its number.
fn last_day(month: Month) -> u64
    requires { (1 ≤ month.year) × (month.year ≤ 9999) × (1 ≤ month.month) × (month.month ≤ 12) }
    ensures { result ≡ last_day month }
{
    let days = crate::days_in(month.year, month.month);
    crate::day_number(month.year, month.month, days)
}

// The accounting month is not too far ahead and not too far back (field 20).
pub fn is_accountable(today: Day, month: Month) -> bool
    requires { (1 ≤ month.year) × (month.year ≤ 9999) × (1 ≤ month.month) × (month.month ≤ 12) }
    ensures { result ≡ accountable today month }
{
    limits::ahead_at_most(31, limits::difference(first_day(month), today.number))
        && limits::back_at_most(180, limits::difference(last_day(month), today.number))
        && is_year_allowed(today, month)
}

// The day lies in the month.
fn lies_in(month: Month, day: Day) -> bool
    ensures { result ≡ lies_in month day }
{
    day.year == month.year && day.month == month.month
}

// The issue date lies in the accounting month, and is neither too old nor too far ahead (field 59).
pub fn is_issued(today: Day, month: Month, day: Day) -> bool
    ensures { result ≡ issued today month day }
{
    let span = limits::difference(day.number, today.number);
    lies_in(month, day) && limits::back_at_most(180, span) && limits::ahead_at_most(30, span)
}
