// Dates in fields, by the Gregorian calendar (document 01, Date), and the rules that need today's (02 W4).
#![tactic(auto)]

pub mod clock;
mod limits;

ghost use Rattle.std.specs.Prelude.{◌≡◌, true, ◌-◌, ◌≤◌, take};
ghost use Rattle.record.specs.Value.{Has, seen, written, held};
ghost use Rattle.calendar.specs.Calendar.{leap, lengths, days_in, real_day, dashes, dashed_date, plain_date, month_year, days_of, day_number};
ghost use Rattle.calendar.specs.Clock.{day_in, month_in};

use record::{Field, Line};

// A real day: its year, its month, and its number, counted from 0001-01-01.
#[derive(Clone, Copy)]
pub struct Day {
    pub year: u64,
    pub month: u64,
    pub number: u64,
}

// A month of a year.
#[derive(Clone, Copy)]
pub struct Month {
    pub year: u64,
    pub month: u64,
}

// The difference of two days, with its sign: `difference`, `ahead_at_most` and `back_at_most` of specs/Clock.antt, and the theorems over them, are of it.
#[derive(Clone, Copy)]
pub enum Span {
    Ahead(u64),
    Back(u64),
}

fn is_leap(year: u64) -> bool
    ensures { result ≡ leap year }
{
    year % 4 == 0 && (year % 100 != 0 || year % 400 == 0)
}

// The days of a month, counted from 1.
fn days_in(year: u64, month: u64) -> u64
    ensures { result ≡ days_in year month }
{
    match month {
        2 => { if is_leap(year) { 29 } else { 28 } }
        4 | 6 | 9 | 11 => 30,
        1..=12 => 31,
        _ => 0,
    }
}

// There is such a day in the years 0001 to 9999.
fn is_real_day(year: u64, month: u64, day: u64) -> bool
    ensures { result ≡ real_day year month day }
{
    1 <= year && year <= 9999 && 1 <= day && day <= days_in(year, month)
}

// The field has the shape CCYY-MM-DD.
fn has_dashes(rec: &[u8], line: Line, field: Field) -> bool
    requires { Has rec.now field × (field.width ≡ 10) }
    ensures { result ≡ dashes (written (seen line rec.now) field) }
{
    record::written_digits(rec, line, field, 0, 4)
        && record::written_is(rec, line, field, 4, 0x60, 0x2D)
        && record::written_digits(rec, line, field, 5, 7)
        && record::written_is(rec, line, field, 7, 0x60, 0x2D)
        && record::written_digits(rec, line, field, 8, 10)
}

// The field is a date CCYY-MM-DD, as it stands: a date is never moved (02 W3).
pub fn date_ccyy_mm_dd(rec: &[u8], line: Line, field: Field) -> bool
    requires { Has rec.now field × (field.width ≡ 10) }
    ensures { result ≡ dashed_date (written (seen line rec.now) field) }
{
    if has_dashes(rec, line, field) {
        let year = record::written_number(rec, line, field, 0, 4);
        let month = record::written_number(rec, line, field, 5, 7);
        let day = record::written_number(rec, line, field, 8, 10);
        return is_real_day(year, month, day);
    }
    false
}

// The field is a date YYYYMMDD, as it stands.
pub fn date_yyyymmdd(rec: &[u8], line: Line, field: Field) -> bool
    requires { Has rec.now field × (field.width ≡ 8) }
    ensures { result ≡ plain_date (written (seen line rec.now) field) }
{
    if record::written_digits(rec, line, field, 0, 8) {
        let year = record::written_number(rec, line, field, 0, 4);
        let month = record::written_number(rec, line, field, 4, 6);
        let day = record::written_number(rec, line, field, 6, 8);
        return is_real_day(year, month, day);
    }
    false
}

// The field is a month and a year, MMYY, and the month is 01 to 12.
pub fn month_mmyy(rec: &[u8], line: Line, field: Field) -> bool
    requires { Has rec.now field × (field.width ≡ 4) }
    ensures { result ≡ month_year (held (seen line rec.now) field) }
{
    if record::field_digits(rec, line, field) {
        let month = record::part_number(rec, line, field, 0, 2);
        return 1 <= month && month <= 12;
    }
    false
}

// The days of the months before this one: first as if February had thirty.
fn days_before(year: u64, month: u64) -> u64
    requires { (1 ≤ month) × (month ≤ 12) }
    ensures { result ≡ days_of (take (month - 1) (lengths (leap year))) }
{
    let even = (367 * month - 362) / 12;
    if month <= 2 {
        return even;
    }
    if is_leap(year) {
        return even - 1;
    }
    even - 2
}

// The number of a day, counted from 0001-01-01.
fn day_number(year: u64, month: u64, day: u64) -> u64
    requires { (1 ≤ year) × (year ≤ 9999) × (1 ≤ month) × (month ≤ 12) × (day ≤ 31) }
    ensures { result ≡ day_number year month day }
{
    let past = year - 1;
    let leap_days = past / 4 + past / 400 - past / 100;
    365 * past + leap_days + days_before(year, month) + day
}

// The day of a field that is a date YYYYMMDD, as it stands.
pub fn day_of(rec: &[u8], line: Line, field: Field) -> Day
    requires { Has rec.now field × (field.width ≡ 8) × (plain_date (written (seen line rec.now) field) ≡ true) }
    ensures { result ≡ day_in (written (seen line rec.now) field) }
{
    let year = record::written_number(rec, line, field, 0, 4);
    let month = record::written_number(rec, line, field, 4, 6);
    let day = record::written_number(rec, line, field, 6, 8);
    let number = day_number(year, month, day);
    Day {
        year,
        month,
        number,
    }
}

// The month of a field that is MMYY, in the years 2000 to 2099; none of any other. A field that is blank, as in all batches but BC, is told
// first.
pub fn month_of(rec: &[u8], line: Line, field: Field) -> Option<Month>
    requires { Has rec.now field × (field.width ≡ 4) }
    ensures { result ≡ month_in (held (seen line rec.now) field) }
{
    if record::field_blank(rec, line, field) {
        return None;
    }
    if month_mmyy(rec, line, field) {
        let month = record::part_number(rec, line, field, 0, 2);
        let year = record::part_number(rec, line, field, 2, 4);
        return Some(Month {
            year: 2000 + year,
            month,
        });
    }
    None
}
