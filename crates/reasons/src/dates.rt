// Reasons of dates that are held against today (02 W4). `Time` is the last reason of its field, and with nothing lent it is never drawn.
#![tactic(auto, using(crate::proofs::Times::dates), unfolding(crate::specs::Reasons::creation_day, crate::specs::Reasons::accounting_month, crate::specs::Reasons::issue_day, crate::specs::Reasons::timely))]

ghost use Rattle.std.specs.Prelude.{◌≡◌, true, Err};
ghost use Rattle.record.specs.Value.{Has, seen, held};
ghost use Rattle.record.specs.Choice.{choose};
ghost use Rattle.record.specs.declared.Justification.TheVariants.{Fixed};
ghost use Rattle.calendar.specs.Calendar.{plain_date, month_year};
ghost use Rattle.calendar.specs.Clock.{day_in, month_in, created, accountable, issued};
ghost use Rattle.reasons.specs.declared.Reason.TheVariants.{Time};
ghost use Rattle.reasons.specs.Findings.{sound};
ghost use Rattle.reasons.specs.Reasons.{in_month, creation_day, accounting_month, issue_day};

use crate::{Reason, values};
use calendar::{Day, Month, clock};
use record::{Field, Line};

// Refused where a date YYYYMMDD is after today.
fn creation_reason(rec: &[u8], line: Line, field: Field, today: Day) -> Result<(), Reason>
    requires { Has rec.now field × (field.width ≡ 8) × (field.justification ≡ Fixed) × (plain_date (held (seen line rec.now) field) ≡ true) }
    ensures { result ≡ choose (created today (day_in (held (seen line rec.now) field))) sound (Err Time) }
{
    let day = calendar::day_of(rec, line, field);
    if clock::is_created(today, day) {
        return Ok(());
    }
    Err(Reason::Time)
}

// A date YYYYMMDD that is not after today (field 17).
pub fn creation_day(rec: &[u8], line: Line, field: Field, today: Option<Day>) -> Result<(), Reason>
    requires { Has rec.now field × (field.width ≡ 8) × (field.justification ≡ Fixed) }
    ensures { result ≡ creation_day today (held (seen line rec.now) field) }
{
    values::plain_day(rec, line, field)?;
    match today {
        None => Ok(()),
        Some(day) => creation_reason(rec, line, field, day),
    }
}

// Refused where a month MMYY is too far from today.
fn month_reason(rec: &[u8], line: Line, field: Field, today: Day) -> Result<(), Reason>
    requires { Has rec.now field × (field.width ≡ 4) × (month_year (held (seen line rec.now) field) ≡ true) }
    ensures { result ≡ choose (in_month (accountable today) (month_in (held (seen line rec.now) field))) sound (Err Time) }
{
    let Some(month) = calendar::month_of(rec, line, field) else {
        return Err(Reason::Time);
    };
    if clock::is_accountable(today, month) {
        return Ok(());
    }
    Err(Reason::Time)
}

// A month MMYY that is neither too far ahead nor too far back (field 20).
pub fn accounting_month(
    rec: &[u8],
    line: Line,
    field: Field,
    today: Option<Day>,
) -> Result<(), Reason>
    requires { Has rec.now field × (field.width ≡ 4) }
    ensures { result ≡ accounting_month today (held (seen line rec.now) field) }
{
    values::month_and_year(rec, line, field)?;
    match today {
        None => Ok(()),
        Some(day) => month_reason(rec, line, field, day),
    }
}

// Refused where a date YYYYMMDD is outside the month, too old or too far ahead.
fn issue_reason(
    rec: &[u8],
    line: Line,
    field: Field,
    today: Day,
    month: Option<Month>,
) -> Result<(), Reason>
    requires { Has rec.now field × (field.width ≡ 8) × (field.justification ≡ Fixed) × (plain_date (held (seen line rec.now) field) ≡ true) }
    ensures { result ≡ choose (in_month (λ m. issued today m (day_in (held (seen line rec.now) field))) month) sound (Err Time) }
{
    let Some(month) = month else {
        return Err(Reason::Time);
    };
    let day = calendar::day_of(rec, line, field);
    if clock::is_issued(today, month, day) {
        return Ok(());
    }
    Err(Reason::Time)
}

// A date YYYYMMDD in the accounting month, neither too old nor too far ahead (field 59).
pub fn issue_day(
    rec: &[u8],
    line: Line,
    field: Field,
    today: Option<Day>,
    month: Option<Month>,
) -> Result<(), Reason>
    requires { Has rec.now field × (field.width ≡ 8) × (field.justification ≡ Fixed) }
    ensures { result ≡ issue_day today month (held (seen line rec.now) field) }
{
    values::plain_day(rec, line, field)?;
    match today {
        None => Ok(()),
        Some(day) => issue_reason(rec, line, field, day, month),
    }
}
