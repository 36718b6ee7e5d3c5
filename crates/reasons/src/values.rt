// Reasons of single fields that their own bytes decide.
#![tactic(auto, using(crate::proofs::Laws::checks), unfolding(crate::specs::Reasons::required, crate::specs::Reasons::number, crate::specs::Reasons::if_number, crate::specs::Reasons::unbroken, crate::specs::Reasons::dashed_day, crate::specs::Reasons::plain_day, crate::specs::Reasons::month_and_year, crate::specs::Reasons::routing_number, crate::specs::Reasons::if_postal))]

ghost use Rattle.std.specs.Prelude.{◌≡◌, ◌≤◌};
ghost use Rattle.record.specs.Value.{Has, seen, held};
ghost use Rattle.record.specs.declared.Justification.TheVariants.{Fixed};
ghost use Rattle.reasons.specs.Reasons.{required, number, if_number, unbroken, dashed_day, plain_day, month_and_year, routing_number, if_postal};

use crate::Reason;
use record::{Field, Line};

// Required.
pub fn required(rec: &[u8], line: Line, field: Field) -> Result<(), Reason>
    requires { Has rec.now field }
    ensures { result ≡ required (held (seen line rec.now) field) }
{
    if record::field_blank(rec, line, field) {
        return Err(Reason::Blank);
    }
    Ok(())
}

// Required, digits.
pub fn number(rec: &[u8], line: Line, field: Field) -> Result<(), Reason>
    requires { Has rec.now field }
    ensures { result ≡ number (held (seen line rec.now) field) }
{
    if record::field_blank(rec, line, field) {
        return Err(Reason::Blank);
    }
    if record::field_digits(rec, line, field) {
        return Ok(());
    }
    Err(Reason::Shape)
}

// If filled, digits (field 96 of a payment's only DP).
pub fn if_number(rec: &[u8], line: Line, field: Field) -> Result<(), Reason>
    requires { Has rec.now field }
    ensures { result ≡ if_number (held (seen line rec.now) field) }
{
    if record::field_blank(rec, line, field) {
        return Ok(());
    }
    if record::field_digits(rec, line, field) {
        return Ok(());
    }
    Err(Reason::Shape)
}

// Required, no blank byte (field 7).
pub fn unbroken(rec: &[u8], line: Line, field: Field) -> Result<(), Reason>
    requires { Has rec.now field }
    ensures { result ≡ unbroken (held (seen line rec.now) field) }
{
    if record::field_blank(rec, line, field) {
        return Err(Reason::Blank);
    }
    if record::field_solid(rec, line, field) {
        return Ok(());
    }
    Err(Reason::Shape)
}

// A date CCYY-MM-DD.
pub fn dashed_day(rec: &[u8], line: Line, field: Field) -> Result<(), Reason>
    requires { Has rec.now field × (field.width ≡ 10) × (field.justification ≡ Fixed) }
    ensures { result ≡ dashed_day (held (seen line rec.now) field) }
{
    if record::field_blank(rec, line, field) {
        return Err(Reason::Blank);
    }
    if calendar::date_ccyy_mm_dd(rec, line, field) {
        return Ok(());
    }
    Err(Reason::NoDay)
}

// A date YYYYMMDD.
pub(crate) fn plain_day(rec: &[u8], line: Line, field: Field) -> Result<(), Reason>
    requires { Has rec.now field × (field.width ≡ 8) × (field.justification ≡ Fixed) }
    ensures { result ≡ plain_day (held (seen line rec.now) field) }
{
    if record::field_blank(rec, line, field) {
        return Err(Reason::Blank);
    }
    if calendar::date_yyyymmdd(rec, line, field) {
        return Ok(());
    }
    Err(Reason::NoDay)
}

// MMYY, four digits, month 01-12.
pub(crate) fn month_and_year(rec: &[u8], line: Line, field: Field) -> Result<(), Reason>
    requires { Has rec.now field × (field.width ≡ 4) }
    ensures { result ≡ month_and_year (held (seen line rec.now) field) }
{
    if record::field_blank(rec, line, field) {
        return Err(Reason::Blank);
    }
    if !record::field_digits(rec, line, field) {
        return Err(Reason::Shape);
    }
    if calendar::month_mmyy(rec, line, field) {
        return Ok(());
    }
    Err(Reason::NoDay)
}

// A routing number: what is right is asked for first, since it is what files have.
pub fn routing_number(rec: &[u8], line: Line, field: Field) -> Result<(), Reason>
    requires { Has rec.now field × (field.width ≡ 9) }
    ensures { result ≡ routing_number (held (seen line rec.now) field) }
{
    if record::routing::field_routing(rec, line, field) {
        return Ok(());
    }
    if record::field_blank(rec, line, field) {
        return Err(Reason::Blank);
    }
    if record::field_digits(rec, line, field) {
        return Err(Reason::Unlisted);
    }
    Err(Reason::Shape)
}

// If filled, digits; unfilled also when all zeros (field 36).
pub fn if_postal(rec: &[u8], line: Line, field: Field) -> Result<(), Reason>
    requires { Has rec.now field }
    ensures { result ≡ if_postal (held (seen line rec.now) field) }
{
    if record::field_blank(rec, line, field) {
        return Ok(());
    }
    if record::field_zeros(rec, line, field) {
        return Ok(());
    }
    if record::field_digits(rec, line, field) {
        return Ok(());
    }
    Err(Reason::Shape)
}
