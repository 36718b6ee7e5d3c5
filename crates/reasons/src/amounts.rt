// Reasons of amounts (fields 24 and 100).
#![tactic(auto, using(crate::proofs::Laws::checks), unfolding(crate::specs::Reasons::positive, crate::specs::Reasons::check_amount, crate::specs::Reasons::amount_is))]

ghost use Rattle.std.specs.Prelude.{◌≡◌};
ghost use Rattle.record.specs.Value.{Has, seen, held};
ghost use Rattle.money.specs.Money.{worth, Whole};
ghost use Rattle.reasons.specs.Reasons.{positive, check_amount, amount_is};

use crate::Reason;
use money::Amount;
use record::{Field, Line};

const NOTHING: Amount = Amount { high: 0, low: 0 };

// The most that a check is written for.
const CHECK_LIMIT: Amount = Amount {
    high: 0,
    low: 9999999999,
};

// An amount above zero.
pub fn positive(rec: &[u8], line: Line, field: Field) -> Result<(), Reason>
    requires { Has rec.now field × (field.width ≡ 20) }
    ensures { result ≡ positive (held (seen line rec.now) field) }
{
    if record::field_blank(rec, line, field) {
        return Err(Reason::Blank);
    }
    if !record::field_digits(rec, line, field) {
        return Err(Reason::Shape);
    }
    if record::field_zeros(rec, line, field) {
        return Err(Reason::Range);
    }
    Ok(())
}

// An amount of at most 9,999,999,999 cents, and zero if the check is voided.
pub fn check_amount(rec: &[u8], line: Line, field: Field, voided: bool) -> Result<(), Reason>
    requires { Has rec.now field × (field.width ≡ 20) }
    ensures { result ≡ check_amount voided (held (seen line rec.now) field) }
{
    if record::field_blank(rec, line, field) {
        return Err(Reason::Blank);
    }
    if !record::field_digits(rec, line, field) {
        return Err(Reason::Shape);
    }
    let amount = money::field_amount(rec, line, field);
    if money::is_above(amount, CHECK_LIMIT) {
        return Err(Reason::Range);
    }
    if voided {
        if money::is_above(amount, NOTHING) {
            return Err(Reason::Range);
        }
        return Ok(());
    }
    Ok(())
}

// An amount that this sum must equal.
pub fn amount_is(rec: &[u8], line: Line, field: Field, sum: Amount) -> Result<(), Reason>
    requires { Has rec.now field × (field.width ≡ 20) × Whole sum }
    ensures { result ≡ amount_is (worth sum) (held (seen line rec.now) field) }
{
    if record::field_blank(rec, line, field) {
        return Err(Reason::Blank);
    }
    if !record::field_digits(rec, line, field) {
        return Err(Reason::Shape);
    }
    let amount = money::field_amount(rec, line, field);
    if money::is_equal(amount, sum) {
        return Ok(());
    }
    Err(Reason::Sum)
}
