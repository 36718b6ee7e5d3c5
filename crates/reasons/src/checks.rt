// Reasons of numbers that are held against others: check symbols, serial numbers, counts, and numbers that repeat.
#![tactic(auto, using(crate::proofs::Laws::checks), unfolding(crate::specs::Reasons::check_symbol, crate::specs::Reasons::number_is, crate::specs::Reasons::unrepeated, crate::specs::Reasons::composed))]

ghost use Rattle.std.specs.Prelude.{◌≡◌, length, get_or, ◌+◌, ◌-◌, ◌≤◌, ◌<◌};
ghost use Rattle.record.specs.Value.{Has, seen, held};
ghost use Rattle.record.specs.Tests.{alike};
ghost use Rattle.reasons.specs.Reasons.{check_symbol, number_is, unrepeated, symbol_and_serial, composed};

use crate::Reason;
use record::{Field, Line};

// A check symbol from 1000 to 9998 (field 18).
pub fn check_symbol(rec: &[u8], line: Line, field: Field) -> Result<(), Reason>
    requires { Has rec.now field × (field.width ≤ 18) }
    ensures { result ≡ check_symbol (held (seen line rec.now) field) }
{
    if record::field_blank(rec, line, field) {
        return Err(Reason::Blank);
    }
    if !record::field_digits(rec, line, field) {
        return Err(Reason::Shape);
    }
    let symbol = record::field_number(rec, line, field);
    if symbol < 1000 {
        return Err(Reason::Range);
    }
    if symbol <= 9998 {
        return Ok(());
    }
    Err(Reason::Range)
}

// A number that this one must equal, and the reason where it does not (fields 58 and 99).
pub fn number_is(
    rec: &[u8],
    line: Line,
    field: Field,
    wanted: u64,
    reason: Reason,
) -> Result<(), Reason>
    requires { Has rec.now field × (field.width ≤ 18) }
    ensures { result ≡ number_is reason wanted (held (seen line rec.now) field) }
{
    if record::field_blank(rec, line, field) {
        return Err(Reason::Blank);
    }
    if !record::field_digits(rec, line, field) {
        return Err(Reason::Shape);
    }
    if record::field_number(rec, line, field) == wanted {
        return Ok(());
    }
    Err(reason)
}

// Required, and repeats no earlier one (fields 6 and 23).
pub fn unrepeated(rec: &[u8], line: Line, field: Field, repeats: bool) -> Result<(), Reason>
    requires { Has rec.now field }
    ensures { result ≡ unrepeated repeats (held (seen line rec.now) field) }
{
    if record::field_blank(rec, line, field) {
        return Err(Reason::Blank);
    }
    if repeats {
        return Err(Reason::Repeated);
    }
    Ok(())
}

// A symbol, a serial number and blanks.
fn symbol_and_serial(symbol: [u8; 4], serial: [u8; 8]) -> [u8; 20]
    ensures { result ≡ symbol_and_serial symbol serial 8 }
{
    let mut number = [0x40; 20];
    number[..4].copy_from_slice(&symbol);
    number[4..12].copy_from_slice(&serial);
    number
}

// The field holds the symbol, what the other field holds, and blanks. Both are copied, so that each is translated once.
fn holds_composed(rec: &[u8], line: Line, field: Field, serial: Field, symbol: [u8; 4]) -> bool
    requires { Has rec.now field × Has rec.now serial × (serial.width ≡ 8) × (12 ≤ field.width) × (field.width ≤ 20) }
    ensures { result ≡ alike (held (seen line rec.now) field) (symbol_and_serial symbol (held (seen line rec.now) serial) (field.width - 12)) }
{
    let width = field.width;
    let wanted = symbol_and_serial(symbol, record::field_array(rec, line, serial));
    let mut copy = [0u8; 20];
    let own = &mut copy[..width];
    record::copy_field(rec, line, field, own);
    own[..] == wanted[..width]
}

// Required, repeats no earlier one, and is the symbol, the serial number and blanks (fields 6 and 23 in check batches).
pub fn composed(
    rec: &[u8],
    line: Line,
    field: Field,
    serial: Field,
    symbol: [u8; 4],
    repeats: bool,
) -> Result<(), Reason>
    requires { Has rec.now field × Has rec.now serial × (serial.width ≡ 8) × (12 ≤ field.width) × (field.width ≤ 20) }
    ensures { result ≡ composed repeats symbol (held (seen line rec.now) serial) (field.width - 12) (held (seen line rec.now) field) }
{
    if record::field_blank(rec, line, field) {
        return Err(Reason::Blank);
    }
    if repeats {
        return Err(Reason::Repeated);
    }
    if holds_composed(rec, line, field, serial, symbol) {
        return Ok(());
    }
    Err(Reason::Unlike)
}
