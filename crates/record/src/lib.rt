// Records of document 004, read in one way: a field leaf finds where a field's value stands, and a leaf of `place` reads it there.
#![tactic(auto)]

pub mod codes;
pub mod layout;
mod moved;
mod place;
pub mod routing;

ghost use Rattle.std.specs.Prelude.{◌≡◌, true, false, [], ◌∷◌, ◌-◌, ◌<◌, ◌≤◌, eqb, length, get_or, MatchOption};
ghost use Rattle.std.proofs.Math.Seq.{slice};
ghost use Rattle.page.specs.CodePage.{twins};
ghost use Rattle.record.specs.Choice.{◌and◌};
ghost use Rattle.record.specs.Moved.{readable};
ghost use Rattle.record.specs.Value.{Has, seen, written, held};
ghost use Rattle.record.specs.Tests.{blank, zeros, digits, solid, valid, alike};
ghost use Rattle.record.specs.Numeral.{numeral};
ghost use Rattle.record.specs.Ordering.{order};

use moved::stands;
use std::cmp::Ordering;

// How a field's justification is corrected (02 W3, 004 section 1.7).
#[derive(Clone, Copy, PartialEq, Eq)]
pub enum Justification {
    Text,
    Number,
    Right,
    Fixed,
}

// Where document 004 puts a field: its start position, counted from 1, and its length; and how its justification is corrected.
#[derive(Clone, Copy, PartialEq, Eq)]
pub struct Field {
    pub start: usize,
    pub width: usize,
    pub justification: Justification,
}

// What is known of a record beside its bytes: its number in the file, which a finding names, and whether the file is ASCII.
#[derive(Clone, Copy)]
pub struct Line {
    pub number: usize,
    pub ascii: bool,
}

// The field is all blank. Moving does not change that.
pub fn field_blank(rec: &[u8], line: Line, field: Field) -> bool
    requires { Has rec.now field }
    ensures { result ≡ blank (held (seen line rec.now) field) }
{
    let place = place::locate(rec, line, field);
    place::is_only(rec, place, 0x40, 0x20)
}

// The field is all zeros.
pub fn field_zeros(rec: &[u8], line: Line, field: Field) -> bool
    requires { Has rec.now field }
    ensures { result ≡ zeros (held (seen line rec.now) field) }
{
    let place = place::locate(rec, line, field);
    if stands(rec, place, field.justification) {
        return place::is_only(rec, place, 0xF0, 0x30);
    }
    match moved::deciding(rec, place, field.justification) {
        Some(kept) => place::is_only(rec, kept, 0xF0, 0x30),
        None => false,
    }
}

// The field is all digits. Bytes that are digits stand where they belong.
pub fn field_digits(rec: &[u8], line: Line, field: Field) -> bool
    requires { Has rec.now field }
    ensures { result ≡ digits (held (seen line rec.now) field) }
{
    let place = place::locate(rec, line, field);
    if place::are_digits(rec, place, 0, field.width) {
        return true;
    }
    match moved::deciding(rec, place, field.justification) {
        Some(kept) => place::are_digits(rec, kept, 0, kept.width),
        None => false,
    }
}

// No byte of the field is blank. Bytes of which none is stand where they belong.
pub fn field_solid(rec: &[u8], line: Line, field: Field) -> bool
    requires { Has rec.now field }
    ensures { result ≡ solid (held (seen line rec.now) field) }
{
    let place = place::locate(rec, line, field);
    if place::is_solid(rec, place) {
        return true;
    }
    match moved::deciding(rec, place, field.justification) {
        Some(kept) => place::is_solid(rec, kept),
        None => false,
    }
}

// The field holds this text, byte for byte; ASCII files send it as the second.
#[inline(always)]
pub fn field_is<'a>(rec: &[u8], line: Line, field: Field, text: &'a [u8], ascii: &'a [u8]) -> bool
    requires { Has rec.now field × (twins ascii.now text.now ≡ true) }
    ensures { result ≡ alike (held (seen line rec.now) field) text.now }
{
    let place = place::locate(rec, line, field);
    if stands(rec, place, field.justification) {
        return place::is_text(rec, place, text, ascii);
    }
    moved::compare(
        rec,
        place,
        field.justification,
        text,
        place::whole(text),
        Justification::Fixed,
    )
    .is_eq()
}

// The number of a field of at most 18 digits.
pub fn field_number(rec: &[u8], line: Line, field: Field) -> u64
    requires { Has rec.now field × (field.width ≤ 18) × (digits (held (seen line rec.now) field) ≡ true) }
    ensures { result ≡ numeral (held (seen line rec.now) field) }
{
    let place = place::locate(rec, line, field);
    if stands(rec, place, field.justification) {
        return place::number(rec, place, 0, field.width);
    }
    moved::number(rec, place, field.justification, 0, field.width)
}

// The number that the bytes from `from` up to `to` write, at most 18 of them, of a field of digits.
pub fn part_number(rec: &[u8], line: Line, field: Field, from: usize, to: usize) -> u64
    requires { Has rec.now field × (from ≤ to) × (to ≤ field.width) × (to - from ≤ 18) × (digits (held (seen line rec.now) field) ≡ true) }
    ensures { result ≡ numeral (slice from to (held (seen line rec.now) field)) }
{
    let place = place::locate(rec, line, field);
    if stands(rec, place, field.justification) {
        return place::number(rec, place, from, to);
    }
    moved::number(rec, place, field.justification, from, to)
}

// What the field holds is a part of the record: nothing is translated, and its ends show that nothing is moved.
fn is_readable(rec: &[u8], line: Line, field: Field) -> bool
    requires { Has rec.now field }
    ensures { result ≡ readable line field rec.now }
{
    !line.ascii && stands(rec, place::locate(rec, line, field), field.justification)
}

// The same of two records.
fn are_readable(rec: &[u8], line: Line, other: &[u8], other_line: Line, field: Field) -> bool
    requires { Has rec.now field × Has other.now field }
    ensures { result ≡ (readable line field rec.now and readable other_line field other.now) }
{
    is_readable(rec, line, field) && is_readable(other, other_line, field)
}

// The part of the record that is what the field holds; none where it has to be translated or moved.
pub fn field_part(rec: &[u8], line: Line, field: Field) -> Option<&[u8]>
    requires { Has rec.now field }
    ensures { MatchOption result (readable line field rec.now ≡ false) (λ part. (readable line field rec.now ≡ true) × (part.now ≡ held (seen line rec.now) field)) }
{
    if !is_readable(rec, line, field) {
        return None;
    }
    let start = field.start - 1;
    Some(&rec[start..start + field.width])
}

// Copies what the field holds.
pub fn copy_field(rec: &[u8], line: Line, field: Field, to: &mut [u8])
    requires { Has rec.now field × (length to.old ≡ field.width) }
    ensures { to.new ≡ held (seen line rec.now) field }
{
    let place = place::locate(rec, line, field);
    if line.ascii {
        moved::copy(rec, place, field.justification, to);
        return;
    }
    if stands(rec, place, field.justification) {
        place::copy_sent(rec, place, to);
        return;
    }
    moved::copy(rec, place, field.justification, to);
}

// A copy of what the field holds.
pub fn field_array<const N: usize>(rec: &[u8], line: Line, field: Field) -> [u8; N]
    requires { Has rec.now field × (field.width ≡ N) }
    ensures { result ≡ held (seen line rec.now) field }
{
    let mut copy = [0; N];
    copy_field(rec, line, field, &mut copy);
    copy
}

// The field holds the same in two records.
pub fn fields_same(rec: &[u8], line: Line, other: &[u8], other_line: Line, field: Field) -> bool
    requires { Has rec.now field × Has other.now field }
    ensures { result ≡ alike (held (seen line rec.now) field) (held (seen other_line other.now) field) }
{
    let place = place::locate(rec, line, field);
    let beside = place::locate(other, other_line, field);
    if are_readable(rec, line, other, other_line, field) {
        return place::sent_same(rec, place, other, beside);
    }
    moved::compare(
        rec,
        place,
        field.justification,
        other,
        beside,
        field.justification,
    )
    .is_eq()
}

// How what the field holds stands, in the order of bytes, to what it holds in another record.
pub fn fields_order(
    rec: &[u8],
    line: Line,
    other: &[u8],
    other_line: Line,
    field: Field,
) -> Ordering
    requires { Has rec.now field × Has other.now field }
    ensures { result ≡ order (held (seen line rec.now) field) (held (seen other_line other.now) field) }
{
    let place = place::locate(rec, line, field);
    let beside = place::locate(other, other_line, field);
    if are_readable(rec, line, other, other_line, field) {
        return place::sent_order(rec, place, other, beside);
    }
    moved::compare(
        rec,
        place,
        field.justification,
        other,
        beside,
        field.justification,
    )
}

// How what the field holds stands to these bytes.
pub fn field_order(rec: &[u8], line: Line, field: Field, bytes: &[u8]) -> Ordering
    requires { Has rec.now field }
    ensures { result ≡ order (held (seen line rec.now) field) bytes.now }
{
    let place = place::locate(rec, line, field);
    let beside = place::whole(bytes);
    if is_readable(rec, line, field) {
        return place::sent_order(rec, place, bytes, beside);
    }
    moved::compare(
        rec,
        place,
        field.justification,
        bytes,
        beside,
        Justification::Fixed,
    )
}

// No byte of the field is below hex 40, as it stands.
pub fn written_valid(rec: &[u8], line: Line, field: Field) -> bool
    requires { Has rec.now field }
    ensures { result ≡ valid (written (seen line rec.now) field) }
{
    let place = place::locate(rec, line, field);
    place::is_valid(rec, place)
}

// The field's byte at `i`, counted from 0, is this one as it stands, which ASCII files send as `ascii`.
pub fn written_is(rec: &[u8], line: Line, field: Field, i: usize, b: u8, ascii: u8) -> bool
    requires { Has rec.now field × (i < field.width) × (twins (ascii ∷ []) (b ∷ []) ≡ true) }
    ensures { result ≡ eqb (get_or (written (seen line rec.now) field) i 0) b }
{
    let place = place::locate(rec, line, field);
    place::is_byte(rec, place, i, b, ascii)
}

// The field's bytes from `from` up to `to`, counted from 0, are digits as they stand.
pub fn written_digits(rec: &[u8], line: Line, field: Field, from: usize, to: usize) -> bool
    requires { Has rec.now field × (from ≤ to) × (to ≤ field.width) }
    ensures { result ≡ digits (slice from to (written (seen line rec.now) field)) }
{
    let place = place::locate(rec, line, field);
    place::are_digits(rec, place, from, to)
}

// The number that the field's bytes from `from` up to `to` write as they stand, at most 18 digits.
pub fn written_number(rec: &[u8], line: Line, field: Field, from: usize, to: usize) -> u64
    requires { Has rec.now field × (from ≤ to) × (to ≤ field.width) × (to - from ≤ 18) × (digits (slice from to (written (seen line rec.now) field)) ≡ true) }
    ensures { result ≡ numeral (slice from to (written (seen line rec.now) field)) }
{
    let place = place::locate(rec, line, field);
    place::number(rec, place, from, to)
}
