// Reasons of fields that must hold a listed value, compared with fixed EBCDIC byte strings. Beside each stands what ASCII files send for it.
#![tactic(auto, using(crate::proofs::Laws::checks), unfolding(crate::specs::Reasons::listed, crate::specs::Reasons::if_listed, crate::specs::Reasons::if_coded, page::specs::CodePage::twins, page::specs::CodePage::ebcdic, page::specs::CodePage::code_page))]

ghost use Rattle.std.specs.Prelude.{◌≡◌, true};
ghost use Rattle.record.specs.Value.{Has, seen, held};
ghost use Rattle.reasons.specs.Lists.{Text, values, are_twins, voucher_forms, courtesy_checks, voided_checks, business_functions, transaction_codes, payer_mechanisms, entry_classes, one_of};
ghost use Rattle.reasons.specs.Reasons.{listed, if_listed, if_coded};

use crate::Reason;
use record::{Field, Line};

// 5515, or 215 and a blank (field 10).
const VOUCHER_FORMS: [([u8; 4], [u8; 4]); 2] = [
    (*b"\xF5\xF5\xF1\xF5", *b"5515"),
    (*b"\xF2\xF1\xF5\x40", *b"215 "),
];

// 0 (field 16).
const COURTESY_CHECKS: [([u8; 1], [u8; 1]); 1] = [(*b"\xF0", *b"0")];

// 0 or 1 (field 25).
const VOIDED_CHECKS: [([u8; 1], [u8; 1]); 2] = [(*b"\xF0", *b"0"), (*b"\xF1", *b"1")];

// CTR, BTR, CTP, CKS, DEP, DRW or DRC (field 44).
const BUSINESS_FUNCTIONS: [([u8; 3], [u8; 3]); 7] = [
    (*b"\xC3\xE3\xD9", *b"CTR"),
    (*b"\xC2\xE3\xD9", *b"BTR"),
    (*b"\xC3\xE3\xD7", *b"CTP"),
    (*b"\xC3\xD2\xE2", *b"CKS"),
    (*b"\xC4\xC5\xD7", *b"DEP"),
    (*b"\xC4\xD9\xE6", *b"DRW"),
    (*b"\xC4\xD9\xC3", *b"DRC"),
];

// 22, 32, 42 or 52 (field 48).
const TRANSACTION_CODES: [([u8; 2], [u8; 2]); 4] = [
    (*b"\xF2\xF2", *b"22"),
    (*b"\xF3\xF2", *b"32"),
    (*b"\xF4\xF2", *b"42"),
    (*b"\xF5\xF2", *b"52"),
];

// Electronic, Check or Western Union (field 51).
const PAYER_MECHANISMS: [([u8; 20], [u8; 20]); 3] = [
    (
        *b"\xC5\x93\x85\x83\xA3\x99\x96\x95\x89\x83\x40\x40\x40\x40\x40\x40\x40\x40\x40\x40",
        *b"Electronic          ",
    ),
    (
        *b"\xC3\x88\x85\x83\x92\x40\x40\x40\x40\x40\x40\x40\x40\x40\x40\x40\x40\x40\x40\x40",
        *b"Check               ",
    ),
    (
        *b"\xE6\x85\xA2\xA3\x85\x99\x95\x40\xE4\x95\x89\x96\x95\x40\x40\x40\x40\x40\x40\x40",
        *b"Western Union       ",
    ),
];

// CCD, PPD, IAT or CTX (field 62).
const ENTRY_CLASSES: [([u8; 3], [u8; 3]); 4] = [
    (*b"\xC3\xC3\xC4", *b"CCD"),
    (*b"\xD7\xD7\xC4", *b"PPD"),
    (*b"\xC9\xC1\xE3", *b"IAT"),
    (*b"\xC3\xE3\xE7", *b"CTX"),
];

// The field holds one of the values.
fn is_one_of<const N: usize>(
    rec: &[u8],
    line: Line,
    field: Field,
    texts: &[([u8; N], [u8; N])],
) -> bool
    requires { Has rec.now field × (are_twins texts.now ≡ true) }
    ensures { result ≡ one_of (values texts.now) (held (seen line rec.now) field) }
{
    for (text, ascii) in texts {
        if record::field_is(rec, line, field, text, ascii) {
            return true;
        }
    }
    false
}

// Required, one of the values.
fn listed<const N: usize>(
    rec: &[u8],
    line: Line,
    field: Field,
    texts: &[([u8; N], [u8; N])],
) -> Result<(), Reason>
    requires { Has rec.now field × (are_twins texts.now ≡ true) }
    ensures { result ≡ listed (values texts.now) (held (seen line rec.now) field) }
{
    if record::field_blank(rec, line, field) {
        return Err(Reason::Blank);
    }
    if is_one_of(rec, line, field, texts) {
        return Ok(());
    }
    Err(Reason::Unlisted)
}

// A listed voucher form (field 10).
pub fn voucher_form(rec: &[u8], line: Line, field: Field) -> Result<(), Reason>
    requires { Has rec.now field }
    ensures { result ≡ listed voucher_forms (held (seen line rec.now) field) }
{
    listed(rec, line, field, &VOUCHER_FORMS)
}

// A listed mark of courtesy checks (field 16).
pub fn courtesy_check(rec: &[u8], line: Line, field: Field) -> Result<(), Reason>
    requires { Has rec.now field }
    ensures { result ≡ listed courtesy_checks (held (seen line rec.now) field) }
{
    listed(rec, line, field, &COURTESY_CHECKS)
}

// A listed mark of voided checks (field 25).
pub fn voided_check(rec: &[u8], line: Line, field: Field) -> Result<(), Reason>
    requires { Has rec.now field }
    ensures { result ≡ listed voided_checks (held (seen line rec.now) field) }
{
    listed(rec, line, field, &VOIDED_CHECKS)
}

// A listed business function (field 44).
pub fn business_function(rec: &[u8], line: Line, field: Field) -> Result<(), Reason>
    requires { Has rec.now field }
    ensures { result ≡ listed business_functions (held (seen line rec.now) field) }
{
    listed(rec, line, field, &BUSINESS_FUNCTIONS)
}

// A listed entry class (field 62).
pub fn entry_class(rec: &[u8], line: Line, field: Field) -> Result<(), Reason>
    requires { Has rec.now field }
    ensures { result ≡ listed entry_classes (held (seen line rec.now) field) }
{
    listed(rec, line, field, &ENTRY_CLASSES)
}

// If filled, a listed transaction code; unfilled also when all zeros (field 48).
pub fn transaction_code(rec: &[u8], line: Line, field: Field) -> Result<(), Reason>
    requires { Has rec.now field }
    ensures { result ≡ if_coded transaction_codes (held (seen line rec.now) field) }
{
    if record::field_blank(rec, line, field) {
        return Ok(());
    }
    if record::field_zeros(rec, line, field) {
        return Ok(());
    }
    if is_one_of(rec, line, field, &TRANSACTION_CODES) {
        return Ok(());
    }
    Err(Reason::Unlisted)
}

// If filled, a listed payer mechanism (field 51).
pub fn payer_mechanism(rec: &[u8], line: Line, field: Field) -> Result<(), Reason>
    requires { Has rec.now field }
    ensures { result ≡ if_listed payer_mechanisms (held (seen line rec.now) field) }
{
    if record::field_blank(rec, line, field) {
        return Ok(());
    }
    if is_one_of(rec, line, field, &PAYER_MECHANISMS) {
        return Ok(());
    }
    Err(Reason::Unlisted)
}
