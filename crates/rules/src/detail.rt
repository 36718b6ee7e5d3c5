// The rules of a detail (01 Detail).
#![tactic(auto, using(crate::proofs::Parts::parts), unfolding(reasons::specs::Findings::noted))]

ghost use Rattle.std.specs.Prelude.{◌≡◌, length};
ghost use Rattle.record.specs.declared.codes.Letter.TheVariants.{N, C, W, I};
ghost use Rattle.record.specs.Value.{seen};
ghost use Rattle.reasons.specs.Findings.{first, after};
ghost use Rattle.rules.specs.Rules.{adjustment, detail, rows, rules_for, findings, Kept};

use crate::Context;
use reasons::{Finding, Reason, amounts, checks, dates, lists, lookups, values};
use record::Line;
use record::codes::Letter;
use record::layout::*;

// Fields 23 and 24 of a detail other than DC.
fn start(rec: &[u8], line: Line, context: Context) -> Result<(), Finding>
    requires { (length rec.now ≡ 850) × Kept context }
    ensures { result ≡ first (findings context line.number (seen line rec.now) (rows 23 24 N detail)) }
{
    let payment_id = checks::unrepeated(rec, line, PAYMENT_ID, context.repeats);
    reasons::find(payment_id, line.number, 23)?;
    let amount = amounts::positive(rec, line, AMOUNT);
    reasons::find(amount, line.number, 24)
}

// Fields 23 to 25 of DC.
fn start_c(rec: &[u8], line: Line, context: Context) -> Result<(), Finding>
    requires { (length rec.now ≡ 850) × Kept context }
    ensures { result ≡ first (findings context line.number (seen line rec.now) (rows 23 25 C detail)) }
{
    let symbol = context.symbol;
    let voided = record::field_is(rec, line, IS_VOIDED_CHECK, b"\xF1", b"1");
    let payment_id = checks::composed(
        rec,
        line,
        PAYMENT_ID,
        CHECK_SERIAL_NUMBER,
        symbol,
        context.repeats,
    );
    reasons::find(payment_id, line.number, 23)?;
    let amount = amounts::check_amount(rec, line, AMOUNT, voided);
    reasons::find(amount, line.number, 24)?;
    let is_voided_check = lists::voided_check(rec, line, IS_VOIDED_CHECK);
    reasons::find(is_voided_check, line.number, 25)
}

// Fields 26 and 28.
fn payee(rec: &[u8], line: Line, context: Context) -> Result<(), Finding>
    requires { (length rec.now ≡ 850) × Kept context }
    ensures { result ≡ first (findings context line.number (seen line rec.now) (rows 26 28 N detail)) }
{
    let codes = context.codes;
    let payee_name = values::required(rec, line, PAYEE_NAME);
    reasons::find(payee_name, line.number, 26)?;
    let payment_type_code = lookups::in_book(rec, line, PAYMENT_TYPE_CODE, codes.types);
    reasons::find(payment_type_code, line.number, 28)
}

// Fields 35 to 38.
fn address(rec: &[u8], line: Line, context: Context) -> Result<(), Finding>
    requires { (length rec.now ≡ 850) × Kept context }
    ensures { result ≡ first (findings context line.number (seen line rec.now) (rows 35 38 N detail)) }
{
    let codes = context.codes;
    let state_code = lookups::if_in_book(rec, line, STATE_CODE, codes.states);
    reasons::find(state_code, line.number, 35)?;
    let postal_code = values::if_postal(rec, line, POSTAL_CODE);
    reasons::find(postal_code, line.number, 36)?;
    let country_code = lookups::if_in_book(rec, line, COUNTRY_CODE, codes.countries);
    reasons::find(country_code, line.number, 38)
}

// Fields 43 to 62 of DN.
fn end_n(rec: &[u8], line: Line, context: Context) -> Result<(), Finding>
    requires { (length rec.now ≡ 850) × Kept context }
    ensures { result ≡ first (findings context line.number (seen line rec.now) (rows 42 62 N detail)) }
{
    let codes = context.codes;
    let receiving_dfi = values::routing_number(rec, line, RECEIVING_DFI);
    reasons::find(receiving_dfi, line.number, 43)?;
    let ach_transaction_code = lists::transaction_code(rec, line, ACH_TRANSACTION_CODE);
    reasons::find(ach_transaction_code, line.number, 48)?;
    let original_currency_code = lookups::if_in_book(
        rec,
        line,
        ORIGINAL_CURRENCY_CODE,
        codes.currencies,
    );
    reasons::find(original_currency_code, line.number, 52)?;
    let standard_entry_class_code = lists::entry_class(rec, line, STANDARD_ENTRY_CLASS_CODE);
    reasons::find(standard_entry_class_code, line.number, 62)
}

// Fields 42 to 52 of DW.
fn end_w(rec: &[u8], line: Line, context: Context) -> Result<(), Finding>
    requires { (length rec.now ≡ 850) × Kept context }
    ensures { result ≡ first (findings context line.number (seen line rec.now) (rows 42 62 W detail)) }
{
    let codes = context.codes;
    let receiving_di = values::routing_number(rec, line, RECEIVING_DI);
    reasons::find(receiving_di, line.number, 42)?;
    let business_function_code = lists::business_function(rec, line, BUSINESS_FUNCTION_CODE);
    reasons::find(business_function_code, line.number, 44)?;
    let original_currency_code = lookups::if_in_book(
        rec,
        line,
        ORIGINAL_CURRENCY_CODE,
        codes.currencies,
    );
    reasons::find(original_currency_code, line.number, 52)
}

// Fields 51 and 52 of DI.
fn end_i(rec: &[u8], line: Line, context: Context) -> Result<(), Finding>
    requires { (length rec.now ≡ 850) × Kept context }
    ensures { result ≡ first (findings context line.number (seen line rec.now) (rows 42 62 I detail)) }
{
    let codes = context.codes;
    let payer_mechanism = lists::payer_mechanism(rec, line, PAYER_MECHANISM);
    reasons::find(payer_mechanism, line.number, 51)?;
    let original_currency_code = lookups::if_in_book(
        rec,
        line,
        ORIGINAL_CURRENCY_CODE,
        codes.currencies,
    );
    reasons::find(original_currency_code, line.number, 52)
}

// Fields 52 to 56 of DA.
fn end_a(rec: &[u8], line: Line, context: Context) -> Result<(), Finding>
    requires { (length rec.now ≡ 850) × Kept context }
    ensures { result ≡ first (findings context line.number (seen line rec.now) (rows 42 62 adjustment detail)) }
{
    let codes = context.codes;
    let original_currency_code = lookups::if_in_book(
        rec,
        line,
        ORIGINAL_CURRENCY_CODE,
        codes.currencies,
    );
    reasons::find(original_currency_code, line.number, 52)?;
    let original_schedule_number = values::required(rec, line, ORIGINAL_SCHEDULE_NUMBER);
    reasons::find(original_schedule_number, line.number, 54)?;
    let original_payment_id = values::required(rec, line, ORIGINAL_PAYMENT_ID);
    reasons::find(original_payment_id, line.number, 55)?;
    let original_summary_date = values::dashed_day(rec, line, ORIGINAL_SUMMARY_DATE);
    reasons::find(original_summary_date, line.number, 56)
}

// Fields 52 to 59 of DC.
fn end_c(rec: &[u8], line: Line, context: Context) -> Result<(), Finding>
    requires { (length rec.now ≡ 850) × Kept context }
    ensures { result ≡ first (findings context line.number (seen line rec.now) (rows 42 62 C detail)) }
{
    let codes = context.codes;
    let today = context.today;
    let month = context.month;
    let wanted = context.serial + context.payments;
    let original_currency_code = lookups::if_in_book(
        rec,
        line,
        ORIGINAL_CURRENCY_CODE,
        codes.currencies,
    );
    reasons::find(original_currency_code, line.number, 52)?;
    let check_serial_number = checks::number_is(
        rec,
        line,
        CHECK_SERIAL_NUMBER,
        wanted,
        Reason::Unlike,
    );
    reasons::find(check_serial_number, line.number, 58)?;
    let check_issue_date = dates::issue_day(rec, line, CHECK_ISSUE_DATE, today, month);
    reasons::find(check_issue_date, line.number, 59)
}

// Field 29 of DC.
fn location_c(rec: &[u8], line: Line, context: Context) -> Result<(), Finding>
    requires { (length rec.now ≡ 850) × Kept context }
    ensures { result ≡ first (findings context line.number (seen line rec.now) (rows 29 29 C detail)) }
{
    let codes = context.codes;
    let payment_location_code = lookups::in_book(rec, line, PAYMENT_LOCATION_CODE, codes.locations);
    reasons::find(payment_location_code, line.number, 29)
}

// Field 29, which no other detail has.
#[tactic(auto, using(crate::proofs::Tables::wholes), unfolding(reasons::specs::Findings::noted))]
fn location(rec: &[u8], line: Line, letter: Letter, context: Context) -> Result<(), Finding>
    requires { (length rec.now ≡ 850) × Kept context }
    ensures { result ≡ first (findings context line.number (seen line rec.now) (rows 29 29 letter detail)) }
{
    match letter {
        Letter::C => location_c(rec, line, context),
        _ => Ok(()),
    }
}

// Fields 26 to 38.
#[tactic(auto, using(crate::proofs::Tables::wholes), unfolding(reasons::specs::Findings::noted))]
fn common(rec: &[u8], line: Line, letter: Letter, context: Context) -> Result<(), Finding>
    requires { (length rec.now ≡ 850) × Kept context }
    ensures { result ≡ first (findings context line.number (seen line rec.now) (rows 26 38 letter detail)) }
{
    payee(rec, line, context)?;
    location(rec, line, letter, context)?;
    address(rec, line, context)
}

// Fields 42 to 62. Like `common` it has two callers, so that neither is part of the loop over a batch.
fn end(rec: &[u8], line: Line, letter: Letter, context: Context) -> Result<(), Finding>
    requires { (length rec.now ≡ 850) × Kept context }
    ensures { result ≡ first (findings context line.number (seen line rec.now) (rows 42 62 letter detail)) }
{
    match letter {
        Letter::N => end_n(rec, line, context),
        Letter::C => end_c(rec, line, context),
        Letter::W => end_w(rec, line, context),
        Letter::I => end_i(rec, line, context),
        Letter::A => end_a(rec, line, context),
    }
}

// What a detail's rules find by themselves.
#[tactic(auto, using(crate::proofs::Tables::wholes), unfolding(reasons::specs::Findings::noted))]
fn detail_findings(rec: &[u8], line: Line, letter: Letter, context: Context) -> Result<(), Finding>
    requires { (length rec.now ≡ 850) × Kept context }
    ensures { result ≡ first (findings context line.number (seen line rec.now) (rules_for letter detail)) }
{
    match letter {
        Letter::C => {
            start_c(rec, line, context)?;
            common(rec, line, letter, context)?;
            end(rec, line, letter, context)
        }
        _ => {
            start(rec, line, context)?;
            common(rec, line, letter, context)?;
            end(rec, line, letter, context)
        }
    }
}

// The rules of a detail. What is known is asked last: a record whose fields are read in a row has the next one fetched with it, and where nearly every
// batch of a large file is rejected, going by its details without looking takes longer.
#[tactic(auto, using(crate::proofs::Tables::wholes), unfolding(reasons::specs::Findings::noted))]
pub fn detail_rules(
    known: Result<(), Finding>,
    rec: &[u8],
    line: Line,
    letter: Letter,
    context: Context,
) -> Result<(), Finding>
    requires { (length rec.now ≡ 850) × Kept context }
    ensures { result ≡ after known (findings context line.number (seen line rec.now) (rules_for letter detail)) }
{
    let found = detail_findings(rec, line, letter, context);
    known?;
    found
}
