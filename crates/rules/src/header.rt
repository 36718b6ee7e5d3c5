// The rules of a batch header (01 Header).
#![tactic(auto, using(crate::proofs::Parts::parts), unfolding(reasons::specs::Findings::noted))]

ghost use Rattle.std.specs.Prelude.{◌≡◌, length};
ghost use Rattle.record.specs.declared.codes.Letter.TheVariants.{N, C, W, I};
ghost use Rattle.record.specs.Value.{seen};
ghost use Rattle.reasons.specs.Findings.{first, after};
ghost use Rattle.rules.specs.Rules.{header, rows, rules_for, findings, Kept};

use crate::Context;
use reasons::{Finding, checks, dates, lists, lookups, values};
use record::Line;
use record::codes::Letter;
use record::layout::*;

// Fields 6 to 9 of a batch other than BC.
fn start(rec: &[u8], line: Line, context: Context) -> Result<(), Finding>
    requires { (length rec.now ≡ 850) × Kept context }
    ensures { result ≡ first (findings context line.number (seen line rec.now) (rows 6 9 N header)) }
{
    let schedule_number = checks::unrepeated(rec, line, SCHEDULE_NUMBER, context.repeats);
    reasons::find(schedule_number, line.number, 6)?;
    let summary_number = values::unbroken(rec, line, SUMMARY_NUMBER);
    reasons::find(summary_number, line.number, 7)?;
    let summary_date = values::dashed_day(rec, line, SUMMARY_DATE);
    reasons::find(summary_date, line.number, 8)?;
    let summary_total_amount = values::number(rec, line, SUMMARY_TOTAL_AMOUNT);
    reasons::find(summary_total_amount, line.number, 9)
}

// Fields 10 to 14 of BN.
fn end_n(rec: &[u8], line: Line, context: Context) -> Result<(), Finding>
    requires { (length rec.now ≡ 850) × Kept context }
    ensures { result ≡ first (findings context line.number (seen line rec.now) (rows 10 14 N header)) }
{
    let codes = context.codes;
    let voucher_form_code = lists::voucher_form(rec, line, VOUCHER_FORM_CODE);
    reasons::find(voucher_form_code, line.number, 10)?;
    let originating_dfi = values::routing_number(rec, line, ORIGINATING_DFI);
    reasons::find(originating_dfi, line.number, 13)?;
    let agency_location_code = lookups::in_book(rec, line, AGENCY_LOCATION_CODE, codes.locations);
    reasons::find(agency_location_code, line.number, 14)
}

// Fields 10 to 14 of BW.
fn end_w(rec: &[u8], line: Line, context: Context) -> Result<(), Finding>
    requires { (length rec.now ≡ 850) × Kept context }
    ensures { result ≡ first (findings context line.number (seen line rec.now) (rows 10 14 W header)) }
{
    let codes = context.codes;
    let voucher_form_code = lists::voucher_form(rec, line, VOUCHER_FORM_CODE);
    reasons::find(voucher_form_code, line.number, 10)?;
    let originating_di = values::routing_number(rec, line, ORIGINATING_DI);
    reasons::find(originating_di, line.number, 12)?;
    let agency_location_code = lookups::in_book(rec, line, AGENCY_LOCATION_CODE, codes.locations);
    reasons::find(agency_location_code, line.number, 14)
}

// Fields 10 to 14 of BI and BA.
fn end_other(rec: &[u8], line: Line, context: Context) -> Result<(), Finding>
    requires { (length rec.now ≡ 850) × Kept context }
    ensures { result ≡ first (findings context line.number (seen line rec.now) (rows 10 14 I header)) }
{
    let codes = context.codes;
    let voucher_form_code = lists::voucher_form(rec, line, VOUCHER_FORM_CODE);
    reasons::find(voucher_form_code, line.number, 10)?;
    let agency_location_code = lookups::in_book(rec, line, AGENCY_LOCATION_CODE, codes.locations);
    reasons::find(agency_location_code, line.number, 14)
}

// Fields 6 to 17 of BC.
fn start_c(rec: &[u8], line: Line, context: Context) -> Result<(), Finding>
    requires { (length rec.now ≡ 850) × Kept context }
    ensures { result ≡ first (findings context line.number (seen line rec.now) (rows 6 17 C header)) }
{
    let symbol = crate::symbol_of(rec, line);
    let today = context.today;
    let schedule_number = checks::composed(
        rec,
        line,
        SCHEDULE_NUMBER,
        CHECK_FIRST_SERIAL_NUMBER,
        symbol,
        context.repeats,
    );
    reasons::find(schedule_number, line.number, 6)?;
    let disbursing_office_symbol = values::number(rec, line, DISBURSING_OFFICE_SYMBOL);
    reasons::find(disbursing_office_symbol, line.number, 15)?;
    let is_courtesy_check = lists::courtesy_check(rec, line, IS_COURTESY_CHECK);
    reasons::find(is_courtesy_check, line.number, 16)?;
    let check_batch_creation_date = dates::creation_day(
        rec,
        line,
        CHECK_BATCH_CREATION_DATE,
        today,
    );
    reasons::find(check_batch_creation_date, line.number, 17)
}

// Fields 18 to 20 of BC.
fn end_c(rec: &[u8], line: Line, context: Context) -> Result<(), Finding>
    requires { (length rec.now ≡ 850) × Kept context }
    ensures { result ≡ first (findings context line.number (seen line rec.now) (rows 18 20 C header)) }
{
    let today = context.today;
    let check_symbol_number = checks::check_symbol(rec, line, CHECK_SYMBOL_NUMBER);
    reasons::find(check_symbol_number, line.number, 18)?;
    let check_first_serial_number = values::number(rec, line, CHECK_FIRST_SERIAL_NUMBER);
    reasons::find(check_first_serial_number, line.number, 19)?;
    let check_accounting_month_and_year = dates::accounting_month(
        rec,
        line,
        CHECK_ACCOUNTING_MONTH_AND_YEAR,
        today,
    );
    reasons::find(check_accounting_month_and_year, line.number, 20)
}

// The rules of a batch header.
#[tactic(auto, using(crate::proofs::Tables::wholes), unfolding(reasons::specs::Findings::noted))]
pub fn header_rules(
    known: Result<(), Finding>,
    rec: &[u8],
    line: Line,
    letter: Letter,
    context: Context,
) -> Result<(), Finding>
    requires { (length rec.now ≡ 850) × Kept context }
    ensures { result ≡ after known (findings context line.number (seen line rec.now) (rules_for letter header)) }
{
    known?;
    match letter {
        Letter::N => {
            start(rec, line, context)?;
            end_n(rec, line, context)
        }
        Letter::C => {
            start_c(rec, line, context)?;
            end_c(rec, line, context)
        }
        Letter::W => {
            start(rec, line, context)?;
            end_w(rec, line, context)
        }
        Letter::I | Letter::A => {
            start(rec, line, context)?;
            end_other(rec, line, context)
        }
    }
}
