// The rules of the records beside headers and details (01 Others).
#![tactic(auto, using(crate::proofs::Parts::parts), unfolding(reasons::specs::Findings::noted))]

ghost use Rattle.std.specs.Prelude.{◌≡◌, length};
ghost use Rattle.record.specs.Choice.{choose};
ghost use Rattle.record.specs.declared.codes.Letter.TheVariants.{N};
ghost use Rattle.record.specs.Value.{Has, seen, held};
ghost use Rattle.reasons.specs.Findings.{sound, first, after};
ghost use Rattle.reasons.specs.Reasons.{required, in_book, if_in_book};
ghost use Rattle.rules.specs.Rules.{party, account, procurement, lone_procurement, trailer, rows, rules_for, findings, Kept};

use crate::Context;
use reasons::{Finding, Reason, amounts, checks, lookups, values};
use record::codes::Letter;
use record::layout::*;
use record::{Field, Line};

// The party's name (field 66).
fn party_name(rec: &[u8], line: Line, context: Context) -> Result<(), Finding>
    requires { (length rec.now ≡ 850) × Kept context }
    ensures { result ≡ first (findings context line.number (seen line rec.now) (rules_for N party)) }
{
    let party_name = values::required(rec, line, PARTY_NAME);
    reasons::find(party_name, line.number, 66)
}

// A DX: the party's name, but not under DA.
#[tactic(auto, using(crate::proofs::Tables::wholes), unfolding(reasons::specs::Findings::noted))]
pub fn party_rules(
    known: Result<(), Finding>,
    rec: &[u8],
    line: Line,
    letter: Letter,
    context: Context,
) -> Result<(), Finding>
    requires { (length rec.now ≡ 850) × Kept context }
    ensures { result ≡ after known (findings context line.number (seen line rec.now) (rules_for letter party)) }
{
    known?;
    match letter {
        Letter::A => Ok(()),
        _ => party_name(rec, line, context),
    }
}

// Required of a CARS Reporter.
#[tactic(auto, unfolding(record::specs::Choice::choose))]
fn if_reporter(rec: &[u8], line: Line, field: Field, reporter: bool) -> Result<(), Reason>
    requires { Has rec.now field }
    ensures { result ≡ choose reporter (required (held (seen line rec.now) field)) sound }
{
    if reporter {
        return values::required(rec, line, field);
    }
    Ok(())
}

// A BETC: required of a CARS Reporter, and in the book if filled.
#[tactic(auto, unfolding(record::specs::Choice::choose))]
fn reporter_betc(
    rec: &[u8],
    line: Line,
    field: Field,
    reporter: bool,
    listed: bool,
) -> Result<(), Reason>
    requires { Has rec.now field }
    ensures { result ≡ choose reporter (in_book listed (held (seen line rec.now) field)) (if_in_book listed (held (seen line rec.now) field)) }
{
    if reporter {
        return lookups::in_book(rec, line, field, listed);
    }
    lookups::if_in_book(rec, line, field, listed)
}

// Fields 80 to 85.
fn account_start(rec: &[u8], line: Line, context: Context) -> Result<(), Finding>
    requires { (length rec.now ≡ 850) × Kept context }
    ensures { result ≡ first (findings context line.number (seen line rec.now) (rows 80 85 N account)) }
{
    let agency_identifier = if_reporter(rec, line, AGENCY_IDENTIFIER, context.reporter);
    reasons::find(agency_identifier, line.number, 80)?;
    let main_account_code = if_reporter(rec, line, MAIN_ACCOUNT_CODE, context.reporter);
    reasons::find(main_account_code, line.number, 84)?;
    let sub_account_code = if_reporter(rec, line, SUB_ACCOUNT_CODE, context.reporter);
    reasons::find(sub_account_code, line.number, 85)
}

// Fields 86 and 87.
fn account_end(rec: &[u8], line: Line, context: Context) -> Result<(), Finding>
    requires { (length rec.now ≡ 850) × Kept context }
    ensures { result ≡ first (findings context line.number (seen line rec.now) (rows 86 87 N account)) }
{
    let codes = context.codes;
    let business_event_type_code = reporter_betc(
        rec,
        line,
        BUSINESS_EVENT_TYPE_CODE,
        context.reporter,
        codes.betcs,
    );
    reasons::find(business_event_type_code, line.number, 86)?;
    let account_amount = values::number(rec, line, ACCOUNT_AMOUNT);
    reasons::find(account_amount, line.number, 87)
}

// A DT.
#[tactic(auto, using(crate::proofs::Tables::wholes), unfolding(reasons::specs::Findings::noted))]
pub fn account_rules(
    known: Result<(), Finding>,
    rec: &[u8],
    line: Line,
    context: Context,
) -> Result<(), Finding>
    requires { (length rec.now ≡ 850) × Kept context }
    ensures { result ≡ after known (findings context line.number (seen line rec.now) (rules_for N account)) }
{
    known?;
    account_start(rec, line, context)?;
    account_end(rec, line, context)
}

// A DP that is not the payment's only one.
#[tactic(auto, using(crate::proofs::Parts::alone, crate::proofs::Parts::parts), unfolding(reasons::specs::Findings::noted))]
pub fn procurement_rules(
    known: Result<(), Finding>,
    rec: &[u8],
    line: Line,
    context: Context,
) -> Result<(), Finding>
    requires { (length rec.now ≡ 850) × Kept context }
    ensures { result ≡ after known (findings context line.number (seen line rec.now) (rules_for N procurement)) }
{
    known?;
    let procurement_amount = values::number(rec, line, PROCUREMENT_AMOUNT);
    reasons::find(procurement_amount, line.number, 96)
}

// A payment's only DP, which may leave the amount blank.
#[tactic(auto, using(crate::proofs::Parts::alone, crate::proofs::Parts::parts), unfolding(reasons::specs::Findings::noted))]
pub fn lone_procurement_rules(
    known: Result<(), Finding>,
    rec: &[u8],
    line: Line,
    context: Context,
) -> Result<(), Finding>
    requires { (length rec.now ≡ 850) × Kept context }
    ensures { result ≡ after known (findings context line.number (seen line rec.now) (rules_for N lone_procurement)) }
{
    known?;
    let procurement_amount = values::if_number(rec, line, PROCUREMENT_AMOUNT);
    reasons::find(procurement_amount, line.number, 96)
}

// A BT: the count and the sum of the batch's payments.
#[tactic(auto, using(crate::proofs::Parts::alone, crate::proofs::Parts::parts), unfolding(reasons::specs::Findings::noted))]
pub fn trailer_rules(
    known: Result<(), Finding>,
    rec: &[u8],
    line: Line,
    context: Context,
) -> Result<(), Finding>
    requires { (length rec.now ≡ 850) × Kept context }
    ensures { result ≡ after known (findings context line.number (seen line rec.now) (rules_for N trailer)) }
{
    known?;
    let batch_total_count = checks::number_is(
        rec,
        line,
        BATCH_TOTAL_COUNT,
        context.payments,
        Reason::Count,
    );
    reasons::find(batch_total_count, line.number, 99)?;
    let batch_total_amount = amounts::amount_is(rec, line, BATCH_TOTAL_AMOUNT, context.total);
    reasons::find(batch_total_amount, line.number, 100)
}
