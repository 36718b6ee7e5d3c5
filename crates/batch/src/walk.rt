// The walk over a batch: what is known before a record, and after it. A step sees one record, never those around it.
#![tactic(auto, using(crate::proofs::Laws::walks), unfolding(crate::specs::Walk::context_of, crate::specs::Walk::knowing, crate::specs::Walk::payer_in, crate::specs::Walk::step_of, crate::specs::Batch::with_codes))]

ghost use Rattle.std.specs.Prelude.{◌≡◌, false, ◌≤◌, eqb, length, Err};
ghost use Rattle.record.specs.declared.codes.Letter.TheVariants.{N};
ghost use Rattle.record.specs.Choice.{choose};
ghost use Rattle.record.specs.Value.{seen};
ghost use Rattle.record.specs.Codes.{code_of};
ghost use Rattle.money.specs.Money.{worth, Whole};
ghost use Rattle.book.specs.Book.{Usable, listed_at};
ghost use Rattle.reasons.specs.declared.Reason.TheVariants.{Blank, Crowded, Sum};
ghost use Rattle.reasons.specs.Findings.{sound, after};
ghost use Rattle.rules.specs.Rules.{Kept, among, check, procurement, lone_procurement, rules_for, findings};
ghost use Rattle.batch.specs.Batch.{first_serial, with_codes};
ghost use Rattle.batch.specs.Walk.{Room, lone_blank, head, opening, context_of, knowing, payer_in, paying_context, next_procurement, last, detailed, partied, accounted, procured, trailed, step_of};

use crate::payment::Open;
use crate::{lookups, payment};
use book::Book;
use calendar::{Day, Month};
use money::Amount;
use reasons::{Finding, Reason};
use record::Line;
use record::codes::{Code, Letter, code_bytes, code_of, letter_in};
use record::layout::*;
use rules::detail::detail_rules;
use rules::header::header_rules;
use rules::others::{
    account_rules, lone_procurement_rules, party_rules, procurement_rules, trailer_rules,
};
use rules::{Codes, Context};

// What the header says: its record, the batch's letter, what the book says of the location in field 14, fields 18, 19 and 20, and the total of
// field 9. And whether the batch is known to have too many kinds, and today, where it is lent.
#[derive(Clone, Copy)]
pub(crate) struct Header {
    pub(crate) number: usize,
    pub(crate) letter: Letter,
    pub(crate) payer: Option<bool>,
    pub(crate) symbol: [u8; 4],
    pub(crate) serial: u64,
    pub(crate) month: Option<Month>,
    pub(crate) amount: Amount,
    pub(crate) crowded: bool,
    pub(crate) today: Option<Day>,
}

// What is known after a record: the first finding, what the header says, the open payment, the batch's payments, total and DT so far.
#[derive(Clone, Copy)]
pub(crate) struct State {
    pub(crate) finding: Result<(), Finding>,
    pub(crate) header: Header,
    pub(crate) payment: Open,
    pub(crate) payments: u64,
    pub(crate) total: Amount,
    pub(crate) accounts: usize,
}

// The letter of check batches.
fn is_check(letter: Letter) -> bool
    ensures { result ≡ among letter check }
{
    matches!(letter, Letter::C)
}

// A header's first serial number (field 19).
fn first_serial(rec: &[u8], line: Line) -> u64
    requires { length rec.now ≡ 850 }
    ensures { result ≡ first_serial (seen line rec.now) }
{
    if record::field_blank(rec, line, CHECK_FIRST_SERIAL_NUMBER) {
        return 0;
    }
    if record::field_digits(rec, line, CHECK_FIRST_SERIAL_NUMBER) {
        return record::field_number(rec, line, CHECK_FIRST_SERIAL_NUMBER);
    }
    0
}

fn read_header(
    book: &[u8],
    shelves: Book,
    today: Option<Day>,
    rec: &[u8],
    line: Line,
    crowded: bool,
) -> Header
    requires { Usable book.now shelves × (length rec.now ≡ 850) }
    ensures { result ≡ head (listed_at book.now shelves) today crowded line.number (seen line rec.now) }
{
    let code = code_of(code_bytes(rec, line));
    let letter = letter_in(code);
    let payer = lookups::location(book, shelves, rec, line, AGENCY_LOCATION_CODE);
    let symbol = rules::symbol_of(rec, line);
    let serial = first_serial(rec, line);
    let month = calendar::month_of(rec, line, CHECK_ACCOUNTING_MONTH_AND_YEAR);
    let amount = money::field_amount(rec, line, SUMMARY_TOTAL_AMOUNT);
    Header {
        number: line.number,
        letter,
        payer,
        symbol,
        serial,
        month,
        amount,
        crowded,
        today,
    }
}

// The state after the header, whose schedule number repeats an earlier batch's or not; the batch is known to have too many kinds, or not.
// Before the first payment an empty one of no reporter stands open, with which nothing is wrong.
pub(crate) fn open_batch(
    book: &[u8],
    shelves: Book,
    today: Option<Day>,
    rec: &[u8],
    line: Line,
    repeats: bool,
    crowded: bool,
) -> State
    requires { Usable book.now shelves × (length rec.now ≡ 850) }
    ensures { result ≡ opening (listed_at book.now shelves) today repeats crowded line.number (seen line rec.now) }
{
    let header = read_header(book, shelves, today, rec, line, crowded);
    let codes = lookups::location_only(header.payer.is_some());
    let symbol = header.symbol;
    let payments: u64 = 0;
    let none = Amount { high: 0, low: 0 };
    let context = Context {
        repeats,
        reporter: false,
        codes,
        symbol,
        serial: header.serial,
        month: header.month,
        payments,
        total: none,
        today,
    };
    let finding = header_rules(Ok(()), rec, line, header.letter, context);
    let payment = payment::begin(line.number, context, none);
    State {
        finding,
        header,
        payment,
        payments,
        total: none,
        accounts: 0,
    }
}

// What the rules of the next record know of the batch.
fn context_of(state: State, repeats: bool, reporter: bool, codes: Codes) -> Context
    ensures { result ≡ context_of state repeats reporter codes }
{
    let header = state.header;
    let symbol = header.symbol;
    Context {
        repeats,
        reporter,
        codes,
        symbol,
        serial: header.serial,
        month: header.month,
        payments: state.payments,
        total: state.total,
        today: header.today,
    }
}

// What the book says of a payer's location: the header's, or in a check batch the detail's (field 29).
fn payer_of(book: &[u8], shelves: Book, rec: &[u8], line: Line, header: Header) -> Option<bool>
    requires { Usable book.now shelves × (length rec.now ≡ 850) }
    ensures { result ≡ payer_in (listed_at book.now shelves) header (seen line rec.now) }
{
    if is_check(header.letter) {
        return lookups::location(book, shelves, rec, line, PAYMENT_LOCATION_CODE);
    }
    header.payer
}

// What the rules of a payment's records know of the batch and of the book.
fn paying_context(
    book: &[u8],
    shelves: Book,
    rec: &[u8],
    line: Line,
    state: State,
    repeats: bool,
) -> Context
    requires { Usable book.now shelves × (length rec.now ≡ 850) }
    ensures { result ≡ paying_context (listed_at book.now shelves) state repeats (seen line rec.now) }
{
    let payer = payer_of(book, shelves, rec, line, state.header);
    let codes = lookups::detail_codes(book, shelves, rec, line, payer.is_some());
    context_of(state, repeats, payer.unwrap_or(false), codes)
}

// A detail: the payment before it ends, and its own begins.
fn take_detail(
    book: &[u8],
    shelves: Book,
    rec: &[u8],
    line: Line,
    state: State,
    repeats: bool,
) -> State
    requires { Usable book.now shelves × (length rec.now ≡ 850) × Room line.number state × (line.number ≤ 65535) }
    ensures { result ≡ detailed (listed_at book.now shelves) state line.number (seen line rec.now) repeats }
{
    let context = paying_context(book, shelves, rec, line, state, repeats);
    let ended = payment::end(state.finding, state.payment);
    let finding = detail_rules(ended, rec, line, state.header.letter, context);
    let amount = money::field_amount(rec, line, AMOUNT);
    let payment = payment::begin(line.number, context, amount);
    let payments = state.payments + 1;
    let total = money::plus(state.total, amount);
    State {
        finding,
        payment,
        payments,
        total,
        ..state
    }
}

// The state with another finding, another payment and another count of DT.
fn know(state: State, finding: Result<(), Finding>, payment: Open, accounts: usize) -> State
    ensures { result ≡ knowing state finding payment accounts }
{
    State {
        finding,
        payment,
        accounts,
        ..state
    }
}

fn take_party(rec: &[u8], line: Line, state: State) -> State
    requires { (length rec.now ≡ 850) × Room line.number state × (line.number ≤ 65535) }
    ensures { result ≡ partied state line.number (seen line rec.now) }
{
    let payment = state.payment;
    let finding = party_rules(
        state.finding,
        rec,
        line,
        state.header.letter,
        payment.context,
    );
    know(state, finding, payment, state.accounts)
}

// The context of a payment's records, for a record with other codes.
fn with_codes(context: Context, codes: Codes) -> Context
    ensures { result ≡ with_codes context codes }
{
    Context { codes, ..context }
}

// A DT: its BETC is looked up once, for its rules and for the sum. The record's own word for a credit (field 88) is not read.
fn take_account(book: &[u8], shelves: Book, rec: &[u8], line: Line, state: State) -> State
    requires { Usable book.now shelves × (length rec.now ≡ 850) × Room line.number state × (line.number ≤ 65535) }
    ensures { result ≡ accounted (listed_at book.now shelves) state line.number (seen line rec.now) }
{
    let before = state.payment;
    let betc = lookups::betc(book, shelves, rec, line);
    let codes = lookups::betc_only(betc.is_some());
    let context = with_codes(before.context, codes);
    let finding = account_rules(state.finding, rec, line, context);
    let amount = money::field_amount(rec, line, ACCOUNT_AMOUNT);
    let payment = payment::with_account(before, betc.unwrap_or(false), amount);
    let accounts = state.accounts + 1;
    know(state, finding, payment, accounts)
}

// The rules of a DP that may be the payment's only one, or is not.
fn own_rules(
    known: Result<(), Finding>,
    rec: &[u8],
    line: Line,
    payment: Open,
) -> Result<(), Finding>
    requires { (length rec.now ≡ 850) × Kept payment.context }
    ensures { result ≡ after known (findings payment.context line.number (seen line rec.now) (rules_for N (choose (eqb payment.procurements 0) lone_procurement procurement))) }
{
    if payment.procurements == 0 {
        return lone_procurement_rules(known, rec, line, payment.context);
    }
    procurement_rules(known, rec, line, payment.context)
}

// What a DP finds. Where it is the second, a blank first one is at fault too: it was let pass as the only one.
fn procurement_findings(
    known: Result<(), Finding>,
    rec: &[u8],
    line: Line,
    payment: Open,
) -> Result<(), Finding>
    requires { (length rec.now ≡ 850) × Kept payment.context × (1 ≤ line.number) }
    ensures { result ≡ after known (next_procurement payment line.number (seen line rec.now)) }
{
    let known = reasons::note(known, first_reason(payment), line.number - 1, 96);
    own_rules(known, rec, line, payment)
}

// Refused where the payment's one DP so far is blank.
fn first_reason(payment: Open) -> Result<(), Reason>
    ensures { result ≡ choose (lone_blank payment) (Err Blank) sound }
{
    if payment::is_lone_blank(payment) {
        return Err(Reason::Blank);
    }
    Ok(())
}

fn take_procurement(rec: &[u8], line: Line, state: State) -> State
    requires { (length rec.now ≡ 850) × Room line.number state × (line.number ≤ 65535) }
    ensures { result ≡ procured state line.number (seen line rec.now) }
{
    let before = state.payment;
    let finding = procurement_findings(state.finding, rec, line, before);
    let blank = record::field_blank(rec, line, PROCUREMENT_AMOUNT);
    let amount = money::field_amount(rec, line, PROCUREMENT_AMOUNT);
    let payment = payment::with_procurement(before, blank, amount);
    know(state, finding, payment, state.accounts)
}

// Too many kinds of TAS/BETC in the batch.
fn crowd_reason(crowded: bool) -> Result<(), Reason>
    ensures { result ≡ choose crowded (Err Crowded) sound }
{
    if crowded {
        return Err(Reason::Crowded);
    }
    Ok(())
}

// Field 9 is not the sum of the payments, except in BC.
fn summary_reason(header: Header, total: Amount) -> Result<(), Reason>
    requires { Whole header.amount × Whole total }
    ensures { result ≡ choose (among header.letter check) sound (choose (eqb (worth header.amount) (worth total)) sound (Err Sum)) }
{
    if is_check(header.letter) {
        return Ok(());
    }
    if money::is_equal(header.amount, total) {
        return Ok(());
    }
    Err(Reason::Sum)
}

// What is found at the end of a batch: too many kinds, then the trailer, then field 9's sum.
fn last_findings(
    known: Result<(), Finding>,
    rec: &[u8],
    line: Line,
    state: State,
) -> Result<(), Finding>
    requires { (length rec.now ≡ 850) × Room line.number state × (line.number ≤ 65535) }
    ensures { result ≡ after known (last state line.number (seen line rec.now)) }
{
    let header = state.header;
    let known = reasons::note(known, crowd_reason(header.crowded), header.number, 76);
    let none = lookups::location_only(false);
    let context = context_of(state, false, false, none);
    let known = trailer_rules(known, rec, line, context);
    reasons::note(known, summary_reason(header, state.total), header.number, 9)
}

// The trailer: the last payment ends, and the batch.
fn take_trailer(rec: &[u8], line: Line, state: State) -> State
    requires { (length rec.now ≡ 850) × Room line.number state × (line.number ≤ 65535) }
    ensures { result ≡ trailed state line.number (seen line rec.now) }
{
    let ended = payment::end(state.finding, state.payment);
    let finding = last_findings(ended, rec, line, state);
    know(state, finding, state.payment, state.accounts)
}

// The state after a record of the batch; a detail's Payment ID is the first that repeats an earlier one, or not.
pub(crate) fn step(
    book: &[u8],
    shelves: Book,
    rec: &[u8],
    line: Line,
    code: Code,
    state: State,
    repeats: bool,
) -> State
    requires { Usable book.now shelves × (length rec.now ≡ 850) × (code ≡ code_of (seen line rec.now)) × Room line.number state × (line.number ≤ 65535) }
    ensures { result ≡ step_of (listed_at book.now shelves) (code_of (seen line rec.now)) state line.number (seen line rec.now) repeats }
{
    match code {
        Code::FileHeader => state,
        Code::Batch(_) => state,
        Code::Detail(_) => take_detail(book, shelves, rec, line, state, repeats),
        Code::Party => take_party(rec, line, state),
        Code::Account => take_account(book, shelves, rec, line, state),
        Code::Procurement => take_procurement(rec, line, state),
        Code::BatchTrailer => take_trailer(rec, line, state),
        Code::FileTrailer => state,
        Code::Unknown => state,
    }
}
