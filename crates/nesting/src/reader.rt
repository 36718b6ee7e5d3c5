// The reader: what is known after a record, which records may come next, and what is known after them.
ghost use Rattle.std.specs.Prelude.{◌≡◌, true, ◌<◌, ◌≤◌, length};
ghost use Rattle.record.specs.Fields.{payment_id};
ghost use Rattle.record.specs.Value.{seen, held};
ghost use Rattle.nesting.specs.Reader.{is_at, besides, complete, owns, opens_batch, opens_payment, takes_party, takes_account, takes_procurement, fits, start, moved, in_batch, in_payment, taken, next};

use record::Line;
use record::codes::{Code, Letter};
use record::layout::PAYMENT_ID;

// Where the reader stands.
#[derive(Clone, Copy, Debug, PartialEq, Eq)]
pub enum Place {
    Start,
    FileOpen,
    BatchOpen,
    PaymentOpen,
    BatchClosed,
    FileClosed,
}

// What is known after a record: the batch's letter, the payment's ID and what it has so far, the batches and payments so far.
#[derive(Clone, Copy)]
pub struct State {
    pub(crate) place: Place,
    pub(crate) letter: Letter,
    pub(crate) id: [u8; 20],
    pub(crate) party: bool,
    pub(crate) accounts: usize,
    pub(crate) procurements: usize,
    pub batches: usize,
    pub payments: usize,
}

// The reader stands at this place.
pub fn is_at(state: State, place: Place) -> bool
    ensures { result ≡ is_at state place }
{
    state.place == place
}

// A file with a BC batch has no other kind of batch (01 Nesting).
fn may_stand_beside(letter: Letter, other: Letter) -> bool
    ensures { result ≡ besides letter other }
{
    (letter == Letter::C) == (other == Letter::C)
}

// A payment is open and may end here: it has a DX.
fn is_complete(state: State) -> bool
    ensures { result ≡ complete state }
{
    is_at(state, Place::PaymentOpen) && state.party
}

// The record's Payment ID is the open payment's.
fn is_own(rec: &[u8], line: Line, state: State) -> bool
    requires { 22 ≤ length rec.now }
    ensures { result ≡ owns state (held (seen line rec.now) payment_id) }
{
    payment_id(rec, line) == state.id
}

fn may_open_batch(state: State, letter: Letter) -> bool
    ensures { result ≡ opens_batch state letter }
{
    is_at(state, Place::FileOpen)
        || is_at(state, Place::BatchClosed) && may_stand_beside(state.letter, letter)
}

// Details carry the batch's letter (01 Nesting).
fn may_open_payment(state: State, letter: Letter) -> bool
    ensures { result ≡ opens_payment state letter }
{
    letter == state.letter && (is_at(state, Place::BatchOpen) || is_complete(state))
}

fn may_take_party(state: State) -> bool
    ensures { result ≡ takes_party state }
{
    is_at(state, Place::PaymentOpen) && state.accounts == 0 && state.procurements == 0
}

fn may_take_account(state: State) -> bool
    ensures { result ≡ takes_account state }
{
    is_complete(state) && state.procurements == 0 && state.accounts < 100
}

fn may_take_procurement(state: State) -> bool
    ensures { result ≡ takes_procurement state }
{
    is_complete(state) && state.procurements < 100
}

// The record, of this code, may come next.
#[tactic(auto, using(crate::proofs::Arms::arms), unfolding(crate::specs::Reader::fits))]
pub fn fits(rec: &[u8], line: Line, code: Code, state: State) -> bool
    requires { 22 ≤ length rec.now }
    ensures { result ≡ fits state code (held (seen line rec.now) payment_id) }
{
    match code {
        Code::FileHeader => is_at(state, Place::Start),
        Code::Batch(letter) => may_open_batch(state, letter),
        Code::Detail(letter) => may_open_payment(state, letter),
        Code::Party => may_take_party(state) && is_own(rec, line, state),
        Code::Account => may_take_account(state) && is_own(rec, line, state),
        Code::Procurement => may_take_procurement(state) && is_own(rec, line, state),
        Code::BatchTrailer => is_complete(state),
        Code::FileTrailer => is_at(state, Place::BatchClosed),
        Code::Unknown => false,
    }
}

// Before the first record.
pub fn start() -> State
    ensures { result ≡ start }
{
    State {
        place: Place::Start,
        letter: Letter::N,
        id: [0u8; 20],
        party: false,
        accounts: 0,
        procurements: 0,
        batches: 0,
        payments: 0,
    }
}

fn move_to(state: State, place: Place) -> State
    ensures { result ≡ moved state place }
{
    State { place, ..state }
}

fn open_batch(state: State, letter: Letter) -> State
    requires { state.batches < 65536 }
    ensures { result ≡ in_batch state letter }
{
    State {
        place: Place::BatchOpen,
        letter,
        batches: state.batches + 1,
        ..state
    }
}

// The record's Payment ID (positions 3-22).
fn payment_id(rec: &[u8], line: Line) -> [u8; 20]
    requires { 22 ≤ length rec.now }
    ensures { result ≡ held (seen line rec.now) payment_id }
{
    record::field_array(rec, line, PAYMENT_ID)
}

fn open_payment(rec: &[u8], line: Line, state: State) -> State
    requires { (22 ≤ length rec.now) × (state.payments < 65536) }
    ensures { result ≡ in_payment state (held (seen line rec.now) payment_id) }
{
    State {
        place: Place::PaymentOpen,
        id: payment_id(rec, line),
        party: false,
        accounts: 0,
        procurements: 0,
        payments: state.payments + 1,
        ..state
    }
}

// The open payment with or without a DX, with so many DT and DP.
fn take(state: State, party: bool, accounts: usize, procurements: usize) -> State
    ensures { result ≡ taken state party accounts procurements }
{
    State {
        party,
        accounts,
        procurements,
        ..state
    }
}

// The state after a record that fits.
#[tactic(auto, using(crate::proofs::Arms::arms), unfolding(crate::specs::Reader::next))]
pub fn after(rec: &[u8], line: Line, code: Code, state: State) -> State
    requires { (22 ≤ length rec.now) × (state.batches < 65536) × (state.payments < 65536) × (fits state code (held (seen line rec.now) payment_id) ≡ true) }
    ensures { result ≡ next state code (held (seen line rec.now) payment_id) }
{
    match code {
        Code::FileHeader => move_to(state, Place::FileOpen),
        Code::Batch(letter) => open_batch(state, letter),
        Code::Detail(_) => open_payment(rec, line, state),
        Code::Party => take(state, true, state.accounts, state.procurements),
        Code::Account => take(state, state.party, state.accounts + 1, state.procurements),
        Code::Procurement => take(state, state.party, state.accounts, state.procurements + 1),
        Code::BatchTrailer => move_to(state, Place::BatchClosed),
        Code::FileTrailer => move_to(state, Place::FileClosed),
        Code::Unknown => state,
    }
}
