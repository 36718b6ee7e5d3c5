// The pass from record to record: what is known after a record, and what one more adds to it (01 File answers, 5, 7 and 13).
ghost use Rattle.std.specs.Prelude.{◌≡◌, true, ◌+◌, ◌≤◌, length, is_some, Some, None};
ghost use Rattle.record.specs.Choice.{choose};
ghost use Rattle.record.specs.Fields.{payment_id};
ghost use Rattle.record.specs.Value.{seen, held};
ghost use Rattle.record.specs.Codes.{code_of};
ghost use Rattle.money.specs.Money.{worth, split, Fit};
ghost use Rattle.nesting.specs.Reader.{fits};
ghost use Rattle.characters.specs.Characters.{clean};
ghost use Rattle.survey.specs.Pass.{detail_cents, begun, stepped, HighIf, Room};

use money::Amount;
use nesting::reader;
use nesting::reader::State;
use record::Line;
use record::codes::{Code, is_detail};
use record::layout::AMOUNT;

// What is known after a record: the reader's state, the first record with a byte below hex 40 outside its fillers, and the exact sum of the
// details.
#[derive(Clone, Copy)]
pub(crate) struct Going {
    pub(crate) state: State,
    pub(crate) unclean: Option<usize>,
    pub(crate) total: Amount,
}

// The first record with a low byte up to this one: the earlier one that is known, or else this one where it has such a byte. A record that is high
// has none, not in its fillers either.
fn note_unclean(
    known: Option<usize>,
    rec: &[u8],
    line: Line,
    code: Code,
    high: bool,
) -> Option<usize>
    requires { (850 ≤ length rec.now) × (code ≡ code_of (seen line rec.now)) × HighIf high (seen line rec.now) }
    ensures { result ≡ choose (is_some known) known (choose (clean (seen line rec.now)) None (Some line.number)) }
{
    if known.is_some() || high || characters::is_clean(rec, line, code) {
        return known;
    }
    Some(line.number)
}

// What the record, which has this code, adds to the sum: its amount where it is a detail (01 File answers, 13).
fn detail_amount(rec: &[u8], line: Line, code: Code) -> Amount
    requires { (850 ≤ length rec.now) × (code ≡ code_of (seen line rec.now)) }
    ensures { result ≡ split (detail_cents (seen line rec.now)) }
{
    if is_detail(code) {
        return money::field_amount(rec, line, AMOUNT);
    }
    Amount { high: 0, low: 0 }
}

// The sum with what this record adds to it.
fn add_detail(sum: Amount, rec: &[u8], line: Line, code: Code) -> Amount
    requires { (850 ≤ length rec.now) × (code ≡ code_of (seen line rec.now)) × Fit sum (split (detail_cents (seen line rec.now))) }
    ensures { result ≡ split (worth sum + detail_cents (seen line rec.now)) }
{
    money::plus(sum, detail_amount(rec, line, code))
}

// Before the first record.
pub(crate) fn start() -> Going
    ensures { result ≡ begun }
{
    Going {
        state: reader::start(),
        unclean: None,
        total: Amount { high: 0, low: 0 },
    }
}

// After one record more, which has this code and fits.
pub(crate) fn step(rec: &[u8], line: Line, code: Code, high: bool, going: Going) -> Going
    requires { (850 ≤ length rec.now) × (line.number ≤ 65535) × (code ≡ code_of (seen line rec.now)) × (fits going.state code (held (seen line rec.now) payment_id) ≡ true) × HighIf high (seen line rec.now) × Room line.number going }
    ensures { result ≡ stepped line.number (seen line rec.now) going }
{
    Going {
        state: reader::after(rec, line, code, going.state),
        unclean: note_unclean(going.unclean, rec, line, code, high),
        total: add_detail(going.total, rec, line, code),
    }
}
