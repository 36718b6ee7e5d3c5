// Exact amounts of money: two words, of ten decimal digits and more.
#![tactic(auto)]

ghost use Rattle.std.specs.Prelude.{◌≡◌, eqb, ltb, ◌+◌};
ghost use Rattle.record.specs.Value.{Has, seen, held};
ghost use Rattle.money.specs.Money.{worth, split, cents, Whole, Fit, entered, comes_to};

use record::{Field, Justification, Line};

// high * 10^10 + low cents.
#[derive(Clone, Copy, PartialEq, Eq, PartialOrd, Ord)]
pub struct Amount {
    pub high: u64,
    pub low: u64,
}

// A sum of amounts with signs: what counts positive and what counts negative, apart.
#[derive(Clone, Copy)]
pub struct Signed {
    pub positive: Amount,
    pub negative: Amount,
}

// The amount in a field of twenty digits once they are moved; zero where it is not twenty digits.
fn moved_amount(rec: &[u8], line: Line, field: Field) -> Amount
    requires { Has rec.now field × (field.width ≡ 20) }
    ensures { result ≡ split (cents (held (seen line rec.now) field)) }
{
    if record::field_digits(rec, line, field) {
        let high = record::part_number(rec, line, field, 0, 10);
        let low = record::part_number(rec, line, field, 10, 20);
        return Amount { high, low };
    }
    Amount { high: 0, low: 0 }
}

// The amount in a field of twenty digits; zero where it is not twenty digits. Most amounts have zeros in their upper half, which count nothing. The
// widths are written out so that the loops are unrolled. What has to be moved is asked for last.
pub fn field_amount(rec: &[u8], line: Line, field: Field) -> Amount
    requires { Has rec.now field × (field.width ≡ 20) }
    ensures { result ≡ split (cents (held (seen line rec.now) field)) }
{
    let upper = Field {
        start: field.start,
        width: 10,
        justification: Justification::Fixed,
    };
    if record::field_zeros(rec, line, upper) && record::written_digits(rec, line, field, 10, 20) {
        let low = record::written_number(rec, line, field, 10, 20);
        return Amount { high: 0, low };
    }
    if record::written_digits(rec, line, field, 0, 10)
        && record::written_digits(rec, line, field, 10, 20)
    {
        let high = record::written_number(rec, line, field, 0, 10);
        let low = record::written_number(rec, line, field, 10, 20);
        return Amount { high, low };
    }
    moved_amount(rec, line, field)
}

// The exact sum of two amounts.
pub fn plus(a: Amount, b: Amount) -> Amount
    requires { Fit a b }
    ensures { result ≡ split (worth a + worth b) }
{
    let high = a.high + b.high;
    let low = a.low + b.low;
    if low < 10_000_000_000 {
        return Amount { high, low };
    }
    Amount {
        high: high + 1,
        low: low - 10_000_000_000,
    }
}

// The two amounts are worth the same. `==` under the name by which docs/CONTRACTS.md has it.
pub fn is_equal(a: Amount, b: Amount) -> bool
    requires { Whole a × Whole b }
    ensures { result ≡ eqb (worth a) (worth b) }
{
    a == b
}

// The first amount is worth more than the second. `>` under the name by which docs/CONTRACTS.md has it.
pub fn is_above(a: Amount, b: Amount) -> bool
    requires { Whole a × Whole b }
    ensures { result ≡ ltb (worth b) (worth a) }
{
    a > b
}

// The signed sum with one amount more.
pub fn enter(sum: Signed, negative: bool, a: Amount) -> Signed
    requires { Fit sum.positive a × Fit sum.negative a }
    ensures { result ≡ entered sum negative (worth a) }
{
    if negative {
        return Signed {
            negative: plus(sum.negative, a),
            ..sum
        };
    }
    Signed {
        positive: plus(sum.positive, a),
        ..sum
    }
}

// The signed sum is worth the amount.
pub fn comes_to(sum: Signed, a: Amount) -> bool
    requires { Whole sum.positive × Fit a sum.negative }
    ensures { result ≡ comes_to sum (worth a) }
{
    is_equal(sum.positive, plus(a, sum.negative))
}
