// The rules of one record (01 Header, Detail, Others).
#![tactic(auto)]

pub mod detail;
pub mod header;
pub mod others;

ghost use Rattle.std.specs.Prelude.{◌≡◌, length};
ghost use Rattle.record.specs.Fields.{check_symbol_number};
ghost use Rattle.record.specs.Value.{seen, held};

use calendar::{Day, Month};
use money::Amount;
use record::Line;
use record::layout::CHECK_SYMBOL_NUMBER;

// Whether a record's code of each kind is in the book (01 Code book, kinds 2 to 7); false where it has none of that kind.
#[derive(Clone, Copy)]
pub struct Codes {
    pub locations: bool,
    pub betcs: bool,
    pub types: bool,
    pub states: bool,
    pub countries: bool,
    pub currencies: bool,
}

// What the rules of a record need to know beside the record: whether its number repeats an earlier one, whether the payer is a CARS
// Reporter, what was looked up, the header's check symbol, first serial number and accounting month, the payments before this record and
// their total; and today, where it is lent.
#[derive(Clone, Copy)]
pub struct Context {
    pub repeats: bool,
    pub reporter: bool,
    pub codes: Codes,
    pub symbol: [u8; 4],
    pub serial: u64,
    pub month: Option<Month>,
    pub payments: u64,
    pub total: Amount,
    pub today: Option<Day>,
}

// A header's check symbol (field 18).
pub fn symbol_of(rec: &[u8], line: Line) -> [u8; 4]
    requires { length rec.now ≡ 850 }
    ensures { result ≡ held (seen line rec.now) check_symbol_number }
{
    if record::field_blank(rec, line, CHECK_SYMBOL_NUMBER) {
        return [0x40; 4];
    }
    record::field_array(rec, line, CHECK_SYMBOL_NUMBER)
}
