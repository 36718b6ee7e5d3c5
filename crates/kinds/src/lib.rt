// The kinds of TAS/BETC of a batch (02 W1; 004 section 2.5): whether its DT have more than 1,000 different ones.
#![tactic(auto)]

ghost use Rattle.std.specs.Prelude.{◌≡◌, ◌+◌, ◌*◌, ◌/◌, ◌<◌, ◌≤◌, length};
ghost use Rattle.record.specs.Choice.{choose};
ghost use Rattle.record.specs.Value.{seen};
ghost use Rattle.record.specs.Codes.{code_of};
ghost use Rattle.nesting.specs.Records.{cut, record_at};
ghost use Rattle.tables.specs.declared.Key.TheVariants.{Kind};
ghost use Rattle.tables.specs.Tables.{Stands, Tabled};
ghost use Rattle.kinds.specs.Kinds.{is_account, kinds, crowded};
ghost use Rattle.kinds.specs.Counting.{counted, table_counted};

use record::Line;
use record::codes::{Code, code_bytes, code_of};
use tables::{Key, Table};

// The kinds that a batch may have.
pub const MOST: usize = 1000;

// The places of the table: one more, for the first kind too many.
const ROOM: usize = MOST + 1;

// The code is DT.
fn is_account(code: Code) -> bool
    ensures { result ≡ is_account code }
{
    matches!(code, Code::Account)
}

// The record at the place is a DT.
fn has_kind(file: &[u8], first: Line, place: usize) -> bool
    requires { Stands first.number place file.now }
    ensures { result ≡ is_account (code_of (record_at first.number place (seen first file.now))) }
{
    let at = place * 850;
    let end = at + 850;
    let number = first.number + place;
    let ascii = first.ascii;
    let code = code_of(code_bytes(&file[at..end], Line { number, ascii }));
    is_account(code)
}

// The kinds so far, with the record at the place: a DT of a kind that the table lacks is entered.
fn count(file: &[u8], first: Line, place: usize, table: &mut Table<ROOM>)
    requires { Tabled first.number Kind (seen first file.now) table.old.places table.old.count × Stands first.number place file.now × (place < 65536) × (table.old.count < length table.old.places) }
    ensures more { table.new.count ≡ counted first.number (seen first file.now) table.old.places table.old.count place }
    ensures after { table.new.places ≡ table_counted first.number (seen first file.now) table.old.places table.old.count place }
{
    if has_kind(file, first, place) {
        table.enter(file, first, place, Key::Kind);
    }
}

// The DT of the records have too many kinds. The pass ends at the first kind too many.
pub fn are_crowded(part: &[u8], first: Line) -> bool
    requires { (length part.now ≤ 65535 * 850) × (first.number ≤ 65536) }
    ensures { result ≡ crowded (kinds (cut first.number (length (seen first part.now) / 850) (seen first part.now))) }
{
    let records = part.len() / 850;
    let mut table: Table<ROOM> = Table::new();
    for place in 0..records {
        count(part, first, place, &mut table);
        if MOST < table.count() {
            return true;
        }
    }
    false
}
