// Sorted tables of places: records in ascending order of a key, each value once. A table lies with the caller, of any size; `Table` has its count
// with it.
#![tactic(auto)]

mod kind;

ghost use Rattle.std.specs.Prelude.{◌≡◌, ◌+◌, ◌*◌, ◌<◌, ◌≤◌, length, MatchResult, is_ok};
ghost use Rattle.record.specs.Value.{seen};
ghost use Rattle.record.specs.Ordering.{order};
ghost use Rattle.tables.specs.Tables.{Stands, InRecord, Tabled, value_at, kept, member, rank, inserted_at, entry_of, count_after, table_after};

use record::{Field, Line};
use std::cmp::Ordering;

// What became of a record: the table held its value before; its place was entered; or the table has no room for it.
#[derive(Clone, Copy, PartialEq, Eq)]
pub enum Entry {
    Known,
    New,
    Full,
}

// What a table is ordered by: what a field of the records holds, or the kind of a DT. It is data, not a switch: a value of a key has its field.
#[derive(Clone, Copy)]
pub enum Key {
    Value(Field),
    Kind,
}

// How the value of the record at one place stands to that of the record at another.
fn compare(file: &[u8], first: Line, place: usize, other: usize, key: Key) -> Ordering
    requires { Stands first.number place file.now × Stands first.number other file.now × InRecord key }
    ensures { result ≡ order (value_at first.number key (seen first file.now) place) (value_at first.number key (seen first file.now) other) }
{
    let from = place * 850;
    let to = from + 850;
    let number = first.number + place;
    let at = other * 850;
    let end = at + 850;
    let own = first.number + other;
    let ascii = first.ascii;
    let line = Line { number, ascii };
    let other_line = Line { number: own, ascii };
    let rec = &file[from..to];
    let other_rec = &file[at..end];
    match key {
        Key::Value(field) => record::fields_order(rec, line, other_rec, other_line, field),
        Key::Kind => kind::kind_order(rec, line, other_rec, other_line),
    }
}

// What became of a record, and how many places the table holds after it.
#[derive(Clone, Copy, PartialEq, Eq)]
pub struct Entered {
    pub entry: Entry,
    pub count: usize,
}

// Where the record's value stands among the first `count` places of the table, or else where it would stand: binary search.
// The halving stands here: `binary_search_by` asks for a closure that is safe at any place, and `compare` is so only at places of whole records.
fn seek(
    file: &[u8],
    first: Line,
    place: usize,
    key: Key,
    table: &[u16],
    count: usize,
) -> Result<usize, usize>
    requires { Tabled first.number key (seen first file.now) table.now count × Stands first.number place file.now × InRecord key }
    ensures at { MatchResult result (λ at. at ≡ rank (value_at first.number key (seen first file.now) place) (kept first.number key (seen first file.now) table.now count)) (λ at. at ≡ rank (value_at first.number key (seen first file.now) place) (kept first.number key (seen first file.now) table.now count)) }
    ensures taken { is_ok result ≡ member (value_at first.number key (seen first file.now) place) (kept first.number key (seen first file.now) table.now count) }
{
    let mut low: usize = 0;
    let mut high = count;
    while low < high {
        let middle = low + (high - low) / 2;
        let other = table[middle] as usize;
        match compare(file, first, other, place, key) {
            Ordering::Less => {
                low = middle + 1;
            }
            Ordering::Greater => {
                high = middle;
            }
            Ordering::Equal => {
                return Ok(middle);
            }
        }
    }
    Err(low)
}

// Puts the place into the table at the seat; the places from there on move up.
fn insert(table: &mut [u16], count: usize, seat: usize, place: usize)
    requires { (count < length table.old) × (length table.old ≤ 65536) × (seat ≤ count) × (place < 65536) }
    ensures { table.new ≡ inserted_at table.old count seat place }
{
    table.copy_within(seat..count, seat + 1);
    table[seat] = place as u16;
}

// Enters the record at the place into the first `count` places of a table that is lent, unless its value is there already or the table is full.
pub fn enter(
    file: &[u8],
    first: Line,
    place: usize,
    key: Key,
    table: &mut [u16],
    count: usize,
) -> Entered
    requires { Tabled first.number key (seen first file.now) table.old count × Stands first.number place file.now × (place < 65536) × InRecord key }
    ensures answer { (result.entry ≡ entry_of first.number key (seen first file.now) table.old count place) × (result.count ≡ count_after first.number key (seen first file.now) table.old count place) }
    ensures after { table.new ≡ table_after first.number key (seen first file.now) table.old count place }
{
    let Err(seat) = seek(file, first, place, key, table, count) else {
        return Entered {
            entry: Entry::Known,
            count,
        };
    };
    if count < table.len() {
        insert(table, count, seat, place);
        return Entered {
            entry: Entry::New,
            count: count + 1,
        };
    }
    Entered {
        entry: Entry::Full,
        count,
    }
}

// A table with its count: the places of records, the first `count` of them, in ascending order of what the table is ordered by.
#[derive(Clone, Copy)]
pub struct Table<const N: usize> {
    places: [u16; N],
    count: usize,
}

impl<const N: usize> Table<N> {
    // A table that holds nothing.
    pub fn new() -> Table<N>
        ensures none { result.count ≡ 0 }
        ensures size { length result.places ≡ N }
    {
        Table {
            places: [0; N],
            count: 0,
        }
    }

    // How many places the table holds.
    pub fn count(&self) -> usize
        ensures { result ≡ self.now.count }
    {
        self.count
    }

    // Enters the record at the place, unless its value is there already or the table is full.
    pub fn enter(&mut self, file: &[u8], first: Line, place: usize, key: Key) -> Entry
        requires { Tabled first.number key (seen first file.now) self.old.places self.old.count × Stands first.number place file.now × (place < 65536) × InRecord key }
        ensures answer { result ≡ entry_of first.number key (seen first file.now) self.old.places self.old.count place }
        ensures more { self.new.count ≡ count_after first.number key (seen first file.now) self.old.places self.old.count place }
        ensures after { self.new.places ≡ table_after first.number key (seen first file.now) self.old.places self.old.count place }
    {
        let Table { places, count } = self;
        let entered = enter(file, first, place, key, places, *count);
        *count = entered.count;
        entered.entry
    }
}
