// Whether a book is sound, and where its sections stand: one walk from the front, linear in the book.
ghost use Rattle.std.specs.Prelude.{◌≡◌, ◌≤◌, ◌<◌, ◌+◌, length, take, drop, IfSome};
ghost use Rattle.book.specs.declared.Section.{Section};
ghost use Rattle.book.specs.Book.{entry_code, ascend, entries_at, past, Opened};
ghost use Rattle.record.specs.Ordering.{order, is_before};
ghost use Rattle.book.specs.Reading.{size_at, kind_at, flags, framed, sound_in, Readable, Kinded, Framed, section_at};

use crate::{Book, Kind, LENT, Section};
use record::{Field, Justification};
use std::cmp::Ordering;

// The kinds of document 01: number, bytes of a code, bytes of an entry.
const SYSTEMS: Kind = Kind {
    number: 1,
    code: 40,
    entry: 40,
};

const LOCATIONS: Kind = Kind {
    number: 2,
    code: 8,
    entry: 9,
};

const BETCS: Kind = Kind {
    number: 3,
    code: 8,
    entry: 9,
};

const TYPES: Kind = Kind {
    number: 4,
    code: 25,
    entry: 25,
};

const STATES: Kind = Kind {
    number: 5,
    code: 2,
    entry: 2,
};

const COUNTRIES: Kind = Kind {
    number: 6,
    code: 2,
    entry: 2,
};

const CURRENCIES: Kind = Kind {
    number: 7,
    code: 3,
    entry: 3,
};

// The length that a section at `at` begins with: four bytes.
fn size_at(book: &[u8], at: usize) -> usize
    requires { at + 4 ≤ length book.now }
    ensures { (result ≡ size_at book.now at) × (result < 4294967296) }
{
    let end = at + 4;
    numbers::read(&book[at..end]) as usize
}

// The kind of a section at `at`: two bytes behind its length.
fn kind_at(book: &[u8], at: usize) -> usize
    requires { at + 6 ≤ length book.now }
    ensures { result ≡ kind_at book.now at }
{
    let start = at + 4;
    let end = at + 6;
    numbers::read(&book[start..end]) as usize
}

// The frame of a section of the kind stands at `at`.
fn is_framed(book: &[u8], at: usize, kind: Kind) -> bool
    requires { Readable book.now at × Kinded kind }
    ensures { result ≡ framed book.now at kind }
{
    if book.len() < at + 6 {
        return false;
    }
    if kind_at(book, at) != kind.number {
        return false;
    }
    let size = size_at(book, at);
    if size < 2 {
        return false;
    }
    if book.len() < at + 4 + size {
        return false;
    }
    (size - 2) % kind.entry == 0
}

// Every flag of the section is 0 or 1.
fn has_flags(book: &[u8], section: Section) -> bool
    requires { Framed book.now section }
    ensures { result ≡ flags section.code (entries_at book.now section) }
{
    if section.code == section.entry {
        return true;
    }
    for i in 0..section.count {
        if 1 < book[section.start + i * section.entry + section.code] {
            return false;
        }
    }
    true
}

// The entry at `at` stands before the one after it, by their codes as they are corrected (02 W3). Codes that stand where they belong are held
// against each other eight bytes at a time.
fn is_pair(book: &[u8], at: usize, code: usize, entry: usize) -> bool
    requires { (at + entry + entry ≤ length book.now) × (code ≤ entry) }
    ensures { result ≡ is_before (order (entry_code code (take entry (drop at book.now))) (entry_code code (take entry (drop (at + entry) book.now)))) }
{
    let next = at + entry;
    let own = &book[at..next];
    let other = &book[next..next + entry];
    let field = Field {
        start: 1,
        width: code,
        justification: Justification::Text,
    };
    if let Some(here) = record::field_part(own, LENT, field) {
        if let Some(there) = record::field_part(other, LENT, field) {
            return words::is_after(there, here);
        }
    }
    record::fields_order(own, LENT, other, LENT, field) == Ordering::Less
}

// The codes of the section strictly ascend.
fn does_ascend(book: &[u8], section: Section) -> bool
    requires { Framed book.now section }
    ensures { result ≡ ascend section.code (entries_at book.now section) }
{
    for i in 1..section.count {
        if !is_pair(
            book,
            section.start + (i - 1) * section.entry,
            section.code,
            section.entry,
        ) {
            return false;
        }
    }
    true
}

// Flags and order of the section are right.
fn is_sound(book: &[u8], section: Section) -> bool
    requires { Framed book.now section }
    ensures { result ≡ sound_in book.now section }
{
    has_flags(book, section) && does_ascend(book, section)
}

// The section of the kind that stands at `at`; what follows it is in the book too.
fn section_at(book: &[u8], at: usize, kind: Kind) -> Option<Section>
    requires { Readable book.now at × Kinded kind }
    ensures { (result ≡ section_at book.now at kind) × IfSome result (λ (s : Section). Readable book.now (past s)) }
{
    if !is_framed(book, at, kind) {
        return None;
    }
    let section = Section {
        start: at + 6,
        count: (size_at(book, at) - 2) / kind.entry,
        code: kind.code,
        entry: kind.entry,
    };
    if !is_sound(book, section) {
        return None;
    }
    Some(section)
}

// The place after a section.
fn end_of(section: Section) -> usize
    requires { past section ≤ 16777216 }
    ensures { result ≡ past section }
{
    section.start + section.count * section.entry
}

// Where the sections of a sound book stand; none where the bytes are no sound book.
pub fn read_book(book: &[u8]) -> Option<Book>
    ensures { Opened book.now result }
{
    if 16777216 < book.len() {
        return None;
    }
    let systems = section_at(book, 0, SYSTEMS)?;
    let locations = section_at(book, end_of(systems), LOCATIONS)?;
    let betcs = section_at(book, end_of(locations), BETCS)?;
    let types = section_at(book, end_of(betcs), TYPES)?;
    let states = section_at(book, end_of(types), STATES)?;
    let countries = section_at(book, end_of(states), COUNTRIES)?;
    let currencies = section_at(book, end_of(countries), CURRENCIES)?;
    if end_of(currencies) != book.len() {
        return None;
    }
    Some(Book {
        systems,
        locations,
        betcs,
        types,
        states,
        countries,
        currencies,
    })
}
