// The lent code book (document 01, Code book).
#![tactic(auto)]

pub mod reading;
pub mod search;

use record::Line;

// A book is EBCDIC, whatever the file is, and has no place in it.
const LENT: Line = Line {
    number: 0,
    ascii: false,
};

// A kind of section: its number, the bytes of a code and the bytes of an entry.
#[derive(Clone, Copy)]
pub struct Kind {
    pub number: usize,
    pub code: usize,
    pub entry: usize,
}

// Where a section's entries stand in the book, how many there are, and the bytes of a code and of an entry.
#[derive(Clone, Copy)]
pub struct Section {
    pub start: usize,
    pub count: usize,
    pub code: usize,
    pub entry: usize,
}

// Where the seven sections of a sound book stand.
#[derive(Clone, Copy)]
pub struct Book {
    pub systems: Section,
    pub locations: Section,
    pub betcs: Section,
    pub types: Section,
    pub states: Section,
    pub countries: Section,
    pub currencies: Section,
}
