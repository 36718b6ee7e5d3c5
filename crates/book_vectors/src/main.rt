// Shows of each book on standard input whether it is sound, and what a lookup of 40 bytes finds in each of its sections.
// Before each book stand its length, four little-endian bytes, and the 40 bytes.
#![tactic(auto)]

ghost use Rattle.std.specs.Prelude.{◌≤◌};
ghost use Rattle.book.specs.Book.{Shelved, Usable};

use book::{Book, Section, reading, search};
use loading::Parts;
use record::{Field, Justification, Line};

// The most books that are shown.
const MOST: usize = 10000;

// The most bytes of a book.
const SPACE: usize = 65536;

// How a query is read: it is no record of a file.
const LINE: Line = Line {
    number: 0,
    ascii: false,
};

// A number and a blank. What standard output does not take of a line is left out, and the rest of the line follows.
fn show(rt: &impl Print, number: usize) {
    let _ = print!(rt; "{number}");
    let _ = print!(rt; " ");
}

// The entries of a section, the length of the one whose code the query begins with, and its flag.
fn show_section(rt: &impl Print, book: &[u8], section: Section, query: &[u8; 40], width: usize)
    requires { Shelved book.now section × (width ≤ 40) }
{
    let field = Field {
        start: 1,
        width,
        justification: Justification::Text,
    };
    let entry = search::find(book, section, query, LINE, field).unwrap_or(&[]);
    show(rt, section.count);
    show(rt, entry.len());
    show(rt, usize::from(search::flag(entry)));
}

fn show_sections(rt: &impl Print, book: &[u8], found: Book, query: &[u8; 40])
    requires { Usable book.now found }
{
    show_section(rt, book, found.systems, query, 40);
    show_section(rt, book, found.locations, query, 8);
    show_section(rt, book, found.betcs, query, 8);
    show_section(rt, book, found.types, query, 25);
    show_section(rt, book, found.states, query, 2);
    show_section(rt, book, found.countries, query, 2);
    show_section(rt, book, found.currencies, query, 3);
}

fn show_book(rt: &impl Print, book: &[u8], query: &[u8; 40]) {
    match reading::read_book(book) {
        Some(found) => {
            let _ = print!(rt; "sound ");
            show_sections(rt, book, found, query);
        }
        None => {
            let _ = print!(rt; "unsound ");
        }
    }
    let _ = println!(rt;);
}

// Reads a book. Where standard input ends within it, its other bytes are zeros.
fn read_next(book: &mut [u8]) {
    let count = loading::read_input(book);
    book[count..].fill(0);
}

// Reads the book behind its length, and shows it where the space holds it.
fn show_next(rt: &impl Print, head: [u8; 4], space: &mut [u8]) {
    let size = numbers::read(&head) as usize;
    let mut query = [0; 40];
    loading::read_input(&mut query);
    if let Some(book) = space.get_mut(..size) {
        read_next(book);
        show_book(rt, book, &query);
    }
}

// Books one after the other, in one space.
fn show_books(rt: &impl Print) {
    let mut space = [0; SPACE];
    for head in (Parts::<4> { most: MOST }) {
        show_next(rt, head, &mut space);
    }
}

fn main(rt: HostRuntime) {
    show_books(&rt);
}
