// Changes of a case beside those of a record's bytes: digits of a record, and bytes of the code book.
ghost use Rattle.std.specs.Prelude.{◌≡◌, ◌≤◌, length};

use crate::case::Words;
use crate::files::MOST;
use cases::changes;
use cases::files::{File, Record};
use cases::words::digit;

// The first and the last byte of the code book, and the bytes for them.
pub(crate) fn change_book(book: &mut [u8], words: &mut Words<'_>)
    ensures { length words.new.rest.now ≤ length words.old.rest.now }
{
    let first = words.next_number();
    let last = words.next_number();
    let bytes = words.next_word().unwrap_or(&[]);
    if first > 0 {
        changes::overwrite(book, first - 1, last, bytes);
    }
}

// Writes decimal digits over a part of the file.
fn write_digits(part: &mut [u8], digits: &[u8]) {
    for (byte, x) in part.iter_mut().zip(digits) {
        *byte = 0xF0 + digit(*x);
    }
}

// Writes decimal digits over the bytes of the records that end here, where they have so many.
fn write_up_to(bytes: &mut [u8], end: usize, digits: &[u8]) {
    if digits.len() <= end && end <= bytes.len() {
        write_digits(&mut bytes[end - digits.len()..end], digits);
    }
}

fn write_in_records(records: &mut [Record], end: usize, digits: &[u8]) {
    write_up_to(records.as_flattened_mut(), end, digits);
}

// A record, a position, and the digits that end there.
pub(crate) fn change_digits(file: &mut File<'_, MOST>, words: &mut Words<'_>)
    ensures file { file.new.count ≡ file.old.count }
    ensures shorter { length words.new.rest.now ≤ length words.old.rest.now }
{
    let number = words.next_number();
    let last = words.next_number();
    let digits = words.next_word().unwrap_or(&[]);
    let space = &mut *file.space;
    write_in_records(space, changes::end_of(number, last), digits);
}
