// Lookup by binary search: the entry is handed back as a part of the book.
ghost use Rattle.std.specs.Prelude.{◌≡◌, ◌≤◌, length, option_copied};
ghost use Rattle.record.specs.Value.{Has, seen, held};
ghost use Rattle.book.specs.Book.{Shelved, entries_at, entry_for, flag_of, listing, section_at};

use crate::{LENT, Section};
use record::{Field, Justification, Line};
use std::cmp::Ordering;

// The entry whose code is the value. The library's `binary_search_by` works on a slice of entries, and the section is bytes whose entry is as wide as
// its kind says, so the halving stands here.
#[inline(always)]
fn find_value<'a>(book: &'a [u8], section: Section, value: &[u8]) -> Option<&'a [u8]>
    requires { Shelved book.now section }
    ensures { option_copied result ≡ entry_for section.code (entries_at book.now section) value.now }
{
    let code = Field {
        start: 1,
        width: section.code,
        justification: Justification::Text,
    };
    let mut low = 0;
    let mut high = section.count;
    while low < high {
        let middle = low + (high - low) / 2;
        let at = section.start + middle * section.entry;
        let entry = &book[at..at + section.entry];
        match record::field_order(entry, LENT, code, value) {
            Ordering::Less => {
                low = middle + 1;
            }
            Ordering::Greater => {
                high = middle;
            }
            Ordering::Equal => {
                return Some(entry);
            }
        }
    }
    None
}

// The entry whose code the field holds, in the section of these numbers. A code that has to be translated or moved is copied first, so that this is
// done once and not for each entry it is compared with. The section comes as its numbers: lent as a whole it would keep the book's struct in memory,
// and a copy of it at every call on the way here.
fn find_in<'a>(
    book: &'a [u8],
    start: usize,
    count: usize,
    code: usize,
    entry: usize,
    rec: &[u8],
    line: Line,
    field: Field,
) -> Option<&'a [u8]>
    requires { Shelved book.now (section_at start count code entry) × Has rec.now field × (field.width ≤ 40) }
    ensures { option_copied result ≡ entry_for code (entries_at book.now (section_at start count code entry)) (held (seen line rec.now) field) }
{
    let section = Section {
        start,
        count,
        code,
        entry,
    };
    if let Some(part) = record::field_part(rec, line, field) {
        return find_value(book, section, part);
    }
    let mut copy = [0u8; 40];
    let own = &mut copy[..field.width];
    record::copy_field(rec, line, field, own);
    find_value(book, section, own)
}

// The entry of the section whose code the field holds.
pub fn find<'a>(
    book: &'a [u8],
    section: Section,
    rec: &[u8],
    line: Line,
    field: Field,
) -> Option<&'a [u8]>
    requires { Shelved book.now section × Has rec.now field × (field.width ≤ 40) }
    ensures { option_copied result ≡ entry_for section.code (entries_at book.now section) (held (seen line rec.now) field) }
{
    find_in(
        book,
        section.start,
        section.count,
        section.code,
        section.entry,
        rec,
        line,
        field,
    )
}

// The flag of the entry that was handed back: a CARS Reporter in kind 2, a credit in kind 3.
pub fn flag(entry: &[u8]) -> bool
    ensures { result ≡ flag_of entry.now }
{
    8 < entry.len() && entry[8] == 1
}

// Of a code that the section lists, its entry's flag. Nothing is looked up for a blank field.
pub fn look_up(book: &[u8], section: Section, rec: &[u8], line: Line, field: Field) -> Option<bool>
    requires { Shelved book.now section × Has rec.now field × (field.width ≤ 40) }
    ensures { result ≡ listing section.code (entries_at book.now section) (held (seen line rec.now) field) }
{
    if record::field_blank(rec, line, field) {
        return None;
    }
    let entry = find(book, section, rec, line, field)?;
    Some(flag(entry))
}
