// Changes of bytes by the words of a row. Positions count from 1, as in 004.
ghost use Rattle.std.specs.Prelude.{◌≡◌, ◌+◌, ◌-◌, ◌*◌, ◌≤◌, ◌<◌, if◌then◌else◌, nat_eq, length};

use crate::files::{File, Record};
use crate::words::{Words, digit};

// Where a record's bytes up to this position end.
pub fn end_of(number: usize, position: usize) -> usize
    requires { (number < 1000000) × (position < 1000000) }
    ensures { result ≡ (if nat_eq number 0 then 0 else (number - 1) * 850 + position) }
{
    if number == 0 {
        return 0;
    }
    (number - 1) * 850 + position
}

// Writes the bytes that the pairs of digits say over the front of a part, as far as it goes.
fn write_pairs(part: &mut [u8], pairs: &[[u8; 2]]) {
    for (byte, [high, low]) in part.iter_mut().zip(pairs) {
        *byte = digit(*high) * 16 + digit(*low);
    }
}

// Writes the first so many bytes of a part over what stands behind them, again and again.
fn repeat(part: &mut [u8], width: usize)
    requires { 0 < width }
{
    for i in width..part.len() {
        part[i] = part[i - width];
    }
}

// Writes the bytes that a word says in hexadecimal over the space between these places, again and again.
pub fn overwrite(space: &mut [u8], from: usize, to: usize, word: &[u8])
    ensures { length space.new ≡ length space.old }
{
    let (pairs, _) = word.as_chunks::<2>();
    let end = to.min(space.len());
    if from < end && !pairs.is_empty() {
        let part = &mut space[from..end];
        write_pairs(part, pairs);
        repeat(part, pairs.len());
    }
}

// The same in records, whose bytes are counted from the first.
fn overwrite_records(records: &mut [Record], from: usize, to: usize, word: &[u8]) {
    overwrite(records.as_flattened_mut(), from, to, word);
}

// Changes the file by the next words: a record's number, the first and the last position, and the bytes for them.
pub fn change_record<const MOST: usize, const BELOW: usize>(
    file: &mut File<'_, MOST>,
    words: &mut Words<'_, BELOW>,
)
    ensures file { file.new.count ≡ file.old.count }
    ensures shorter { length words.new.rest.now ≤ length words.old.rest.now }
{
    let number = words.next_number();
    let first = words.next_number();
    let last = words.next_number();
    let bytes = words.next_word().unwrap_or(&[]);
    if first > 0 {
        let space = &mut *file.space;
        overwrite_records(
            space,
            end_of(number, first - 1),
            end_of(number, last),
            bytes,
        );
    }
}
