// Where a field's value stands in its record, and the leaves that read it there.
ghost use Rattle.std.specs.Prelude.{◌≡◌, true, not, [], ◌∷◌, leb, eqb, ℕ, ◌-◌, ◌<◌, ◌≤◌, min, max, length, get_or};
ghost use Rattle.std.proofs.Math.Seq.{slice};
ghost use Rattle.record.specs.Value.{Has};
ghost use Rattle.page.specs.CodePage.{twins};
ghost use Rattle.record.specs.Choice.{◌and◌, choose};
ghost use Rattle.record.specs.Place.{Within, value, sent, near, least_printable, PlaceOf, WholeOf};
ghost use Rattle.record.specs.Tests.{only, every, digits, solid, valid, alike};
ghost use Rattle.record.specs.Numeral.{numeral};
ghost use Rattle.record.specs.Ordering.{order};
ghost use Rattle.record.specs.Tests.{least_from};

use crate::{Field, Line};
use page::{translate, translate_all};
use std::cmp::Ordering;

// Where a value stands: its first byte, counted from 0, how many there are, and whether they are ASCII.
#[derive(Clone, Copy)]
pub(crate) struct Place {
    pub start: usize,
    pub width: usize,
    pub ascii: bool,
}

// Where the field's value stands: the one function that looks for it.
pub(crate) fn locate(rec: &[u8], line: Line, field: Field) -> Place
    requires { Has rec.now field }
    ensures { PlaceOf rec.now line field result }
{
    Place {
        start: field.start - 1,
        width: field.width,
        ascii: line.ascii,
    }
}

// The place of all these bytes.
pub(crate) fn whole(bytes: &[u8]) -> Place
    ensures { WholeOf bytes.now result }
{
    Place {
        start: 0,
        width: bytes.len(),
        ascii: false,
    }
}

// The value's byte at `i`, as it was sent.
pub(crate) fn sent_byte(rec: &[u8], place: Place, i: usize) -> u8
    requires { Within rec.now place × (i < place.width) }
    ensures { result ≡ get_or (sent rec.now place) i 0 }
{
    rec[place.start + i]
}

// The bytes at the place, as they were sent.
fn sent(rec: &[u8], place: Place) -> &[u8]
    requires { Within rec.now place }
    ensures { (result.now ≡ sent rec.now place) × (length result.now ≡ place.width) }
{
    &rec[place.start..place.start + place.width]
}

// Copies the bytes at the place, as they were sent. `copy_from_slice` would call memmove, which the C interface does not ask of its caller.
pub(crate) fn copy_sent(rec: &[u8], place: Place, to: &mut [u8])
    requires { Within rec.now place × (length to.old ≡ place.width) }
    ensures { to.new ≡ sent rec.now place }
{
    let bytes = sent(rec, place);
    for (i, byte) in to.iter_mut().enumerate() {
        *byte = bytes[i];
    }
}

// Copies the value.
pub(crate) fn copy(rec: &[u8], place: Place, to: &mut [u8])
    requires { Within rec.now place × (length to.old ≡ place.width) }
    ensures { to.new ≡ value rec.now place }
{
    copy_sent(rec, place, to);
    if place.ascii {
        translate_all(to);
    }
}

// What a byte of the value that is seen as `b` was sent as: in ASCII as `ascii`.
pub(crate) fn sent_as(place: Place, b: u8, ascii: u8) -> u8
    ensures { result ≡ choose place.ascii ascii b }
{
    if place.ascii { ascii } else { b }
}

// The value's byte at `i` is `b`, which ASCII files send as `ascii`: no byte is translated.
pub(crate) fn is_byte(rec: &[u8], place: Place, i: usize, b: u8, ascii: u8) -> bool
    requires { Within rec.now place × (i < place.width) × (twins (ascii ∷ []) (b ∷ []) ≡ true) }
    ensures { result ≡ eqb (get_or (value rec.now place) i 0) b }
{
    let wanted = sent_as(place, b, ascii);
    sent_byte(rec, place, i) == wanted
}

// Every byte of the value is `b`, which ASCII files send as `ascii`: no byte is translated.
pub(crate) fn is_only(rec: &[u8], place: Place, b: u8, ascii: u8) -> bool
    requires { Within rec.now place × (twins (ascii ∷ []) (b ∷ []) ≡ true) }
    ensures { result ≡ only b (value rec.now place) }
{
    let wanted = sent_as(place, b, ascii);
    sent(rec, place).iter().all(|byte| *byte == wanted)
}

// No byte of the value is blank: no byte is translated.
pub(crate) fn is_solid(rec: &[u8], place: Place) -> bool
    requires { Within rec.now place }
    ensures { result ≡ solid (value rec.now place) }
{
    let blank = sent_as(place, 0x40, 0x20);
    sent(rec, place).iter().all(|byte| *byte != blank)
}

// The bytes are near this zero: a reduction with no early exit, which the compiler turns into vector code.
fn are_near(bytes: &[u8], zero: u8) -> bool
    ensures { result ≡ every (near zero) bytes.now }
{
    bytes
        .iter()
        .fold(0, |farthest: u8, byte| farthest.max(*byte ^ zero))
        <= 9
}

// The bytes from `from` up to `to` are digits: no byte is translated.
pub(crate) fn are_digits(rec: &[u8], place: Place, from: usize, to: usize) -> bool
    requires { Within rec.now place × (from ≤ to) × (to ≤ place.width) }
    ensures { result ≡ digits (slice from to (value rec.now place)) }
{
    let zero = sent_as(place, 0xF0, 0x30);
    are_near(&sent(rec, place)[from..to], zero)
}

// The number that the digits from `from` up to `to` write.
pub(crate) fn number(rec: &[u8], place: Place, from: usize, to: usize) -> u64
    requires { Within rec.now place × (from ≤ to) × (to ≤ place.width) × (to - from ≤ 18) × (digits (slice from to (value rec.now place)) ≡ true) }
    ensures { result ≡ numeral (slice from to (value rec.now place)) }
{
    let mut sum = 0;
    for byte in &sent(rec, place)[from..to] {
        sum = sum * 10 + u64::from(*byte % 16);
    }
    sum
}

// The least byte, or hex FF where there is none: a reduction with no early exit, which the compiler turns into vector code.
fn least_byte(bytes: &[u8]) -> u8
    ensures { result ≡ least_from 0xFF bytes.now }
{
    bytes.iter().fold(0xFF, |least: u8, byte| least.min(*byte))
}

// The byte, or 0 where it is above 7E.
fn printable(b: u8) -> u8
    ensures { result ≡ choose (leb b 0x7E) b 0 }
{
    if b <= 0x7E { b } else { 0 }
}

// The least byte, those above 7E taken for 0: the same of ASCII. As a fold over the bytes it does not become vector code.
fn least_printable(bytes: &[u8]) -> u8
    ensures { result ≡ least_printable 0xFF bytes.now }
{
    let mut least = 0xFF;
    for byte in bytes {
        least = printable(*byte).min(least);
    }
    least
}

// No byte of the value is below hex 40: in ASCII, all are 20 to 7E.
pub(crate) fn is_valid(rec: &[u8], place: Place) -> bool
    requires { Within rec.now place }
    ensures { result ≡ valid (value rec.now place) }
{
    if place.ascii {
        return 0x20 <= least_printable(sent(rec, place));
    }
    0x40 <= least_byte(sent(rec, place))
}

// The text that is sent: the second in ASCII.
fn sent_text<'a>(place: Place, text: &'a [u8], ascii: &'a [u8]) -> &'a [u8]
    ensures { result.now ≡ choose place.ascii ascii.now text.now }
{
    if place.ascii { ascii } else { text }
}

// The value is this text, which is sent so in ASCII: no byte is translated.
pub(crate) fn is_text<'a>(rec: &[u8], place: Place, text: &'a [u8], ascii: &'a [u8]) -> bool
    requires { Within rec.now place × (twins ascii.now text.now ≡ true) }
    ensures { result ≡ alike (value rec.now place) text.now }
{
    sent(rec, place) == sent_text(place, text, ascii)
}

// How the first bytes stand to the second in the order of bytes, as they were sent. The slices' own `cmp` is a call at each step of a search.
#[inline(always)]
pub(crate) fn sent_order(rec: &[u8], place: Place, other: &[u8], there: Place) -> Ordering
    requires { Within rec.now place × Within other.now there }
    ensures { result ≡ order (sent rec.now place) (sent other.now there) }
{
    let bytes = sent(rec, place);
    let others = sent(other, there);
    for (byte, beside) in bytes.iter().zip(others) {
        match byte.cmp(beside) {
            Ordering::Equal => {}
            apart => return apart,
        }
    }
    bytes.len().cmp(&others.len())
}

// How the first value stands to the second in the order of bytes, both ASCII: bytes that were sent alike are not translated.
pub(crate) fn ascii_order(rec: &[u8], place: Place, other: &[u8], there: Place) -> Ordering
    requires { Within rec.now place × Within other.now there × (place.ascii ≡ true) × (there.ascii ≡ true) }
    ensures { result ≡ order (value rec.now place) (value other.now there) }
{
    let bytes = sent(rec, place);
    let others = sent(other, there);
    for (byte, beside) in bytes.iter().zip(others) {
        if byte != beside {
            match translate(*byte).cmp(&translate(*beside)) {
                Ordering::Equal => {}
                apart => return apart,
            }
        }
    }
    bytes.len().cmp(&others.len())
}

// The bytes are the same, as they were sent.
pub(crate) fn sent_same(rec: &[u8], place: Place, other: &[u8], there: Place) -> bool
    requires { Within rec.now place × Within other.now there }
    ensures { result ≡ alike (sent rec.now place) (sent other.now there) }
{
    sent(rec, place) == sent(other, there)
}
