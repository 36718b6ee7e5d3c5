// Values that do not stand where they belong (02 W3): where they stand, and the leaves that read them there. What is promised is over the bytes at a
// place and how their justification is corrected.
ghost use Rattle.std.specs.Prelude.{◌≡◌, true, ◌+◌, ◌-◌, ◌<◌, ◌≤◌, length, get_or, drop};
ghost use Rattle.std.proofs.Math.Seq.{slice};
ghost use Rattle.record.specs.declared.Justification.TheVariants.{Number};
ghost use Rattle.record.specs.Correction.{from_first, up_to_last, corrected};
ghost use Rattle.record.specs.Place.{Within, value};
ghost use Rattle.record.specs.Moved.{filled, in_front, in_back, in_place, Fits, moved_sent, moved_value, Found, Deciding, part_of, left_of, right_of};
ghost use Rattle.record.specs.Tests.{digits};
ghost use Rattle.record.specs.Numeral.{numeral};
ghost use Rattle.record.specs.Ordering.{order};

use crate::place::Place;
use crate::{Justification, place};
use page::{translate, translate_all};
use std::cmp::Ordering;

// A value: zeros, a part of the record, and blanks up to the value's width.
#[derive(Clone, Copy)]
pub(crate) struct Moved {
    pub zeros: usize,
    pub kept: Place,
    pub width: usize,
}

// The byte at `i` is no blank.
fn is_filled(rec: &[u8], place: Place, i: usize) -> bool
    requires { Within rec.now place × (i < place.width) }
    ensures { result ≡ filled (get_or (value rec.now place) i 0) }
{
    !place::is_byte(rec, place, i, 0x40, 0x20)
}

// The bytes begin where the value does: only what is fixed may begin with a blank.
fn begins(rec: &[u8], place: Place, justification: Justification) -> bool
    requires { Within rec.now place }
    ensures { result ≡ in_front justification (value rec.now place) }
{
    match justification {
        Justification::Fixed => true,
        _ => place.width > 0 && is_filled(rec, place, 0),
    }
}

// The bytes end where the value does: a number may not end with a blank.
fn ends(rec: &[u8], place: Place, justification: Justification) -> bool
    requires { Within rec.now place }
    ensures { result ≡ in_back justification (value rec.now place) }
{
    match justification {
        Justification::Fixed | Justification::Text => true,
        _ => place.width > 0 && is_filled(rec, place, place.width - 1),
    }
}

// The bytes need no correction, as far as their ends show.
pub(crate) fn stands(rec: &[u8], place: Place, justification: Justification) -> bool
    requires { Within rec.now place }
    ensures { result ≡ in_place justification (value rec.now place) }
{
    begins(rec, place, justification) && ends(rec, place, justification)
}

// How many blanks stand in front.
fn lead(rec: &[u8], place: Place) -> usize
    requires { Within rec.now place }
    ensures { (from_first (value rec.now place) ≡ drop result (value rec.now place)) × (result ≤ place.width) }
{
    for i in 0..place.width {
        if is_filled(rec, place, i) {
            return i;
        }
    }
    place.width
}

// Where what begins at `from` ends, the blanks behind it left out.
fn tail(rec: &[u8], place: Place, from: usize) -> usize
    requires { Within rec.now place × (from ≤ place.width) }
    ensures { (up_to_last (drop from (value rec.now place)) ≡ slice from result (value rec.now place)) × (from ≤ result) × (result ≤ place.width) }
{
    for last in (from..place.width).rev() {
        if is_filled(rec, place, last) {
            return last + 1;
        }
    }
    from
}

// The part of a place from one byte up to another.
fn part(place: Place, from: usize, to: usize) -> Place
    requires { (from ≤ to) × (place.start + from < 18446744073709551616) }
    ensures { result ≡ part_of place from to }
{
    Place {
        start: place.start + from,
        width: to - from,
        ascii: place.ascii,
    }
}

// What stands from `from` on, moved left.
fn move_left(place: Place, from: usize) -> Moved
    requires { (from ≤ place.width) × (place.start + from < 18446744073709551616) }
    ensures { result ≡ left_of place from }
{
    Moved {
        zeros: 0,
        kept: part(place, from, place.width),
        width: place.width,
    }
}

// What stands from `from` up to `to`, moved right and padded with zeros.
fn move_right(place: Place, from: usize, to: usize) -> Moved
    requires { (from ≤ to) × (to ≤ place.width) × (place.start + from < 18446744073709551616) }
    ensures { result ≡ right_of place from to }
{
    Moved {
        zeros: place.width - (to - from),
        kept: part(place, from, to),
        width: place.width,
    }
}

// A number that begins at `from`: one run of digits is padded with zeros, any other shape is moved like text.
fn pad(rec: &[u8], place: Place, from: usize) -> Moved
    requires { Within rec.now place × (from < place.width) × (from_first (value rec.now place) ≡ drop from (value rec.now place)) }
    ensures { Found rec.now place Number result }
{
    let to = tail(rec, place, from);
    if place::are_digits(rec, place, from, to) {
        return move_right(place, from, to);
    }
    move_left(place, from)
}

// The value: the one function that looks for it.
fn find(rec: &[u8], place: Place, justification: Justification) -> Moved
    requires { Within rec.now place }
    ensures { Found rec.now place justification result }
{
    let from = lead(rec, place);
    if from == place.width {
        return move_left(place, 0);
    }
    match justification {
        Justification::Text => move_left(place, from),
        Justification::Number => pad(rec, place, from),
        Justification::Right => {
            let to = tail(rec, place, from);
            move_right(place, from, to)
        }
        Justification::Fixed => move_left(place, 0),
    }
}

// The value's byte at `i`, as it was sent or would have been.
fn sent_byte(rec: &[u8], moved: Moved, i: usize) -> u8
    requires { Fits rec.now moved × (i < moved.width) }
    ensures { result ≡ get_or (moved_sent rec.now moved) i 0 }
{
    let kept = moved.kept;
    if i < moved.zeros {
        return place::sent_as(kept, 0xF0, 0x30);
    }
    let j = i - moved.zeros;
    if j < kept.width {
        return place::sent_byte(rec, kept, j);
    }
    place::sent_as(kept, 0x40, 0x20)
}

// The value's byte at `i`.
fn byte(rec: &[u8], moved: Moved, i: usize) -> u8
    requires { Fits rec.now moved × (i < moved.width) }
    ensures { result ≡ get_or (moved_value rec.now moved) i 0 }
{
    let sent = sent_byte(rec, moved, i);
    if moved.kept.ascii {
        translate(sent)
    } else {
        sent
    }
}

// The part that decides whether every byte of the value passes a test that a zero passes and a blank fails: the value's own bytes, where no blank
// follows them. Where one does, none: the value fails.
pub(crate) fn deciding(rec: &[u8], place: Place, justification: Justification) -> Option<Place>
    requires { Within rec.now place }
    ensures { Deciding rec.now (corrected justification (value rec.now place)) result }
{
    let moved = find(rec, place, justification);
    if moved.zeros + moved.kept.width < moved.width {
        return None;
    }
    Some(moved.kept)
}

// The number that the value's digits from `from` up to `to` write. Zeros count nothing, so that the part's digits are read.
pub(crate) fn number(
    rec: &[u8],
    place: Place,
    justification: Justification,
    from: usize,
    to: usize,
) -> u64
    requires { Within rec.now place × (from ≤ to) × (to ≤ place.width) × (to - from ≤ 18) × (digits (corrected justification (value rec.now place)) ≡ true) }
    ensures { result ≡ numeral (slice from to (corrected justification (value rec.now place))) }
{
    let moved = find(rec, place, justification);
    let begin = from.saturating_sub(moved.zeros);
    let end = to.saturating_sub(moved.zeros);
    place::number(rec, moved.kept, begin, end)
}

// Copies the value as it was sent or would have been.
fn copy_sent(rec: &[u8], moved: Moved, to: &mut [u8])
    requires { Fits rec.now moved × (length to.old ≡ moved.width) }
    ensures { to.new ≡ moved_sent rec.now moved }
{
    for (i, byte) in to.iter_mut().enumerate() {
        *byte = sent_byte(rec, moved, i);
    }
}

// Copies the value.
pub(crate) fn copy(rec: &[u8], place: Place, justification: Justification, to: &mut [u8])
    requires { Within rec.now place × (length to.old ≡ place.width) }
    ensures { to.new ≡ corrected justification (value rec.now place) }
{
    if stands(rec, place, justification) {
        place::copy(rec, place, to);
        return;
    }
    let moved = find(rec, place, justification);
    copy_sent(rec, moved, to);
    if moved.kept.ascii {
        translate_all(to);
    }
}

// How the first value stands to the second in the order of bytes.
fn shown_order(rec: &[u8], moved: Moved, other: &[u8], there: Moved) -> Ordering
    requires { Fits rec.now moved × Fits other.now there }
    ensures { result ≡ order (moved_value rec.now moved) (moved_value other.now there) }
{
    for i in 0..moved.width.min(there.width) {
        match byte(rec, moved, i).cmp(&byte(other, there, i)) {
            Ordering::Equal => {}
            apart => return apart,
        }
    }
    moved.width.cmp(&there.width)
}

// The same of values that are found first, unless both are ASCII and stand where they belong.
pub(crate) fn compare(
    rec: &[u8],
    place: Place,
    justification: Justification,
    other: &[u8],
    there: Place,
    other_justification: Justification,
) -> Ordering
    requires { Within rec.now place × Within other.now there }
    ensures { result ≡ order (corrected justification (value rec.now place)) (corrected other_justification (value other.now there)) }
{
    if place.ascii
        && there.ascii
        && stands(rec, place, justification)
        && stands(other, there, other_justification)
    {
        return place::ascii_order(rec, place, other, there);
    }
    let moved = find(rec, place, justification);
    let beside = find(other, there, other_justification);
    shown_order(rec, moved, other, beside)
}
