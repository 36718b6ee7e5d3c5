// Files of sound records: FH, one batch, FT. Payments are numbered from 0 in their IDs and, for checks, in field 58, so that IDs differ
// and serials follow each other. Each DT is of a kind of its own.
ghost use Rattle.std.specs.Prelude.{◌≡◌, ◌≤◌};

use cases::files::{AtHand, File};
use cases::words::Shape;
use record::codes::Letter;

// The most records of a file: 1,001 DT in 11 payments take 1,027 records.
pub(crate) const MOST: usize = 1100;

// Writes the place of each DT in its field 81 (positions 31 to 34), which no rule reads: a batch has as many kinds as DT.
fn tell_apart(file: &mut File<'_, MOST>, from: usize, to: usize)
    requires { to ≤ file.old.count }
    ensures { file.new.count ≡ file.old.count }
{
    for place in from..to {
        file.write::<4>(place, 34, place);
    }
}

fn push_payment(
    file: &mut File<'_, MOST>,
    at_hand: AtHand<'_>,
    letter: Letter,
    shape: Shape,
    n: usize,
)
    ensures { file.old.count ≤ file.new.count }
{
    let from = file.count;
    let (first, end) = file.push_payment(at_hand, letter, shape);
    tell_apart(file, first, end);
    file.number::<2>(from, n);
}

fn push_payments(file: &mut File<'_, MOST>, at_hand: AtHand<'_>, letter: Letter, shape: Shape)
    ensures { file.old.count ≤ file.new.count }
{
    for n in 0..shape.payments {
        push_payment(file, at_hand, letter, shape, n);
    }
}

// A file with a sound batch of this letter and shape; without records where it would be too long. Counts and sums have two digits.
pub(crate) fn build(file: &mut File<'_, MOST>, at_hand: AtHand<'_>, letter: Letter, shape: Shape) {
    file.count = 0;
    file.push(at_hand.file_header);
    file.push_header::<2>(at_hand, letter, shape.payments);
    push_payments(file, at_hand, letter, shape);
    if file.count + 2 > MOST {
        file.count = 0;
        return;
    }
    file.push_trailer::<2>(at_hand, letter, shape.payments);
    file.push(at_hand.file_trailer);
}
