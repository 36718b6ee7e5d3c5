// Files of sound records: FH, batches, FT. Batches and the payments of a batch are numbered from 0 in their schedule numbers and IDs
// and, for checks, in fields 19 and 58: numbers differ, and serials follow each other. All DT are of one kind.
ghost use Rattle.std.specs.Prelude.{◌≡◌, ◌+◌, ◌%◌, ◌≤◌, ◌<◌, ◌↔◌, IsTrue};
ghost use Rattle.examples.specs.Sized.{Sized};

use cases::files::{AtHand, File, Record};
use cases::words::Shape;
use record::codes::Letter;

// The most records of a file: 1,200 payments of a detail, a DX and a DT take 3,604 records.
pub(crate) const MOST: usize = 3700;

// A file between FH and FT, and its payments and batches so far. FT's numbers have four digits here.
#[derive(Drop)]
pub(crate) struct Made<'a> {
    pub(crate) file: File<'a, MOST>,
    pub(crate) payments: usize,
    pub(crate) batches: usize,
    ghost sized: { Sized file.count payments batches },
}

// The payments of a batch. IDs have the batch's number in the hundreds, and the payment's from there on.
fn push_payments(
    file: &mut File<'_, MOST>,
    at_hand: AtHand<'_>,
    letter: Letter,
    shape: Shape,
    batch: usize,
)
    ensures { file.old.count ≤ file.new.count }
{
    for n in 0..shape.payments {
        let from = file.count;
        file.push_payment(at_hand, letter, shape);
        file.number::<4>(from, batch % 100 * 100 + n % 10000);
    }
}

// Puts a sound batch where FT stands, and FT after it, and answers whether that fits. Where it doesn't, the file has as many records as before.
fn put_batch(
    file: &mut File<'_, MOST>,
    at_hand: AtHand<'_>,
    letter: Letter,
    shape: Shape,
    batch: usize,
) -> bool
    requires { 1 ≤ file.old.count }
    ensures kept { file.old.count ≤ file.new.count }
    ensures more { IsTrue result ↔ file.old.count < file.new.count }
{
    let before = file.count;
    let header = before - 1;
    file.count = header;
    file.push_header::<4>(at_hand, letter, shape.payments);
    file.write::<2>(header, 12, batch);
    file.write::<2>(header, 108, batch);
    push_payments(file, at_hand, letter, shape, batch);
    if file.count + 2 > MOST {
        file.count = before;
        return false;
    }
    file.push_trailer::<4>(at_hand, letter, shape.payments);
    file.push(at_hand.file_trailer);
    true
}

// The count of records (103) and of payments (104), and the sum of the payments (105), in FT.
fn write_end(file: &mut File<'_, MOST>, payments: usize)
    requires { 1 ≤ file.old.count }
    ensures { file.new.count ≡ file.old.count }
{
    let place = file.count - 1;
    let records = file.count;
    file.write::<4>(place, 20, records);
    file.write::<4>(place, 38, payments);
    file.write::<4>(place, 56, payments);
}

// FH and FT, and nothing else.
fn put_frame(file: &mut File<'_, MOST>, at_hand: AtHand<'_>)
    ensures { 2 ≤ file.new.count }
{
    file.count = 0;
    file.push(at_hand.file_header);
    file.push(at_hand.file_trailer);
    write_end(file, 0);
}

impl<'a> Made<'a> {
    // A file with no batch, in this space.
    pub(crate) fn new(space: &'a mut [Record; MOST], at_hand: AtHand<'_>) -> Made<'a> {
        let mut file = File::new(space);
        put_frame(&mut file, at_hand);
        Made {
            file,
            payments: 0,
            batches: 0,
        }
    }

    // The same space with no batch.
    pub(crate) fn restart(&mut self, at_hand: AtHand<'_>) {
        self.payments = 0;
        self.batches = 0;
        put_frame(&mut self.file, at_hand);
    }

    // A sound batch more, of this letter and shape. Where the file would be too long, it has what it had.
    pub(crate) fn add_batch(&mut self, at_hand: AtHand<'_>, letter: Letter, shape: Shape)
        requires { shape.payments < 1000000 }
        ensures kept { self.old.file.count ≤ self.new.file.count }
        ensures counted { self.old.file.count < self.new.file.count → self.new.batches ≡ self.old.batches + 1 }
        ensures paid { self.old.file.count < self.new.file.count → self.new.payments ≡ (self.old.payments + shape.payments) % 10000 }
        ensures left { self.new.file.count ≡ self.old.file.count → (self.new.batches ≡ self.old.batches) × (self.new.payments ≡ self.old.payments) }
    {
        if put_batch(&mut self.file, at_hand, letter, shape, self.batches) {
            self.payments = (self.payments + shape.payments) % 10000;
            self.batches += 1;
            write_end(&mut self.file, self.payments);
        }
    }
}
