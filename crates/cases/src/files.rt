// Files of sound records. Each payment is of 100 cents.
ghost use Rattle.std.specs.Prelude.{◌≡◌, ◌+◌, ◌-◌, ◌*◌, ◌/◌, ◌<◌, ◌≤◌, length};

use crate::words::Shape;
use record::codes::Letter;

// The bytes of a record.
pub type Record = [u8; 850];

// The bytes of the sound records at hand.
pub const AT_HAND: usize = 35700;

// The records of a batch that are at hand. Of a payment's DT and DP the first has the payment's amount, each other one nothing.
#[derive(Clone, Copy)]
enum Kind {
    Header,
    Detail,
    Party,
    Account,
    OtherAccount,
    Procurement,
    OtherProcurement,
    Trailer,
}

// The sound records at hand: FH, FT, and those of a batch of each letter.
#[derive(Clone, Copy)]
pub struct AtHand<'a> {
    pub file_header: &'a Record,
    pub file_trailer: &'a Record,
    pub batches: &'a [[Record; 8]],
    ghost letters: { 5 ≤ length batches.now },
}

impl<'a> AtHand<'a> {
    // The records that stand in these bytes one after the other.
    pub fn new(bytes: &'a [u8]) -> AtHand<'a>
        requires { 35700 ≤ length bytes.now }
        ensures { length result.batches.now ≡ (length bytes.now / 850 - 2) / 8 }
    {
        let (records, _) = bytes.as_chunks::<850>();
        let (batches, _) = records[2..].as_chunks::<8>();
        AtHand {
            file_header: &records[0],
            file_trailer: &records[1],
            batches,
        }
    }

    fn of(self, letter: Letter, kind: Kind) -> &'a Record {
        &self.batches[letter as usize][kind as usize]
    }
}

// Writes the last digits of n in a record, up to a position.
fn write_digits<const WIDTH: usize>(record: &mut Record, last: usize, n: usize)
    requires { (WIDTH ≤ last) × (last ≤ 850) }
{
    let mut left = n;
    for digit in record[last - WIDTH..last].iter_mut().rev() {
        *digit = 0xF0 + (left % 10) as u8;
        left /= 10;
    }
}

// Writes a payment's number in the IDs and where a check has its serials.
fn number_records<const WIDTH: usize>(records: &mut [Record], n: usize)
    requires { WIDTH ≤ 14 }
{
    for record in records {
        write_digits::<WIDTH>(record, 14, n);
        write_digits::<WIDTH>(record, 661, n);
    }
}

// A file that is made: so many records in the front of a space that is borrowed, for the most. Behind them the space is as it was left.
#[derive(Drop)]
pub struct File<'a, const MOST: usize> {
    pub space: &'a mut [Record; MOST],
    pub count: usize,
    ghost fits: { (count ≤ MOST) × (MOST ≤ 65535) },
}

impl<'a, const MOST: usize> File<'a, MOST> {
    // No records, in this space.
    pub fn new(space: &'a mut [Record; MOST]) -> File<'a, MOST>
        requires { MOST ≤ 65535 }
        ensures { result.count ≡ 0 }
    {
        File { space, count: 0 }
    }

    // The bytes of the space.
    pub fn bytes(&self) -> &[u8]
        ensures { length result.now ≡ MOST * 850 }
    {
        self.space.as_flattened()
    }

    // The bytes of the records so far.
    pub fn made(&self) -> &[u8]
        ensures { length result.now ≡ self.now.count * 850 }
    {
        self.space[..self.count].as_flattened()
    }

    // One record more, where there is room.
    pub fn push(&mut self, record: &Record)
        ensures kept { self.old.count ≤ self.new.count }
        ensures more { self.old.count < MOST → self.new.count ≡ self.old.count + 1 }
    {
        if self.count < MOST {
            self.space[self.count] = *record;
            self.count += 1;
        }
    }

    // The record so many times, as far as there is room.
    pub fn push_times(&mut self, record: &Record, times: usize)
        ensures { self.old.count ≤ self.new.count }
    {
        for _ in 0..times.min(MOST - self.count) {
            self.push(record);
        }
    }

    // A payment's DT or DP: the first has the payment's amount.
    fn push_amounts(&mut self, first: &Record, other: &Record, count: usize)
        ensures { self.old.count ≤ self.new.count }
    {
        if count > 0 {
            self.push(first);
            self.push_times(other, count - 1);
        }
    }

    // Writes the last digits of n in a record, up to a position.
    pub fn write<const WIDTH: usize>(&mut self, place: usize, last: usize, n: usize)
        requires { (place < self.old.count) × (WIDTH ≤ last) × (last ≤ 850) }
        ensures { self.new.count ≡ self.old.count }
    {
        write_digits::<WIDTH>(&mut self.space[place], last, n);
    }

    // Numbers the records from a place on, those of a payment: in the IDs and where a check has its serials.
    pub fn number<const WIDTH: usize>(&mut self, from: usize, n: usize)
        requires { (from ≤ self.old.count) × (WIDTH ≤ 14) }
        ensures { self.new.count ≡ self.old.count }
    {
        let to = self.count;
        let space = &mut *self.space;
        let records = &mut space[..];
        number_records::<WIDTH>(&mut records[from..to], n);
    }

    // A header, whose field 9 is the sum of the payments.
    pub fn push_header<const WIDTH: usize>(
        &mut self,
        at_hand: AtHand<'_>,
        letter: Letter,
        payments: usize,
    )
        requires { (self.old.count < MOST) × (WIDTH ≤ 4) }
        ensures { self.new.count ≡ self.old.count + 1 }
    {
        self.push(at_hand.of(letter, Kind::Header));
        self.write::<WIDTH>(self.count - 1, 50, payments);
    }

    // A payment, as far as there is room; the first DT, if there is one, stands at the place that is answered, and the last before the other place.
    pub fn push_payment(
        &mut self,
        at_hand: AtHand<'_>,
        letter: Letter,
        shape: Shape,
    ) -> (usize, usize)
        ensures kept { self.old.count ≤ self.new.count }
        ensures accounts { (result.0 ≤ result.1) × (result.1 ≤ self.new.count) }
    {
        self.push(at_hand.of(letter, Kind::Detail));
        self.push_times(at_hand.of(letter, Kind::Party), shape.parties);
        let first = self.count;
        self.push_amounts(
            at_hand.of(letter, Kind::Account),
            at_hand.of(letter, Kind::OtherAccount),
            shape.accounts,
        );
        let end = self.count;
        self.push_amounts(
            at_hand.of(letter, Kind::Procurement),
            at_hand.of(letter, Kind::OtherProcurement),
            shape.procurements,
        );
        (first, end)
    }

    // BT with the count of payments (99) and their sum (100).
    pub fn push_trailer<const WIDTH: usize>(
        &mut self,
        at_hand: AtHand<'_>,
        letter: Letter,
        payments: usize,
    )
        requires { (self.old.count < MOST) × (WIDTH ≤ 4) }
        ensures { self.new.count ≡ self.old.count + 1 }
    {
        self.push(at_hand.of(letter, Kind::Trailer));
        self.write::<WIDTH>(self.count - 1, 10, payments);
        self.write::<WIDTH>(self.count - 1, 28, payments);
    }
}

#[cfg(test)]
mod tests {
    use super::*;
    use std::test::Fail;

    #[test]
    fn a_file_takes_records(rt: HostRuntime) -> Result<(), Fail> {
        let mut space = [[0x40; 850]; 2];
        let mut file = File::new(&mut space);
        assert_eq!(rt; file.made().len(), 0);
        file.push(&[0xC6; 850]);
        assert_eq!(rt; file.count, 1);
        assert_eq!(rt; file.made().len(), 850);
        Ok(())
    }
}
