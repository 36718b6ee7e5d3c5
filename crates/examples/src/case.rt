// A case: what the items of a row make.
//
//     BN 1 1 0 0         a sound batch of N, C, W, I or A: its payments, and the DX, DT and DP of each
//     at 4 1 2 C2E3      the bytes of record 4 from position 1 to 2, again and again
//     digits 3 42 12345  the digits that end at position 42 of record 3
//     kinds 1001 34      the DT of the file in the four positions that end at 34: their number, from 0, modulo 1001
//     code 7 46 40       the bytes of the code book from 7 to 46, again and again
//     ASCII              the file made so far, in ASCII; the bytes of later changes stand as they are
//     file 849           the bytes of the file, where they are not all
//     book 41            the bytes of the code book
//     today 8            the bytes of today: the book's space has them from 513 on, and they are changed as its own are
//     report 127         the bytes of the report space, where they are not the room that its batches need
//
// The first letter tells what an item is; batches stand before the others.
ghost use Rattle.std.specs.Prelude.{◌≤◌, ◌<◌, length};

use crate::files::{MOST, Made};
use crate::{account_kinds, ascii, changes};
use cases::files::{AtHand, Record};
use cases::words::letter_of;

// The bytes of a code book, at most, and of the space in which today's stand after them.
pub(crate) const TODAY: usize = 512;

pub(crate) const BOOK: usize = 528;

// The last six digits of a number count.
pub(crate) type Words<'a> = cases::words::Words<'a, 1000000>;

// What the cases of a table are made of: the sound records, the ASCII of each byte of code page 037, and the code book, whose size says how
// many bytes of its space it has.
#[derive(Clone, Copy)]
pub(crate) struct Stock<'a> {
    pub(crate) at_hand: AtHand<'a>,
    pub(crate) ascii: &'a [u8; 256],
    pub(crate) book: &'a [u8; BOOK],
    pub(crate) size: usize,
}

// The bytes of file, book, today and report that the judge is lent.
#[derive(Clone, Copy)]
pub(crate) struct Lent {
    pub(crate) file: usize,
    pub(crate) book: usize,
    pub(crate) today: usize,
    pub(crate) report: usize,
}

#[derive(Drop)]
pub(crate) struct Case<'a> {
    pub(crate) made: Made<'a>,
    pub(crate) book: [u8; BOOK],
    pub(crate) lent: Lent,
}

// All that was made, with room for its rows and nothing for today.
fn whole(made: &Made<'_>, book: usize) -> Lent {
    Lent {
        file: made.file.count * 850,
        book,
        today: 0,
        report: report::room_for(made.batches),
    }
}

impl<'a> Case<'a> {
    // A case with no item yet, whose file is made in this space.
    pub(crate) fn new(space: &'a mut [Record; MOST], stock: Stock<'_>) -> Case<'a> {
        let made = Made::new(space, stock.at_hand);
        let lent = whole(&made, stock.size);
        Case {
            made,
            book: *stock.book,
            lent,
        }
    }

    // The same, over the space of the case before.
    fn restart(&mut self, stock: Stock<'_>) {
        self.made.restart(stock.at_hand);
        self.book = *stock.book;
        self.lent = whole(&self.made, stock.size);
    }

    // A batch more, of the shape that the next words say.
    fn add_batch(&mut self, stock: Stock<'_>, letter: u8, words: &mut Words<'_>)
        ensures { length words.new.rest.now ≤ length words.old.rest.now }
    {
        let shape = words.next_shape();
        self.made.add_batch(stock.at_hand, letter_of(letter), shape);
        self.lent = whole(&self.made, self.lent.book);
    }

    // The kinds of the file's DT, by the next words: how many, and where the digits end in which they differ.
    fn change_kinds(&mut self, words: &mut Words<'_>)
        ensures { length words.new.rest.now ≤ length words.old.rest.now }
    {
        let kinds = words.next_number();
        let last = words.next_number();
        let made = &mut self.made;
        account_kinds::change_kinds(&mut made.file, kinds, last);
    }

    // The item of this name, with the words that it takes.
    fn take(&mut self, stock: Stock<'_>, name: &[u8], words: &mut Words<'_>)
        requires { 0 < length name.now }
        ensures { length words.new.rest.now ≤ length words.old.rest.now }
    {
        let made = &mut self.made;
        match name[0] {
            b'B' => self.add_batch(stock, name[name.len() - 1], words),
            b'a' => cases::changes::change_record(&mut made.file, words),
            b'd' => changes::change_digits(&mut made.file, words),
            b'c' => changes::change_book(&mut self.book, words),
            b'k' => self.change_kinds(words),
            b'A' => ascii::turn(&mut made.file, stock.ascii),
            b'f' => self.lent.file = words.next_number(),
            b'b' => self.lent.book = words.next_number(),
            b't' => self.lent.today = words.next_number(),
            b'r' => self.lent.report = words.next_number(),
            _ => {
                words.next_number();
            }
        }
    }

    // The case that the items of a row make.
    pub(crate) fn make(&mut self, stock: Stock<'_>, items: &[u8]) {
        self.restart(stock);
        let mut words = Words { rest: items };
        // Not a `for`: an item takes words of its own from the same row.
        while let Some(name) = words.next_word() {
            self.take(stock, name, &mut words);
        }
    }
}
