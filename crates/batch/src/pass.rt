// One pass over a batch: its header, then one record after the other up to its BT.
ghost use Rattle.std.specs.Prelude.{◌≡◌};
ghost use Rattle.record.specs.Value.{seen};
ghost use Rattle.book.specs.Book.{Usable, listed_at};
ghost use Rattle.batch.specs.Batch.{Judgeable};
ghost use Rattle.batch.specs.Walk.{walk_of};

use crate::walk;
use crate::walk::State;
use book::Book;
use calendar::Day;
use record::Line;
use record::codes::{code_bytes, code_of, is_trailer};
use repeats::climb::{Climbing, climb};

// What a walk is told of its batch: the first record that repeats an earlier Payment ID, and whether there are too many kinds.
#[derive(Clone, Copy)]
pub(crate) struct Told {
    pub(crate) repeat: Option<usize>,
    pub(crate) crowded: bool,
}

// What is known after a record: the state, whether the Payment IDs climbed so far, and the count of the records.
#[derive(Clone, Copy)]
pub(crate) struct Walked {
    pub(crate) state: State,
    pub(crate) climbing: Climbing,
    pub(crate) records: usize,
}

// The walk over the batch that begins the rest of the file, up to its BT, told of a repeat and of too many kinds, or of none.
pub(crate) fn walk_batch(
    book: &[u8],
    shelves: Book,
    today: Option<Day>,
    rest: &[u8],
    first: Line,
    repeats: bool,
    told: Told,
) -> Walked
    requires { Usable book.now shelves × Judgeable first.number (seen first rest.now) }
    ensures { result ≡ walk_of (listed_at book.now shelves) today repeats told first.number (seen first rest.now) }
{
    let mut state = walk::open_batch(
        book,
        shelves,
        today,
        &rest[0..850],
        first,
        repeats,
        told.crowded,
    );
    let mut climbing = Climbing {
        falls: false,
        greatest: [0u8; 20],
    };
    let records = rest.len() / 850;
    for index in 1..records {
        let at = index * 850;
        let rec = &rest[at..at + 850];
        let line = Line {
            number: first.number + index,
            ascii: first.ascii,
        };
        let code = code_of(code_bytes(rec, line));
        let repeated = told.repeat == Some(line.number);
        state = walk::step(book, shelves, rec, line, code, state, repeated);
        climbing = climb(rec, line, code, climbing);
        if is_trailer(code) {
            return Walked {
                state,
                climbing,
                records: index + 1,
            };
        }
    }
    Walked {
        state,
        climbing,
        records,
    }
}
