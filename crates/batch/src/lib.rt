// One batch over its records (01 Batch reasons, Sums, Report): one walk, nothing copied but a Payment ID that rises, one row.
#![tactic(auto)]

mod lookups;
mod pass;
mod payment;
mod walk;

ghost use Rattle.std.specs.Prelude.{◌≡◌, ◌*◌, ◌≤◌, ltb, length, take};
ghost use Rattle.record.specs.Choice.{◌and◌};
ghost use Rattle.record.specs.Value.{seen};
ghost use Rattle.book.specs.Book.{Usable, listed_at};
ghost use Rattle.batch.specs.Batch.{Judgeable, IsRow};
ghost use Rattle.batch.specs.Walk.{crowded_in, is_told, learnt, told_of, row_at};

use book::Book;
use calendar::Day;
use money::Amount;
use pass::{Told, Walked};
use reasons::Finding;
use record::Line;

// What the report says of a batch (01 Report): the number of its first record, its record count, its payments, their exact total,
// and the first finding, if there is one.
#[derive(Clone, Copy)]
pub struct Row {
    pub first_record: usize,
    pub records: usize,
    pub payments: u64,
    pub total: Amount,
    pub finding: Result<(), Finding>,
}

// The row at the end of the walk: the total and the counts stand there whatever was found.
fn row_of(walked: Walked, first_record: usize) -> Row
    ensures { result ≡ row_at walked.state first_record walked.records }
{
    let records = walked.records;
    let state = walked.state;
    let total = state.total;
    let finding = state.finding;
    Row {
        first_record,
        records,
        payments: state.payments,
        total,
        finding,
    }
}

// Whether a walk is told of a repeat or of too many kinds.
#[tactic(auto, using(record::proofs::Chain::chain), unfolding(crate::specs::Walk::is_told))]
fn is_told(told: Told) -> bool
    ensures { result ≡ is_told told }
{
    told.crowded || told.repeat.is_some()
}

// Whether the DT of the batch have too many kinds. At most 1,000 DT have no more kinds, and are not counted.
fn has_crowd(rest: &[u8], first: Line, records: usize, accounts: usize) -> bool
    requires { (records * 850 ≤ length rest.now) × (length rest.now ≤ 65535 * 850) × (first.number ≤ 65536) }
    ensures { result ≡ (ltb 1000 accounts and crowded_in first.number (take (records * 850) (seen first rest.now))) }
{
    if accounts <= kinds::MOST {
        return false;
    }
    kinds::are_crowded(&rest[..records * 850], first)
}

// A walk is told of this, if it is something.
#[tactic(auto, using(record::proofs::Chain::chain), unfolding(crate::specs::Walk::told_of))]
fn tell(repeat: Option<usize>, crowded: bool) -> Option<Told>
    ensures { result ≡ told_of (record { repeat = repeat; crowded = crowded }) }
{
    let told = Told { repeat, crowded };
    if is_told(told) { Some(told) } else { None }
}

// What a second walk over so many records, with so many DT, is told of, if there is something. Where the Payment IDs climb, none repeats; where one
// falls, the first repeat is sought. Kinds are asked for at two places, so that their table has a frame of its own.
fn learn(rest: &[u8], first: Line, records: usize, falls: bool, accounts: usize) -> Option<Told>
    requires { (records * 850 ≤ length rest.now) × (length rest.now ≤ 65535 * 850) × (first.number ≤ 65536) }
    ensures { result ≡ told_of (learnt falls accounts first.number (take (records * 850) (seen first rest.now))) }
{
    if falls {
        let repeat = repeats::first_repeat(&rest[..records * 850], first);
        return tell(repeat, has_crowd(rest, first, records, accounts));
    }
    tell(None, has_crowd(rest, first, records, accounts))
}

// The row of the batch that begins the rest of the file, today being lent or not; its header has the line `first`, and its schedule number
// repeats an earlier batch's or not. One walk tells all where no Payment ID repeats and the kinds are not too many; else a second is told of them.
pub fn judge_batch(
    book: &[u8],
    shelves: Book,
    today: Option<Day>,
    rest: &[u8],
    first: Line,
    repeats: bool,
) -> Row
    requires { Usable book.now shelves × Judgeable first.number (seen first rest.now) }
    ensures { IsRow (listed_at book.now shelves) today repeats first.number (seen first rest.now) result }
{
    let nothing = Told {
        repeat: None,
        crowded: false,
    };
    let walked = pass::walk_batch(book, shelves, today, rest, first, repeats, nothing);
    let learnt = learn(
        rest,
        first,
        walked.records,
        walked.climbing.falls,
        walked.state.accounts,
    );
    match learnt {
        None => row_of(walked, first.number),
        Some(told) => row_of(
            pass::walk_batch(book, shelves, today, rest, first, repeats, told),
            first.number,
        ),
    }
}
