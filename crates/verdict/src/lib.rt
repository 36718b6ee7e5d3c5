// The answer about a file (01 File answers): fourteen tests in the stated order. Nothing is written.
#![tactic(auto)]

mod frame;
pub mod reason;

ghost use Rattle.std.specs.Prelude.{◌≡◌, ◌+◌, ◌*◌, ◌≤◌, length};
ghost use Rattle.page.specs.CodePage.{shown};
ghost use Rattle.nesting.specs.Records.{records};
ghost use Rattle.characters.specs.Characters.{first_unclean};
ghost use Rattle.verdict.specs.Answer.{number_of, refusal, Judgement};
ghost use Rattle.verdict.specs.Order.{length_reason, Known, Framed, Roomed};

use book::Book;
use money::Amount;
use nesting::Counts;
use reason::Reason;
use record::Line;

// Of an accepted file: where the book's sections stand, its batches and payments, and their exact total.
#[derive(Clone, Copy)]
pub struct Accepted {
    pub shelves: Book,
    pub counts: Counts,
    pub total: Amount,
}

// Of a refused file: the reason and the record that it names, or 0.
#[derive(Clone, Copy, Debug, PartialEq, Eq)]
pub struct Refusal {
    pub reason: Reason,
    pub record_number: u32,
}

impl Refusal {
    // The number that is returned.
    pub fn answer(self) -> u64
        ensures { result ≡ number_of self.reason * 100000 + self.record_number }
    {
        self.reason.number() * 100000 + self.record_number as u64
    }
}

// A refusal by this reason, which names this record.
fn refuse(reason: Reason, record_number: usize) -> Refusal
    requires { record_number ≤ 65536 }
    ensures { result ≡ refusal reason record_number }
{
    Refusal {
        reason,
        record_number: record_number as u32,
    }
}

// 1 to 3 by the file's length.
fn length_reason(file: &[u8]) -> Option<Reason>
    ensures { result ≡ length_reason (length file.now) }
{
    if file.len() == 0 {
        return Some(Reason::Empty);
    }
    if file.len() % 850 != 0 {
        return Some(Reason::Ragged);
    }
    if 55704750 < file.len() {
        return Some(Reason::TooLong);
    }
    None
}

// 8 to 13 by the file's first and last record, or accepted.
fn judge_frame(
    file: &[u8],
    ascii: bool,
    book: &[u8],
    accepted: Accepted,
) -> Result<Accepted, Refusal>
    requires { Known (shown ascii file.now) book.now accepted }
    ensures { Framed (shown ascii file.now) book.now result }
{
    let first = Line { number: 1, ascii };
    if let Some(reason) = frame::header_reason(book, accepted.shelves, &file[0..850], first) {
        return Err(refuse(reason, 1));
    }
    let end = file.len();
    let start = end - 850;
    let number = end / 850;
    let last = Line { number, ascii };
    let payments = accepted.counts.payments;
    if let Some(reason) = frame::trailer_reason(&file[start..end], last, payments, accepted.total) {
        return Err(refuse(reason, number));
    }
    Ok(accepted)
}

// 6 and 7, and those that follow.
fn judge_divided(
    file: &[u8],
    ascii: bool,
    book: &[u8],
    room: usize,
    unclean: Option<usize>,
    accepted: Accepted,
) -> Result<Accepted, Refusal>
    requires { Known (shown ascii file.now) book.now accepted × (unclean ≡ first_unclean 1 (records (shown ascii file.now))) }
    ensures { Roomed (shown ascii file.now) book.now room result }
{
    if room < report::room_for(accepted.counts.batches) {
        return Err(refuse(Reason::ReportShort, 0));
    }
    if let Some(number) = unclean {
        return Err(refuse(Reason::LowByte, number));
    }
    judge_frame(file, ascii, book, accepted)
}

// The answer about a file, ASCII or not, what is lent for today (02 W4), and the room of a report, in document 01's order. Nothing is written.
pub fn file_answer(
    file: &[u8],
    ascii: bool,
    book: &[u8],
    today: &[u8],
    room: usize,
) -> Result<Accepted, Refusal>
    ensures { Judgement (shown ascii file.now) book.now today.now room result }
{
    if let Some(reason) = length_reason(file) {
        return Err(refuse(reason, 0));
    }
    let Some(shelves) = book::reading::read_book(book) else {
        return Err(refuse(Reason::BookUnsound, 0));
    };
    if !calendar::clock::is_lendable(today) {
        return Err(refuse(Reason::NoDay, 0));
    }
    match survey::survey_file(file, ascii) {
        Err(number) => Err(refuse(Reason::Nesting, number)),
        Ok(found) => {
            let accepted = Accepted {
                shelves,
                counts: found.counts,
                total: found.total,
            };
            judge_divided(file, ascii, book, room, found.unclean, accepted)
        }
    }
}
