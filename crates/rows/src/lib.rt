// The report of an accepted file (01 Report): the head and a row for each batch, each through its own part of the report.
#![tactic(auto)]

ghost use Rattle.std.specs.Prelude.{◌≡◌, ◌+◌, ◌<◌, ◌≤◌, length};
ghost use Rattle.page.specs.CodePage.{shown};
ghost use Rattle.book.specs.Book.{Usable, listed_at};
ghost use Rattle.report.specs.Rows.{over, row_at};
ghost use Rattle.repeats.specs.Schedules.{numbered, flagged};
ghost use Rattle.rows.specs.Report.{head_row, finding_row, batch_row, Writable, Written};
ghost use Rattle.rows.specs.Standing.{Opens, IsJudged, IsWritten, flags_at, flags_in, Numberable};

use batch::Row;
use book::Book;
use calendar::Day;
use money::Amount;
use reasons::Finding;
use record::Line;
use repeats::Numbering;

// What is known after a batch: the numbers of its row, and the records up to its end.
#[derive(Clone, Copy)]
struct Judged {
    numbers: [u64; 8],
    place: usize,
}

// The numbers of the head (01 Report).
fn head_numbers(records: usize, payments: usize, total: Amount, batches: usize) -> [u64; 8]
    ensures { result ≡ head_row records payments total batches }
{
    [
        0,
        0,
        records as u64,
        payments as u64,
        total.high,
        total.low,
        batches as u64,
        0,
    ]
}

// What a batch's row says of its finding: zeros when sound (01 Report).
#[tactic(auto, unfolding(crate::specs::Report::finding_row))]
fn finding_numbers(finding: Result<(), Finding>) -> [u64; 3]
    ensures { result ≡ finding_row finding }
{
    match finding {
        Ok(()) => [0, 0, 0],
        Err(finding) => [
            u64::from(finding.reason),
            finding.record_number as u64,
            finding.field as u64,
        ],
    }
}

// The numbers of a batch's row (01 Report).
#[tactic(auto, unfolding(crate::specs::Report::batch_row))]
fn batch_numbers(row: Row) -> [u64; 8]
    ensures { result ≡ batch_row row }
{
    let [reason, record_number, field] = finding_numbers(row.finding);
    [
        row.first_record as u64,
        row.records as u64,
        row.payments,
        row.total.high,
        row.total.low,
        reason,
        record_number,
        field,
    ]
}

// What is known of the schedule number of the batch at the place. The flags of the batches to come, where there are any, stand in the room of
// their rows: each row is written after its own flag is read, and before those behind it.
fn number_next(
    file: &[u8],
    ascii: bool,
    place: usize,
    greatest: [u8; 14],
    marked: bool,
    batches: usize,
    written: usize,
    report: &mut [u8],
) -> Numbering
    requires { Numberable (shown ascii file.now) place greatest marked batches written report.old }
    ensures answer { result ≡ numbered (shown ascii file.now) place greatest marked }
    ensures after { report.new ≡ over report.old (flags_at batches written) (flagged (shown ascii file.now) place greatest marked (flags_in batches written report.old)) }
{
    let end = report::room_for(batches);
    let from = end - (batches - written);
    repeats::number_batch(file, ascii, place, greatest, marked, &mut report[from..end])
}

// Judges the batch that begins after so many records; an earlier batch has its schedule number, or not.
fn judge_next(
    file: &[u8],
    ascii: bool,
    book: &[u8],
    shelves: Book,
    today: Option<Day>,
    place: usize,
    repeats: bool,
) -> Judged
    requires { Usable book.now shelves × Opens (shown ascii file.now) place }
    ensures { IsJudged (listed_at book.now shelves) today (shown ascii file.now) repeats place result }
{
    let number = place + 1;
    let first = Line { number, ascii };
    let at = place * 850;
    let row = batch::judge_batch(book, shelves, today, &file[at..], first, repeats);
    let numbers = batch_numbers(row);
    let after = place + row.records;
    Judged {
        numbers,
        place: after,
    }
}

// Judges the batch that begins after so many records, and writes its row behind so many others; returns the records up to its end.
fn write_next(
    file: &[u8],
    ascii: bool,
    book: &[u8],
    shelves: Book,
    today: Option<Day>,
    place: usize,
    repeats: bool,
    written: usize,
    report: &mut [u8],
) -> usize
    requires { Usable book.now shelves × Opens (shown ascii file.now) place × (written < 65536) × (row_at written + 64 ≤ length report.old) }
    ensures { IsWritten (listed_at book.now shelves) today (shown ascii file.now) repeats place written report.old result report.new }
{
    let judged = judge_next(file, ascii, book, shelves, today, place, repeats);
    let numbers = judged.numbers;
    let at = report::row_at(written);
    report::write_row(report, at, numbers);
    judged.place
}

// Writes the report of a file that nests, ASCII or not, today being lent or not (01 Report): the head, then a row for each batch in file order, rejected or not. No byte past the
// last row is touched. The first batch stands apart: a function that is called in two places keeps a frame of its own, so that the table of the schedule
// numbers is on the stack only while it is used, and not while a batch is walked.
pub fn write_rows(
    file: &[u8],
    ascii: bool,
    book: &[u8],
    shelves: Book,
    today: Option<Day>,
    payments: usize,
    total: Amount,
    batches: usize,
    report: &mut [u8],
)
    requires { Usable book.now shelves × Writable (shown ascii file.now) payments total batches report.old }
    ensures { Written (listed_at book.now shelves) today (shown ascii file.now) report.old report.new }
{
    let records = file.len() / 850;
    let head = head_numbers(records, payments, total, batches);
    report::write_row(report, 0, head);
    let none: [u8; 14] = [0; 14];
    let opened = number_next(file, ascii, 1, none, false, batches, 0, report);
    let mut place = write_next(
        file,
        ascii,
        book,
        shelves,
        today,
        1,
        opened.repeats,
        0,
        report,
    );
    let mut greatest = opened.greatest;
    let mut marked = opened.marked;
    for written in 1..batches {
        let number = number_next(
            file, ascii, place, greatest, marked, batches, written, report,
        );
        place = write_next(
            file,
            ascii,
            book,
            shelves,
            today,
            place,
            number.repeats,
            written,
            report,
        );
        greatest = number.greatest;
        marked = number.marked;
    }
}
