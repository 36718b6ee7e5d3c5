// Shows the row (01 Report) of each case of a table: a sound batch, or one with changes, in a file of its own between FH and FT.
// Where the records do not nest as one batch it says `no batch`. Each number, blank and word is written by itself: one that standard
// output does not take is left out, and what comes after it is written all the same.
#![tactic(auto)]

mod files;

ghost use Rattle.std.specs.Prelude.{◌≡◌, false};
ghost use Rattle.page.specs.CodePage.{shown};
ghost use Rattle.book.specs.Book.{Usable};
ghost use Rattle.nesting.specs.Records.{Cuttable};
ghost use Rattle.batch.specs.Batch.{Judgeable};

use batch::Row;
use book::Book;
use calendar::{Day, clock};
use cases::changes;
use cases::files::{AT_HAND, AtHand, File};
use files::MOST;
use record::Line;

// The most bytes of the code book, and of the table.
const BOOK: usize = 4096;

const TABLE: usize = 131072;

// The columns of a row's label. Behind it stand words: the batch's letter, 1 where its schedule number repeats an earlier batch's and 2
// where today is lent, its payments, the DX, DT and DP of each, the number of changes, and the changes: of each a record of the file, its
// first and last position (004 counts both from 1), and the bytes, in hexadecimal, that are written there again and again.
const LABEL: usize = 48;

// The last four digits of a number count.
type Words<'a> = cases::words::Words<'a, 10000>;

// The reason of a finding, the number of the record at fault, and the field; three times 0 where nothing is found.
fn finding_of(row: Row) -> [u64; 3] {
    match row.finding {
        Ok(()) => [0; 3],
        Err(finding) => [
            u64::from(finding.reason),
            finding.record_number as u64,
            finding.field as u64,
        ],
    }
}

// The eight numbers of a row, with a blank after each but the last.
fn show_row(rt: &impl Print, row: Row) {
    let [reason, record_number, field] = finding_of(row);
    let numbers = [
        row.first_record as u64,
        row.records as u64,
        row.payments,
        row.total.high,
        row.total.low,
        reason,
        record_number,
    ];
    for number in numbers {
        let _ = print!(rt; "{number}");
        let _ = rt.write_all(b" ");
    }
    let _ = print!(rt; "{field}");
}

// Today by a case's word: 2024-02-29 is lent where it is 2.
fn today_by(word: usize) -> Option<Day> {
    if word == 2 {
        clock::read_today(b"\xF2\xF0\xF2\xF4\xF0\xF2\xF2\xF9")
    } else {
        None
    }
}

// The row of the batch whose records are the part of the file behind FH; its schedule number repeats where the case's word is 1.
fn show_batch(rt: &impl Print, book: &[u8], shelves: Book, part: &[u8], word: usize)
    requires { Usable book.now shelves × Judgeable 2 (shown false part.now) }
{
    let first = Line {
        number: 2,
        ascii: false,
    };
    show_row(
        rt,
        batch::judge_batch(book, shelves, today_by(word), part, first, word == 1),
    );
}

// A file's only batch stands between FH and FT.
fn show_file(rt: &impl Print, book: &[u8], shelves: Book, file: &[u8], word: usize)
    requires { Usable book.now shelves × Cuttable file.now }
{
    match survey::survey_file(file, false) {
        Ok(found) if found.counts.batches == 1 => {
            show_batch(rt, book, shelves, &file[850..file.len() - 850], word);
        }
        _ => {
            let _ = rt.write_all(b"no batch");
        }
    }
}

// Makes a row's changes; their number stands before them.
fn make_changes(file: &mut File<'_, MOST>, words: &mut Words<'_>)
    ensures { file.new.count ≡ file.old.count }
{
    for _ in 0..words.next_number() {
        changes::change_record(file, words);
    }
}

// The case of a row.
fn show_case(
    rt: &impl Print,
    book: &[u8],
    shelves: Book,
    file: &mut File<'_, MOST>,
    at_hand: AtHand<'_>,
    row: &[u8],
)
    requires { Usable book.now shelves }
{
    let mut words = Words { rest: row };
    let letter = words.next_letter();
    let word = words.next_number();
    let shape = words.next_shape();
    files::build(file, at_hand, letter, shape);
    make_changes(file, &mut words);
    show_file(rt, book, shelves, file.made(), word);
}

// A row: its label, and what it shows.
fn show_line(
    rt: &impl Print,
    book: &[u8],
    shelves: Book,
    file: &mut File<'_, MOST>,
    at_hand: AtHand<'_>,
    row: &[u8],
)
    requires { Usable book.now shelves }
{
    if let Some((label, words)) = row.split_at_checked(LABEL) {
        let _ = rt.write_all(label);
        show_case(rt, book, shelves, file, at_hand, words);
        let _ = println!(rt;);
    }
}

// Rows one after the other.
fn show_rows(
    rt: &impl Print,
    book: &[u8],
    shelves: Book,
    file: &mut File<'_, MOST>,
    at_hand: AtHand<'_>,
    table: &[u8],
)
    requires { Usable book.now shelves }
{
    for row in table.split(|byte| *byte == b'\n') {
        show_line(rt, book, shelves, file, at_hand, row);
    }
}

// The table, over a book that is sound.
fn show_table(
    rt: &impl Print,
    book: &[u8],
    file: &mut File<'_, MOST>,
    at_hand: AtHand<'_>,
    table: &[u8],
) {
    if let Some(shelves) = book::reading::read_book(book) {
        show_rows(rt, book, shelves, file, at_hand, table);
    }
}

fn main(rt: HostRuntime) {
    let mut book = [0; BOOK];
    let mut at_hand = [0x40; AT_HAND];
    let mut table = [0; TABLE];
    let size = loading::read_file(&rt, "book.bin", &mut book);
    loading::read_file(&rt, "records.bin", &mut at_hand);
    let end = loading::read_input(&mut table);
    let mut space = [[0x40; 850]; MOST];
    let mut file = File::new(&mut space);
    show_table(
        &rt,
        &book[..size],
        &mut file,
        AtHand::new(&at_hand),
        &table[..end],
    );
}
