// Shows what the judge answers to each case of a table (01 File answers, Report): the number that it returns; of an accepted file the
// numbers of each row; and whether the bytes of the report space outside those rows are as they were. Each number, blank and word is
// written by itself: one that standard output does not take is left out, and what comes after it is written all the same.
#![tactic(auto)]

mod account_kinds;
mod ascii;
mod case;
mod changes;
mod files;

ghost use Rattle.std.specs.Prelude.{◌≤◌, length};

use case::{BOOK, Case, Stock, TODAY};
use cases::files::{AT_HAND, AtHand};
use files::MOST;
use std::array;

// The most bytes of the table. A row is a label, then items, each a word that names it and the words that it takes.
const TABLE: usize = 458752;

// The bytes of the sound records, and of the ASCII of each byte of code page 037 behind them.
const HAND: usize = 35956;

// The columns of a label.
const LABEL: usize = 56;

// The bytes of the report space; the judge is lent the first of them.
const REPORT: usize = 1024;

// What the report space holds before: bytes that differ from those beside them.
fn marked() -> [u8; REPORT] {
    array::from_fn(|i| (i % 251) as u8)
}

// Shows the eight numbers of a row.
fn show_numbers(rt: &impl Print, row: &[u8]) {
    for number in row.chunks_exact(8) {
        let _ = rt.write_all(b" ");
        let _ = print!(rt; "{}", numbers::read(number));
    }
    let _ = rt.write_all(b" /");
}

// Shows the rows that stand in a part of the report.
fn show_rows(rt: &impl Print, rows: &[u8]) {
    for row in rows.chunks_exact(64) {
        show_numbers(rt, row);
    }
}

// Shows whether the bytes from here on are as they were.
fn show_kept(rt: &impl Print, report: &[u8; REPORT], from: usize)
    requires { from ≤ 1024 }
{
    if report[from..] == marked()[from..] {
        let _ = rt.write_all(b" kept");
    } else {
        let _ = rt.write_all(b" changed");
    }
}

// Judges, and shows the answer; an accepted file has rows of so many bytes.
fn show_answer(rt: &impl Print, file: &[u8], book: &[u8], today: &[u8], room: usize, rows: usize)
    requires { (room ≤ 1024) × (rows ≤ 1024) }
{
    let mut report = marked();
    let answer = judge::srf_judge_with(file, book, today, &mut report[..room]);
    let _ = print!(rt; "{answer}");
    let _ = rt.write_all(b" /");
    if answer != 0 {
        return show_kept(rt, &report, 0);
    }
    show_rows(rt, &report[..rows]);
    show_kept(rt, &report, rows);
}

// What a case lends has to lie within its space.
fn show_case(rt: &impl Print, case: &Case<'_>) {
    let rows = report::room_for(case.made.batches);
    let lent = case.lent;
    if lent.report > REPORT || rows > REPORT {
        return;
    }
    let Some(file) = case.made.file.bytes().get(..lent.file) else {
        return;
    };
    let Some(book) = case.book.get(..lent.book) else {
        return;
    };
    let Some(today) = case.book[TODAY..].get(..lent.today) else {
        return;
    };
    show_answer(rt, file, book, today, lent.report, rows);
}

// A row: its label, and what the judge answers.
fn show_line(rt: &impl Print, case: &mut Case<'_>, stock: Stock<'_>, row: &[u8]) {
    if let Some((label, items)) = row.split_at_checked(LABEL) {
        let _ = rt.write_all(label);
        case.make(stock, items);
        show_case(rt, case);
        let _ = println!(rt;);
    }
}

// Shows each row of the table.
fn show_table(rt: &impl Print, case: &mut Case<'_>, stock: Stock<'_>, table: &[u8]) {
    for row in table.split(|byte| *byte == b'\n') {
        show_line(rt, case, stock, row);
    }
}

// Reads the sound records, and behind them the ASCII.
fn read_at_hand(rt: &HostRuntime, at_hand: &mut [u8; HAND]) {
    loading::read_file(rt, "records.bin", &mut at_hand[..]);
    loading::read_file(rt, "ascii.bin", &mut at_hand[AT_HAND..]);
}

fn stock_of<'a>(at_hand: &'a [u8; HAND], book: &'a [u8; BOOK], size: usize) -> Stock<'a> {
    let (ascii, _) = at_hand[AT_HAND..].as_chunks::<256>();
    Stock {
        at_hand: AtHand::new(&at_hand[..]),
        ascii: &ascii[0],
        book,
        size,
    }
}

fn main(rt: HostRuntime) {
    let mut book = [0; BOOK];
    let mut at_hand = [0x40; HAND];
    let mut table = [0; TABLE];
    let size = loading::read_file(&rt, "book.bin", &mut book);
    read_at_hand(&rt, &mut at_hand);
    let end = loading::read_input(&mut table);
    let stock = stock_of(&at_hand, &book, size);
    let mut space = [[0x40; 850]; MOST];
    let mut case = Case::new(&mut space, stock);
    show_table(&rt, &mut case, stock, &table[..end]);
}
