// Judges the file on standard input with the code book in `book.bin`, and prints the rows or the refusal (01 Worked examples, the program).
#![tactic(auto)]

ghost use Rattle.std.specs.Prelude.{◌≤◌, length};

// The most bytes of a file and of a book, and one more, by which a longer one shows.
const MOST: usize = 65536;

const SPACE: usize = 65537;

// The report that is lent: 64 rows.
const REPORT: usize = 4096;

// Where the head has the number of batches.
const BATCHES: usize = 48;

// The row's eight numbers with single blanks.
// What standard output does not take of a line is left out, and the rest of the line follows.
fn show_row(rt: &impl Print, row: &[u8]) {
    for (k, number) in row.chunks_exact(8).enumerate() {
        if k > 0 {
            let _ = print!(rt; " ");
        }
        let _ = print!(rt; "{}", numbers::read(number));
    }
    let _ = println!(rt;);
}

// The rows that stand in a part of the report.
fn show_rows(rt: &impl Print, rows: &[u8]) {
    for row in rows.chunks_exact(64) {
        show_row(rt, row);
    }
}

// The head, and the rows of the batches behind it.
fn show_report(rt: &impl Print, report: &[u8])
    requires { 64 ≤ length report.now }
{
    let batches = numbers::read(&report[BATCHES..BATCHES + 8]) as usize;
    if batches < 65536 && report::room_for(batches) <= report.len() {
        show_rows(rt, &report[..report::room_for(batches)])
    } else {
        show_rows(rt, &report[..64])
    }
}

fn show_answer(rt: &impl Print, file: &[u8], book: &[u8]) {
    let mut report = [0; REPORT];
    let answer = judge::srf_judge(file, book, &mut report);
    if answer == 0 {
        show_report(rt, &report);
    } else {
        let _ = print!(rt; "{answer}");
        let _ = println!(rt;);
    }
}

fn main(rt: HostRuntime) {
    let mut book = [0; SPACE];
    let mut file = [0; SPACE];
    let book_size = loading::read_file(&rt, "book.bin", &mut book);
    let size = loading::read_input(&mut file);
    if size > MOST || book_size > MOST {
        let _ = println!(rt; "too long");
        return;
    }
    show_answer(&rt, &file[..size], &book[..book_size]);
}
