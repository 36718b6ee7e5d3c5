// The judge: two entries for the bureau's intake, on byte slices (01 Expected form; 02 W4).
#![tactic(auto)]

ghost use Rattle.std.specs.Prelude.{[]};
ghost use Rattle.judge.specs.Judged.{Promised};

// Judges a file, EBCDIC or ASCII (02 W2), with a code book (01 File answers, Report) and with what is lent for today: eight EBCDIC digits
// YYYYMMDD, or nothing (02 W4). Returns reason * 100,000 + record and leaves the report as it was, or returns 0 and writes the head and a row
// for each batch from the start of the report. It takes every file, book, day and report space.
pub fn srf_judge_with(file: &[u8], book: &[u8], today: &[u8], report: &mut [u8]) -> u64
    ensures { Promised file.now book.now today.now report.old result report.new }
{
    let ascii = page::is_ascii(file);
    match verdict::file_answer(file, ascii, book, today, report.len()) {
        Err(refusal) => refusal.answer(),
        Ok(accepted) => {
            let day = calendar::clock::read_today(today);
            rows::write_rows(
                file,
                ascii,
                book,
                accepted.shelves,
                day,
                accepted.counts.payments,
                accepted.total,
                accepted.counts.batches,
                report,
            );
            0
        }
    }
}

// The same with nothing lent for today (01: one entry takes the file, the book and the report space).
pub fn srf_judge(file: &[u8], book: &[u8], report: &mut [u8]) -> u64
    ensures { Promised file.now book.now [] report.old result report.new }
{
    srf_judge_with(file, book, &file[0..0], report)
}
