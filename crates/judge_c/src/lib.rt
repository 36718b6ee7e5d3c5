// The judge's two entries for C.
#![tactic(auto)]

ghost use Rattle.std.specs.Prelude.{[]};
ghost use Rattle.judge.specs.Judged.{Promised};

// Judges a file with a code book and with what is lent for today, as `judge::srf_judge_with` says.
#[unsafe(no_mangle)]
pub extern "C" fn srf_judge_with(file: &[u8], book: &[u8], today: &[u8], report: &mut [u8]) -> u64
    ensures { Promised file.now book.now today.now report.old result report.new }
{
    judge::srf_judge_with(file, book, today, report)
}

// The same with nothing lent for today.
#[unsafe(no_mangle)]
pub extern "C" fn srf_judge(file: &[u8], book: &[u8], report: &mut [u8]) -> u64
    ensures { Promised file.now book.now [] report.old result report.new }
{
    judge::srf_judge(file, book, report)
}
