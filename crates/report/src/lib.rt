// Rows of the report, and where they stand (01 Report).
#![tactic(auto)]

ghost use Rattle.std.specs.Prelude.{◌≡◌, ◌+◌, ◌<◌, ◌≤◌, length};
ghost use Rattle.report.specs.Rows.{row_bytes, row_at, room_for, over};

// Where a batch's row begins, the batches counted from 0 (01 Report).
pub fn row_at(place: usize) -> usize
    requires { place < 65536 }
    ensures { result ≡ row_at place }
{
    64 + place * 64
}

// The room that the head and the rows of so many batches need (01 File answers, 6).
pub fn room_for(batches: usize) -> usize
    requires { batches < 65536 }
    ensures { result ≡ room_for batches }
{
    row_at(batches)
}

// Fills the part with a row's numbers, one after the other (01 Report).
fn write_numbers(part: &mut [u8], row: [u64; 8])
    requires { length part.old ≡ 64 }
    ensures { part.new ≡ row_bytes row }
{
    for (k, number) in row.iter().enumerate() {
        let at = k * 8;
        numbers::write(&mut part[at..at + 8], *number);
    }
}

// Writes a row's eight numbers at a place of the report (01 Report). No other byte is touched.
pub fn write_row(report: &mut [u8], at: usize, row: [u64; 8])
    requires { at + 64 ≤ length report.old }
    ensures { report.new ≡ over report.old at (row_bytes row) }
{
    write_numbers(&mut report[at..at + 64], row);
}
