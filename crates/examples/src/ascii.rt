// Files in ASCII (02 W2).
ghost use Rattle.std.specs.Prelude.{◌≡◌};

use crate::files::MOST;
use cases::files::{File, Record};

// The ASCII of the bytes; the table has that of each byte of code page 037.
fn turn_bytes(bytes: &mut [u8], ascii: &[u8; 256]) {
    for byte in bytes {
        *byte = ascii[usize::from(*byte)];
    }
}

fn turn_records(records: &mut [Record], ascii: &[u8; 256]) {
    for record in records {
        turn_bytes(record, ascii);
    }
}

// Turns the records of the file into ASCII.
pub(crate) fn turn(file: &mut File<'_, MOST>, ascii: &[u8; 256])
    ensures { file.new.count ≡ file.old.count }
{
    let count = file.count;
    let space = &mut *file.space;
    let records = &mut space[..];
    turn_records(&mut records[..count], ascii);
}
