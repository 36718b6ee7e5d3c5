// Shows of each file on standard input whether its records nest. Before each file stands the number of its records, two
// little-endian bytes; of each record only the code and the Payment ID are sent, 22 bytes, and the rest stays blank.
#![tactic(auto)]

ghost use Rattle.std.specs.Prelude.{◌≤◌, length};
ghost use Rattle.nesting.specs.Records.{Cuttable};

use loading::Parts;

// The most files that are shown, and the most records of one.
const MOST: usize = 10000;

const RECORDS: usize = 200;

// A blank and a number. What standard output does not take of a line is left out, and the rest of the line follows.
fn show(rt: &impl Print, number: usize) {
    let _ = print!(rt; " ");
    let _ = print!(rt; "{number}");
}

fn show_file(rt: &impl Print, file: &[u8])
    requires { Cuttable file.now }
{
    match survey::survey_file(file, false) {
        Ok(found) => {
            let _ = print!(rt; "legal");
            show(rt, found.counts.batches);
            show(rt, found.counts.payments);
        }
        Err(number) => {
            let _ = print!(rt; "refused");
            show(rt, number);
        }
    }
    let _ = println!(rt;);
}

// Reads a record's code and ID.
fn read_record(record: &mut [u8; 850]) {
    loading::read_input(&mut record[..22]);
}

fn read_records(records: &mut [[u8; 850]]) {
    for record in records {
        read_record(record);
    }
}

fn show_records(rt: &impl Print, records: &[[u8; 850]])
    requires { length records.now ≤ 200 }
{
    show_file(rt, records.as_flattened());
}

// Reads a file of so many records, and shows it.
fn show_next(rt: &impl Print, count: usize)
    requires { count ≤ 200 }
{
    let mut space = [[0x40; 850]; RECORDS];
    read_records(&mut space[..count]);
    show_records(rt, &space[..count]);
}

// Files one after the other. The first file that is too long ends the list.
fn show_files(rt: &impl Print) {
    for head in (Parts::<2> { most: MOST }) {
        let count = numbers::read(&head) as usize;
        if count > RECORDS {
            break;
        }
        show_next(rt, count);
    }
}

fn main(rt: HostRuntime) {
    show_files(&rt);
}
