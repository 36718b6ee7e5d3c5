// Shows what the leaves say of records that another program encoded: a line for each record on standard input. A record that begins with FH
// in ASCII is ASCII.
#![tactic(auto)]

ghost use Rattle.std.specs.Prelude.{◌≡◌, ◌+◌, ◌≤◌};

use loading::Parts;
use record::codes::Code;
use record::{Field, Justification, Line, codes, layout};

// The most records that are shown.
const MOST: usize = 1000;

// Positions 1 to 56, and 3 to 258.
const FRONT: Field = Field {
    start: 1,
    width: 56,
    justification: Justification::Fixed,
};

const PAGE: Field = Field {
    start: 3,
    width: 256,
    justification: Justification::Fixed,
};

// The place of a code in the list of 004 section 1.2, from 1; 0 for no code.
fn code_number(code: Code) -> u8 {
    match code {
        Code::FileHeader => 1,
        Code::Batch(letter) => 2 + letter as u8,
        Code::Detail(letter) => 7 + letter as u8,
        Code::Party => 12,
        Code::Account => 13,
        Code::Procurement => 14,
        Code::BatchTrailer => 15,
        Code::FileTrailer => 16,
        Code::Unknown => 0,
    }
}

// A number and a blank. What standard output does not take of a line is left out, and the rest of the line follows.
fn show_value(rt: &impl Print, value: u64) {
    let _ = print!(rt; "{value}");
    let _ = rt.write_all(b" ");
}

// Whether something holds: 1 or 0.
fn show(rt: &impl Print, answer: bool) {
    show_value(rt, u64::from(answer));
}

// The numbers of these bytes.
fn show_each(rt: &impl Print, bytes: &[u8]) {
    for byte in bytes {
        show_value(rt, u64::from(*byte));
    }
}

// A record, and how it is read.
#[derive(Clone, Copy)]
struct Record {
    bytes: [u8; 850],
    line: Line,
}

impl Record {
    fn new(bytes: [u8; 850]) -> Record {
        let ascii = page::is_ascii(&bytes);
        Record {
            bytes,
            line: Line { number: 1, ascii },
        }
    }

    // Its code, whether it is a detail's and whether a batch header's, and whether no byte of positions 1 to 56 is below hex 40.
    fn show_bytes(&self, rt: &impl Print) {
        let code = codes::code_of(codes::code_bytes(&self.bytes, self.line));
        show_value(rt, u64::from(code_number(code)));
        show(rt, codes::has_detail(&self.bytes, self.line));
        show(rt, codes::has_header(&self.bytes, self.line));
        show(rt, record::written_valid(&self.bytes, self.line, FRONT));
    }

    // Dates, a month and a routing number, in the fields of a batch header.
    fn show_dates(&self, rt: &impl Print) {
        show(
            rt,
            calendar::date_ccyy_mm_dd(&self.bytes, self.line, layout::SUMMARY_DATE),
        );
        show(
            rt,
            calendar::date_yyyymmdd(&self.bytes, self.line, layout::CHECK_BATCH_CREATION_DATE),
        );
        show(
            rt,
            calendar::month_mmyy(
                &self.bytes,
                self.line,
                layout::CHECK_ACCOUNTING_MONTH_AND_YEAR,
            ),
        );
        show(
            rt,
            record::routing::field_routing(&self.bytes, self.line, layout::ORIGINATING_DI),
        );
    }

    // An amount, and the order of the schedule number and the original schedule number: 0 before, 1 the same, 2 after.
    fn show_values(&self, rt: &impl Print) {
        let amount = money::field_amount(&self.bytes, self.line, layout::SUMMARY_TOTAL_AMOUNT);
        let original: [u8; 14] = record::field_array(
            &self.bytes,
            self.line,
            layout::ORIGINAL_SCHEDULE_NUMBER,
        );
        let order = record::field_order(&self.bytes, self.line, layout::SCHEDULE_NUMBER, &original);
        show_value(rt, amount.high);
        show_value(rt, amount.low);
        show_value(rt, (order as i8 + 1) as u64);
    }

    // The numbers of the bytes of a field as it is held.
    fn show_field<const WIDTH: usize>(&self, rt: &impl Print, field: Field)
        requires { (1 ≤ field.start) × (field.start + WIDTH ≤ 851) × (field.width ≡ WIDTH) }
    {
        show_each(
            rt,
            &record::field_array::<WIDTH>(&self.bytes, self.line, field),
        );
    }

    // What text holds, field 7 and a number: the schedule number, the summary number and the first serial number.
    fn show_held(&self, rt: &impl Print) {
        self.show_field::<14>(rt, layout::SCHEDULE_NUMBER);
        self.show_field::<6>(rt, layout::SUMMARY_NUMBER);
        self.show_field::<8>(rt, layout::CHECK_FIRST_SERIAL_NUMBER);
    }

    // Whether field 7 has no blank inside, and whether the first serial number is blank, and whether zeros.
    fn show_tests(&self, rt: &impl Print) {
        show(
            rt,
            record::field_solid(&self.bytes, self.line, layout::SUMMARY_NUMBER),
        );
        show(
            rt,
            record::field_blank(&self.bytes, self.line, layout::CHECK_FIRST_SERIAL_NUMBER),
        );
        show(
            rt,
            record::field_zeros(&self.bytes, self.line, layout::CHECK_FIRST_SERIAL_NUMBER),
        );
    }

    // The first serial number, or what is above them all where it is not digits.
    fn show_number(&self, rt: &impl Print) {
        let field = layout::CHECK_FIRST_SERIAL_NUMBER;
        if record::field_digits(&self.bytes, self.line, field) {
            show_value(rt, record::field_number(&self.bytes, self.line, field));
        } else {
            show_value(rt, 100000000);
        }
    }

    fn show(&self, rt: &impl Print) {
        self.show_bytes(rt);
        self.show_dates(rt);
        self.show_values(rt);
        self.show_held(rt);
        self.show_tests(rt);
        self.show_number(rt);
        if self.line.ascii {
            // What each byte is seen as.
            self.show_field::<256>(rt, PAGE);
        }
        let _ = println!(rt;);
    }
}

// Records one after the other.
fn show_records(rt: &impl Print) {
    for bytes in (Parts::<850> { most: MOST }) {
        Record::new(bytes).show(rt);
    }
}

fn main(rt: HostRuntime) {
    show_records(&rt);
}
