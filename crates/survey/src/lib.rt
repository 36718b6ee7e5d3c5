// One pass over a file's records for three answers (01 File answers, 5, 7 and 13): a pass each would wait for the memory of each record three times.
#![tactic(auto)]

mod pass;

ghost use Rattle.std.specs.Prelude.{◌≡◌, ◌≤◌, length};
ghost use Rattle.page.specs.CodePage.{shown};
ghost use Rattle.nesting.specs.Records.{Cuttable};
ghost use Rattle.survey.specs.Survey.{Surveyed};
ghost use Rattle.survey.specs.Pass.{High};

use money::Amount;
use nesting::{Counts, reader};
use record::codes::{code_bytes, code_of};
use record::{Field, Justification, Line};

// Of records that nest: their batches and payments, the first with a byte below hex 40 outside its fillers, and the exact sum of the payments.
#[derive(Clone, Copy)]
pub struct Survey {
    pub counts: Counts,
    pub unclean: Option<usize>,
    pub total: Amount,
}

// Eight records as they stand.
const EIGHT: Field = Field {
    start: 1,
    width: 6800,
    justification: Justification::Fixed,
};

// Up to where the bytes from `at` on are known to have none below hex 40, fillers too. They are looked at eight records at a time: bytes that are
// read in a row are fetched ahead.
fn reach(file: &[u8], ascii: bool, index: usize, at: usize, known: usize) -> usize
    requires { (at ≤ length file.now) × High (shown ascii file.now) at known }
    ensures { High (shown ascii file.now) at result }
{
    if index % 8 != 0 {
        return known;
    }
    let end = at + 6800;
    if file.len() < end {
        return at;
    }
    let line = Line {
        number: index,
        ascii,
    };
    if record::written_valid(&file[at..end], line, EIGHT) {
        return end;
    }
    at
}

// One pass over the records of a file, ASCII or not (01 File answers, 5, 7 and 13). Of records that do not nest it names the one at fault.
pub fn survey_file(file: &[u8], ascii: bool) -> Result<Survey, usize>
    requires { Cuttable file.now }
    ensures { Surveyed (shown ascii file.now) result }
{
    let mut going = pass::start();
    let mut reached = 0;
    for index in 0..file.len() / 850 {
        let at = index * 850;
        let end = at + 850;
        let rec = &file[at..end];
        reached = reach(file, ascii, index, at, reached);
        let line = Line {
            number: index + 1,
            ascii,
        };
        let code = code_of(code_bytes(rec, line));
        if !reader::fits(rec, line, code, going.state) {
            return Err(line.number);
        }
        let high = end <= reached;
        going = pass::step(rec, line, code, high, going);
    }
    let state = going.state;
    if !reader::is_at(state, reader::Place::FileClosed) {
        return Err(file.len() / 850 + 1);
    }
    Ok(Survey {
        counts: Counts {
            batches: state.batches,
            payments: state.payments,
        },
        unclean: going.unclean,
        total: going.total,
    })
}
