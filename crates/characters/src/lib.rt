// Bytes below hex 40 outside fillers (01 Bytes). Fields between two fillers are looked at as one stretch.
#![tactic(auto)]

ghost use Rattle.std.specs.Prelude.{◌≡◌, ◌≤◌, length};
ghost use Rattle.record.specs.Value.{seen};
ghost use Rattle.record.specs.Codes.{code_of};
ghost use Rattle.record.specs.Layout.{layout};
ghost use Rattle.record.specs.Layout.Record.{BatchHeader};
ghost use Rattle.characters.specs.Characters.{clean_in, clean};

use record::codes::Code;
use record::{Field, Justification, Line};

// Fields 1 to 3.
const FILE_HEADER: Field = Field {
    start: 1,
    width: 45,
    justification: Justification::Fixed,
};

// Fields 5 to 10.
const BATCH_HEADER_FRONT: Field = Field {
    start: 1,
    width: 56,
    justification: Justification::Fixed,
};

// Fields 12 to 20.
const BATCH_HEADER_BACK: Field = Field {
    start: 60,
    width: 55,
    justification: Justification::Fixed,
};

// Fields 22 to 62.
const DETAIL: Field = Field {
    start: 1,
    width: 676,
    justification: Justification::Fixed,
};

// Fields 64 to 74.
const PARTY: Field = Field {
    start: 1,
    width: 350,
    justification: Justification::Fixed,
};

// Fields 76 to 88.
const ACCOUNT: Field = Field {
    start: 1,
    width: 75,
    justification: Justification::Fixed,
};

// Fields 90 to 96.
const PROCUREMENT: Field = Field {
    start: 1,
    width: 150,
    justification: Justification::Fixed,
};

// Fields 98 to 100.
const BATCH_TRAILER: Field = Field {
    start: 1,
    width: 30,
    justification: Justification::Fixed,
};

// Fields 102 to 105.
const FILE_TRAILER: Field = Field {
    start: 1,
    width: 58,
    justification: Justification::Fixed,
};

// No byte of the batch header is below hex 40 outside its fillers, of which one stands between its fields.
fn is_clean_header(rec: &[u8], line: Line) -> bool
    requires { 850 ≤ length rec.now }
    ensures { result ≡ clean_in (seen line rec.now) (layout BatchHeader) }
{
    record::written_valid(rec, line, BATCH_HEADER_FRONT)
        && record::written_valid(rec, line, BATCH_HEADER_BACK)
}

// No byte of the record, which has this code, is below hex 40 outside its fillers.
pub fn is_clean(rec: &[u8], line: Line, code: Code) -> bool
    requires { (850 ≤ length rec.now) × (code ≡ code_of (seen line rec.now)) }
    ensures { result ≡ clean (seen line rec.now) }
{
    match code {
        Code::FileHeader => record::written_valid(rec, line, FILE_HEADER),
        Code::Batch(_) => is_clean_header(rec, line),
        Code::Detail(_) => record::written_valid(rec, line, DETAIL),
        Code::Party => record::written_valid(rec, line, PARTY),
        Code::Account => record::written_valid(rec, line, ACCOUNT),
        Code::Procurement => record::written_valid(rec, line, PROCUREMENT),
        Code::BatchTrailer => record::written_valid(rec, line, BATCH_TRAILER),
        Code::FileTrailer => record::written_valid(rec, line, FILE_TRAILER),
        Code::Unknown => true,
    }
}
