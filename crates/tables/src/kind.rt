// The order of two kinds (02 W1): field by field, since what a field holds is a matter of that field alone.
ghost use Rattle.std.specs.Prelude.{◌≡◌, ◌<◌, ◌≤◌, length, take, drop};
ghost use Rattle.record.specs.Value.{seen};
ghost use Rattle.record.specs.Ordering.{order};
ghost use Rattle.tables.specs.Kind.{kind, kind_fields};
ghost use Rattle.tables.specs.Comparing.{stretch, common, kind_field, Under, Over};

use record::layout::{
    AGENCY_IDENTIFIER, BUSINESS_EVENT_TYPE_CODE, MAIN_ACCOUNT_CODE, SUB_ACCOUNT_CODE,
};
use record::{Field, Justification, Line};
use std::cmp::Ordering;

// Field 78.
const SUB_LEVEL_PREFIX_CODE: Field = Field {
    start: 23,
    width: 2,
    justification: Justification::Text,
};

// Field 79.
const ALLOCATION_TRANSFER_AGENCY_IDENTIFIER: Field = Field {
    start: 25,
    width: 3,
    justification: Justification::Text,
};

// Field 81.
const BEGINNING_PERIOD_OF_AVAILABILITY: Field = Field {
    start: 31,
    width: 4,
    justification: Justification::Text,
};

// Field 82.
const ENDING_PERIOD_OF_AVAILABILITY: Field = Field {
    start: 35,
    width: 4,
    justification: Justification::Text,
};

// Field 83.
const AVAILABILITY_TYPE_CODE: Field = Field {
    start: 39,
    width: 1,
    justification: Justification::Text,
};

// The fields of a kind: 004's 78 to 86.
const FIELDS: usize = 9;

// Their bytes: positions 23 to 54.
const BYTES: usize = 32;

// The field of a kind at `k`, counted from 0.
fn kind_field(k: usize) -> Field
    requires { k < 9 }
    ensures { result ≡ kind_field k }
{
    match k {
        0 => SUB_LEVEL_PREFIX_CODE,
        1 => ALLOCATION_TRANSFER_AGENCY_IDENTIFIER,
        2 => AGENCY_IDENTIFIER,
        3 => BEGINNING_PERIOD_OF_AVAILABILITY,
        4 => ENDING_PERIOD_OF_AVAILABILITY,
        5 => AVAILABILITY_TYPE_CODE,
        6 => MAIN_ACCOUNT_CODE,
        7 => SUB_ACCOUNT_CODE,
        _ => BUSINESS_EVENT_TYPE_CODE,
    }
}

// The field of a kind in which its byte `i` lies, both counted from 0: those before it end before that byte, and it and those behind it do not.
fn field_at(i: usize) -> usize
    ensures few { result ≤ 9 }
    ensures under { Under i (take result kind_fields) }
    ensures over { Over i (drop result kind_fields) }
{
    match i {
        0..=1 => 0,
        2..=4 => 1,
        5..=7 => 2,
        8..=11 => 3,
        12..=15 => 4,
        16 => 5,
        17..=20 => 6,
        21..=23 => 7,
        24..=31 => 8,
        _ => FIELDS,
    }
}

// The first byte, as they were sent, in which the kinds of two records differ, counted from 0; or their number.
fn first_unlike(rec: &[u8], other: &[u8]) -> usize
    requires { (length rec.now ≡ 850) × (length other.now ≡ 850) }
    ensures { result ≡ common (stretch rec.now) (stretch other.now) }
{
    for i in 0..BYTES {
        if rec[22 + i] != other[22 + i] {
            return i;
        }
    }
    BYTES
}

// How the kind of one record stands to that of another of the file. Fields before the first byte that differs as it was sent hold the same.
pub(crate) fn kind_order(rec: &[u8], line: Line, other: &[u8], other_line: Line) -> Ordering
    requires { (length rec.now ≡ 850) × (length other.now ≡ 850) × (line.ascii ≡ other_line.ascii) }
    ensures { result ≡ order (kind (seen line rec.now)) (kind (seen other_line other.now)) }
{
    for k in field_at(first_unlike(rec, other))..FIELDS {
        match record::fields_order(rec, line, other, other_line, kind_field(k)) {
            Ordering::Equal => {}
            found => {
                return found;
            }
        }
    }
    Ordering::Equal
}
