// Records by their places, and the plain walk over the earlier ones.
ghost use Rattle.std.specs.Prelude.{◌≡◌, ◌≤◌, length};
ghost use Rattle.record.specs.Choice.{◌and◌};
ghost use Rattle.record.specs.Value.{seen, held};
ghost use Rattle.record.specs.Tests.{alike};
ghost use Rattle.nesting.specs.Records.{cut, record_at};
ghost use Rattle.tables.specs.Tables.{Stands};
ghost use Rattle.repeats.specs.declared.Sort.TheVariants.{Payments, Batches};
ghost use Rattle.repeats.specs.Repeats.{numbering, is_of, repeats};

use crate::Sort;
use record::codes::{has_detail, has_header};
use record::layout::{PAYMENT_ID, SCHEDULE_NUMBER};
use record::{Field, Line};

// Where the number stands: 004 fields 23 and 6.
pub(crate) fn number_field(sort: Sort) -> Field
    ensures { result ≡ numbering sort }
{
    match sort {
        Sort::Payments => PAYMENT_ID,
        Sort::Batches => SCHEDULE_NUMBER,
    }
}

// The record at the place is one of those that the sort numbers.
pub(crate) fn is_of(file: &[u8], first: Line, place: usize, sort: Sort) -> bool
    requires { Stands first.number place file.now }
    ensures { result ≡ is_of sort (record_at first.number place (seen first file.now)) }
{
    let at = place * 850;
    let end = at + 850;
    let number = first.number + place;
    let ascii = first.ascii;
    let rec = &file[at..end];
    let line = Line { number, ascii };
    match sort {
        Sort::Payments => has_detail(rec, line),
        Sort::Batches => has_header(rec, line),
    }
}

// The record at the earlier place is of the sort, and has the number of the record at the place.
fn agrees(file: &[u8], first: Line, earlier: usize, place: usize, sort: Sort) -> bool
    requires { Stands first.number earlier file.now × Stands first.number place file.now }
    ensures { result ≡ (is_of sort (record_at first.number earlier (seen first file.now)) and alike (held (record_at first.number earlier (seen first file.now)) (numbering sort)) (held (record_at first.number place (seen first file.now)) (numbering sort))) }
{
    if !is_of(file, first, earlier, sort) {
        return false;
    }
    let from = earlier * 850;
    let to = from + 850;
    let number = first.number + earlier;
    let at = place * 850;
    let end = at + 850;
    let own = first.number + place;
    let ascii = first.ascii;
    let field = number_field(sort);
    record::fields_same(
        &file[from..to],
        Line { number, ascii },
        &file[at..end],
        Line { number: own, ascii },
        field,
    )
}

// The record at the place is of the sort and has the number of an earlier one (01 Batch reasons, 6).
pub(crate) fn is_repeated(file: &[u8], first: Line, place: usize, sort: Sort) -> bool
    requires { Stands first.number place file.now }
    ensures { result ≡ repeats sort (cut first.number place (seen first file.now)) (record_at first.number place (seen first file.now)) }
{
    if !is_of(file, first, place, sort) {
        return false;
    }
    for earlier in 0..place {
        if agrees(file, first, earlier, place, sort) {
            return true;
        }
    }
    false
}

// The schedule number of the record at the place (004 field 6).
pub(crate) fn schedule_number(file: &[u8], first: Line, place: usize) -> [u8; 14]
    requires { Stands first.number place file.now }
    ensures { result ≡ held (record_at first.number place (seen first file.now)) (numbering Batches) }
{
    let at = place * 850;
    let end = at + 850;
    let rec = &file[at..end];
    let number = first.number + place;
    let ascii = first.ascii;
    let line = Line { number, ascii };
    record::field_array(rec, line, SCHEDULE_NUMBER)
}

// The Payment ID of a record (004 field 23).
pub(crate) fn id_of(rec: &[u8], line: Line) -> [u8; 20]
    requires { length rec.now ≡ 850 }
    ensures { result ≡ held (seen line rec.now) (numbering Payments) }
{
    record::field_array(rec, line, PAYMENT_ID)
}
