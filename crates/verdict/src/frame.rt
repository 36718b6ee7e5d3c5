// The tests of FH and of FT (01 File answers, 8 to 13).
ghost use Rattle.std.specs.Prelude.{◌≡◌, ◌≤◌, length};
ghost use Rattle.record.specs.Fields.{input_system};
ghost use Rattle.record.specs.Value.{seen, held};
ghost use Rattle.money.specs.Money.{worth, Whole};
ghost use Rattle.book.specs.Book.{Usable, listed_at};
ghost use Rattle.verdict.specs.Answer.{strange};
ghost use Rattle.verdict.specs.Order.{header_reason, numbered_in, trailer_reason};

use crate::reason::Reason;
use book::Book;
use book::search::find;
use money::Amount;
use record::{Line, layout};

// The InputSystem is blank or not in the book.
fn is_strange(book: &[u8], shelves: Book, rec: &[u8], line: Line) -> bool
    requires { Usable book.now shelves × (850 ≤ length rec.now) }
    ensures { result ≡ strange (listed_at book.now shelves) (held (seen line rec.now) input_system) }
{
    record::field_blank(rec, line, layout::INPUT_SYSTEM)
        || find(book, shelves.systems, rec, line, layout::INPUT_SYSTEM).is_none()
}

// 8 or 9 by FH.
pub(crate) fn header_reason(book: &[u8], shelves: Book, rec: &[u8], line: Line) -> Option<Reason>
    requires { Usable book.now shelves × (850 ≤ length rec.now) }
    ensures { result ≡ header_reason (listed_at book.now shelves) (seen line rec.now) }
{
    if is_strange(book, shelves, rec, line) {
        return Some(Reason::InputSystem);
    }
    if record::field_is(
        rec,
        line,
        layout::VERSION_IDENTIFIER,
        b"\xF2\xF0\xF1",
        b"201",
    ) {
        return None;
    }
    Some(Reason::Version)
}

// Every number in FT is digits.
fn is_numbered(rec: &[u8], line: Line) -> bool
    requires { 850 ≤ length rec.now }
    ensures { result ≡ numbered_in (seen line rec.now) }
{
    record::field_digits(rec, line, layout::TOTAL_COUNT_RECORDS)
        && record::field_digits(rec, line, layout::TOTAL_COUNT)
        && record::field_digits(rec, line, layout::TOTAL_AMOUNT)
}

// 10 to 13 by FT, whose own number is the record count.
pub(crate) fn trailer_reason(
    rec: &[u8],
    line: Line,
    payments: usize,
    total: Amount,
) -> Option<Reason>
    requires { (850 ≤ length rec.now) × Whole total }
    ensures { result ≡ trailer_reason line.number payments (worth total) (seen line rec.now) }
{
    if !is_numbered(rec, line) {
        return Some(Reason::TrailerDigits);
    }
    if record::field_number(rec, line, layout::TOTAL_COUNT_RECORDS) != line.number as u64 {
        return Some(Reason::RecordCount);
    }
    if record::field_number(rec, line, layout::TOTAL_COUNT) != payments as u64 {
        return Some(Reason::PaymentCount);
    }
    let amount = money::field_amount(rec, line, layout::TOTAL_AMOUNT);
    if money::is_equal(amount, total) {
        return None;
    }
    Some(Reason::TotalAmount)
}
