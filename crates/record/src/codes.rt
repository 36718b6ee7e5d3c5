// Record codes (004 section 1.2), compared with their fixed EBCDIC bytes.
ghost use Rattle.std.specs.Prelude.{◌≡◌, ◌≤◌, true, length};
ghost use Rattle.page.specs.CodePage.{twins};
ghost use Rattle.record.specs.Fields.{record_code};
ghost use Rattle.record.specs.Tests.{alike};
ghost use Rattle.record.specs.Value.{seen, held};
ghost use Rattle.record.specs.Codes.{code_in, code_of, codes, is_detail, is_header, is_trailer, letter_in};

use crate::layout::RECORD_CODE;
use crate::{Line, place};
use page::translate_all;

// The kind of a batch and of its details.
#[derive(Clone, Copy, PartialEq, Eq)]
pub enum Letter {
    N,
    C,
    W,
    I,
    A,
}

// What a record's first two bytes say it is.
#[derive(Clone, Copy, PartialEq, Eq)]
pub enum Code {
    FileHeader,
    Batch(Letter),
    Detail(Letter),
    Party,
    Account,
    Procurement,
    BatchTrailer,
    FileTrailer,
    Unknown,
}

// The two bytes with which a record begins. They are kept in memory only where they are translated.
pub fn code_bytes(rec: &[u8], line: Line) -> [u8; 2]
    requires { 2 ≤ length rec.now }
    ensures { result ≡ held (seen line rec.now) record_code }
{
    if line.ascii {
        let mut bytes = [rec[0], rec[1]];
        translate_all(&mut bytes);
        return bytes;
    }
    [rec[0], rec[1]]
}

// The code that these bytes name: one of the sixteen of 004, or `Unknown`. It is drawn into the loops over a file's records.
#[inline(always)]
pub fn code_of(bytes: [u8; 2]) -> Code
    ensures { result ≡ code_in codes bytes }
{
    match &bytes {
        b"\xC4\xE7" => Code::Party,
        b"\xC4\xE3" => Code::Account,
        b"\xC4\xD7" => Code::Procurement,
        b"\xC4\xD5" => Code::Detail(Letter::N),
        b"\xC4\xC3" => Code::Detail(Letter::C),
        b"\xC4\xE6" => Code::Detail(Letter::W),
        b"\xC4\xC9" => Code::Detail(Letter::I),
        b"\xC4\xC1" => Code::Detail(Letter::A),
        b"\xC2\xD5" => Code::Batch(Letter::N),
        b"\xC2\xC3" => Code::Batch(Letter::C),
        b"\xC2\xE6" => Code::Batch(Letter::W),
        b"\xC2\xC9" => Code::Batch(Letter::I),
        b"\xC2\xC1" => Code::Batch(Letter::A),
        b"\xC6\xC8" => Code::FileHeader,
        b"\xC2\xE3" => Code::BatchTrailer,
        b"\xC6\xE3" => Code::FileTrailer,
        _ => Code::Unknown,
    }
}

// The code is a detail's.
pub fn is_detail(code: Code) -> bool
    ensures { result ≡ is_detail code }
{
    matches!(code, Code::Detail(_))
}

// The record begins with this code, which ASCII files send as the second. A record code is never moved.
fn has_code<'a>(rec: &[u8], line: Line, text: &'a [u8], ascii: &'a [u8]) -> bool
    requires { (2 ≤ length rec.now) × (twins ascii.now text.now ≡ true) }
    ensures { result ≡ alike (held (seen line rec.now) record_code) text.now }
{
    place::is_text(rec, place::locate(rec, line, RECORD_CODE), text, ascii)
}

// The record is a detail: one of five codes, compared as they were sent. DX is asked for first: a batch has one for each detail, or more (01 Nesting).
pub fn has_detail(rec: &[u8], line: Line) -> bool
    requires { 2 ≤ length rec.now }
    ensures { result ≡ is_detail (code_of (seen line rec.now)) }
{
    if has_code(rec, line, b"\xC4\xE7", b"DX") {
        return false;
    }
    if has_code(rec, line, b"\xC4\xD5", b"DN") {
        return true;
    }
    if has_code(rec, line, b"\xC4\xC3", b"DC") {
        return true;
    }
    if has_code(rec, line, b"\xC4\xE6", b"DW") {
        return true;
    }
    if has_code(rec, line, b"\xC4\xC9", b"DI") {
        return true;
    }
    has_code(rec, line, b"\xC4\xC1", b"DA")
}

// The record is a batch header: one of five codes, compared as they were sent.
pub fn has_header(rec: &[u8], line: Line) -> bool
    requires { 2 ≤ length rec.now }
    ensures { result ≡ is_header (code_of (seen line rec.now)) }
{
    if has_code(rec, line, b"\xC2\xD5", b"BN") {
        return true;
    }
    if has_code(rec, line, b"\xC2\xC3", b"BC") {
        return true;
    }
    if has_code(rec, line, b"\xC2\xE6", b"BW") {
        return true;
    }
    if has_code(rec, line, b"\xC2\xC9", b"BI") {
        return true;
    }
    has_code(rec, line, b"\xC2\xC1", b"BA")
}

// The code is BT.
pub fn is_trailer(code: Code) -> bool
    ensures { result ≡ is_trailer code }
{
    matches!(code, Code::BatchTrailer)
}

// The letter of a code; N where it has none: `letter_of` of batch/specs gives each record a letter, and no batch begins with such a code.
pub fn letter_in(code: Code) -> Letter
    ensures { result ≡ letter_in code }
{
    match code {
        Code::Batch(letter) | Code::Detail(letter) => letter,
        _ => Letter::N,
    }
}
