// Reasons of fields whose codes must be in the code book, by what was looked up there: listed or not.
#![tactic(auto, using(crate::proofs::Laws::checks), unfolding(crate::specs::Reasons::in_book, crate::specs::Reasons::if_in_book))]

ghost use Rattle.std.specs.Prelude.{◌≡◌};
ghost use Rattle.record.specs.Value.{Has, seen, held};
ghost use Rattle.reasons.specs.Reasons.{in_book, if_in_book};

use crate::Reason;
use record::{Field, Line};

// Required, in the book.
pub fn in_book(rec: &[u8], line: Line, field: Field, listed: bool) -> Result<(), Reason>
    requires { Has rec.now field }
    ensures { result ≡ in_book listed (held (seen line rec.now) field) }
{
    if record::field_blank(rec, line, field) {
        return Err(Reason::Blank);
    }
    if listed {
        return Ok(());
    }
    Err(Reason::Absent)
}

// If filled, in the book.
pub fn if_in_book(rec: &[u8], line: Line, field: Field, listed: bool) -> Result<(), Reason>
    requires { Has rec.now field }
    ensures { result ≡ if_in_book listed (held (seen line rec.now) field) }
{
    if record::field_blank(rec, line, field) {
        return Ok(());
    }
    if listed {
        return Ok(());
    }
    Err(Reason::Absent)
}
