// Routing numbers (document 01, Routing number).
ghost use Rattle.std.specs.Prelude.{◌≡◌};
ghost use Rattle.record.specs.Value.{Has, seen, held};
ghost use Rattle.record.specs.Routing.{prefix_listed, routing};

use crate::{Field, Line};

// The two digits may begin a routing number.
fn prefix_listed(prefix: u64) -> bool
    ensures { result ≡ prefix_listed «prefix» }
{
    match prefix {
        0..=12 | 21..=32 | 61..=72 | 80 => true,
        _ => false,
    }
}

// The field holds a routing number: digits, of which the first two are listed. Nine bytes that are digits stand where they belong; the width is
// written out so that their loop is unrolled.
pub fn field_routing(rec: &[u8], line: Line, field: Field) -> bool
    requires { Has rec.now field × (field.width ≡ 9) }
    ensures { result ≡ routing (held (seen line rec.now) field) }
{
    if crate::written_digits(rec, line, field, 0, 9) {
        let prefix = crate::written_number(rec, line, field, 0, 2);
        return prefix_listed(prefix);
    }
    if crate::field_digits(rec, line, field) {
        let prefix = crate::part_number(rec, line, field, 0, 2);
        return prefix_listed(prefix);
    }
    false
}
