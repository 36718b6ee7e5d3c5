// Payment IDs that climb: where each stands after all those before it, none repeats.
ghost use Rattle.std.specs.Prelude.{◌≡◌, length};
ghost use Rattle.record.specs.Value.{seen};
ghost use Rattle.record.specs.Codes.{code_of};
ghost use Rattle.repeats.specs.Climb.{climbed};

use crate::walk::id_of;
use record::Line;
use record::codes::{Code, is_detail};

// Whether a Payment ID failed to stand after all those before it, and the greatest ID before it fell. No Option: `climb` promises by `climbed` that
// the greatest stays known after a fall.
#[derive(Clone, Copy)]
pub struct Climbing {
    pub falls: bool,
    pub greatest: [u8; 20],
}

// One record more of a climb; only details have an ID.
pub fn climb(rec: &[u8], line: Line, code: Code, known: Climbing) -> Climbing
    requires { (length rec.now ≡ 850) × (code ≡ code_of (seen line rec.now)) }
    ensures { result ≡ climbed (seen line rec.now) known }
{
    if known.falls {
        return known;
    }
    if !is_detail(code) {
        return known;
    }
    let greatest = known.greatest;
    let id = id_of(rec, line);
    if words::is_after(&id, &greatest) {
        return Climbing {
            falls: false,
            greatest: id,
        };
    }
    Climbing {
        falls: true,
        greatest,
    }
}
