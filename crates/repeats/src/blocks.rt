// The first repeat of a Payment ID past the walks' budget: the IDs of a block of records stand in a sorted table on the stack, and the
// records after the block are looked up in it too, so that each block costs one pass whatever the IDs are.
ghost use Rattle.std.specs.Prelude.{◌≡◌, [], ◌*◌, ◌/◌, ◌<◌, ◌≤◌, length};
ghost use Rattle.record.specs.Value.{seen};
ghost use Rattle.nesting.specs.Records.{cut};
ghost use Rattle.tables.specs.declared.Key.TheVariants.{Value};
ghost use Rattle.tables.specs.Tables.{Stands, Tabled};
ghost use Rattle.repeats.specs.declared.Sort.TheVariants.{Payments};
ghost use Rattle.repeats.specs.Repeats.{numbering, first_repeat};
ghost use Rattle.repeats.specs.Blocks.{visited, count_visited, table_visited, Blocked};

use crate::Sort;
use crate::walk::{is_of, number_field};
use record::Line;
use tables::{Entry, Key, Table};

// The numbers that a block has room for.
pub(crate) const TABLE: usize = 4096;

// What is known after a record of a block: whether it is of the sort, whether the table holds its number, and the first record that found no room.
// The two answers stand apart, since `mark_block` asks for each alone: one of three kinds would have to be taken apart there again.
#[derive(Clone, Copy)]
pub(crate) struct Visited {
    pub(crate) own: bool,
    pub(crate) known: bool,
    pub(crate) next: usize,
}

// Where a block ends, and where the next one begins.
#[derive(Clone, Copy)]
struct BlockEnd {
    place: usize,
    next: usize,
}

// One record of the sort is looked up in the table, and entered where it is new and there is room.
pub(crate) fn visit(
    file: &[u8],
    first: Line,
    place: usize,
    sort: Sort,
    table: &mut Table<TABLE>,
    next: usize,
) -> Visited
    requires { Tabled first.number (Value (numbering sort)) (seen first file.now) table.old.places table.old.count × Stands first.number place file.now × (place < 65536) }
    ensures answer { result ≡ visited sort first.number (seen first file.now) table.old.places table.old.count place next }
    ensures more { table.new.count ≡ count_visited sort first.number (seen first file.now) table.old.places table.old.count place }
    ensures after { table.new.places ≡ table_visited sort first.number (seen first file.now) table.old.places table.old.count place }
{
    if !is_of(file, first, place, sort) {
        return Visited {
            own: false,
            known: false,
            next,
        };
    }
    let field = number_field(sort);
    match table.enter(file, first, place, Key::Value(field)) {
        Entry::Known => Visited {
            own: true,
            known: true,
            next,
        },
        Entry::New => Visited {
            own: true,
            known: false,
            next,
        },
        Entry::Full => Visited {
            own: true,
            known: false,
            next: next.min(place),
        },
    }
}

// The first place before the best at which a detail has the ID of an earlier one of the block that begins at `from`, or the best; and the
// first detail that the block has no room for, or the best.
fn block(part: &[u8], first: Line, from: usize, best: usize) -> BlockEnd
    requires { (length part.now ≤ 65535 * 850) × (first.number ≤ 65536) × (best * 850 ≤ length part.now) × (from < best) }
    ensures { Blocked first.number (seen first part.now) from best result.place result.next }
{
    let mut table: Table<TABLE> = Table::new();
    let mut next = best;
    for place in from..best {
        let seen = visit(part, first, place, Sort::Payments, &mut table, next);
        if seen.known {
            return BlockEnd { place, next };
        }
        next = seen.next;
    }
    BlockEnd { place: best, next }
}

// The first repeat: a record before the best has the ID of no record of the blocks so far that stands before it. The loop has no counter to take
// from it: each block says where the next begins.
pub(crate) fn first_by_blocks(part: &[u8], first: Line) -> Option<usize>
    requires { (length part.now ≤ 65535 * 850) × (first.number ≤ 65536) }
    ensures { result ≡ first_repeat Payments first.number [] (cut first.number (length (seen first part.now) / 850) (seen first part.now)) }
{
    let count = part.len() / 850;
    let mut best = count;
    let mut from: usize = 0;
    while from < best {
        let ended = block(part, first, from, best);
        best = ended.place;
        from = ended.next;
    }
    if best < count {
        return Some(first.number + best);
    }
    None
}
