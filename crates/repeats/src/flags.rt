// Batches whose schedule number an earlier batch has, all at once: the numbers of a block of headers stand in a sorted table on the stack, and
// every later header is looked up in it, so that each block costs one pass whatever the numbers are.
ghost use Rattle.std.specs.Prelude.{◌≡◌, ◌+◌, ◌*◌, ◌/◌, ◌<◌, ◌≤◌, ltb, length, set};
ghost use Rattle.record.specs.Choice.{choose};
ghost use Rattle.page.specs.CodePage.{shown};
ghost use Rattle.repeats.specs.declared.Sort.TheVariants.{Batches};
ghost use Rattle.repeats.specs.Repeats.{numbers};
ghost use Rattle.repeats.specs.Blocks.{between};
ghost use Rattle.repeats.specs.Marking.{zeros, index_after, Marked};
ghost use Rattle.repeats.specs.Schedules.{numbers_before, numbers_from, flags_of};

use crate::Sort;
use crate::blocks::{TABLE, visit};
use record::Line;
use tables::Table;

// Where the next block begins, and the index of the flag of the first header from there on.
#[derive(Clone, Copy)]
struct NextBlock {
    place: usize,
    index: usize,
}

// Every flag says that its batch's number is new.
fn clear(flags: &mut [u8])
    ensures { flags.new ≡ zeros (length flags.old) }
{
    flags.fill(0);
}

// The index of the next flag after the record at the place, which has one if it is a header from the start on.
fn index_after(start: usize, place: usize, heads: bool, index: usize) -> usize
    requires { index < 65536 }
    ensures { result ≡ index_after start place heads index }
{
    if place < start {
        return index;
    }
    if heads {
        return index + 1;
    }
    index
}

// The index at which the next block begins: it goes along until the block leaves a header out, and is kept from then on.
fn kept_index(place: usize, next: usize, kept: usize, after: usize) -> usize
    ensures { result ≡ choose (ltb place next) after kept }
{
    if place < next {
        return after;
    }
    kept
}

// Sets the flag of a record that has one, up to the next index, and whose number is known.
fn set_flag(flags: &mut [u8], index: usize, after: usize, known: bool)
    requires { index < after → index < length flags.old }
    ensures { flags.new ≡ choose (ltb index after) (choose known (set flags.old index 1) flags.old) flags.old }
{
    if after <= index {
        return;
    }
    if known {
        flags[index] = 1;
    }
}

// One block of headers, from a place and the index of the first flag there on: every flag is set whose batch has the number of an earlier one in
// the block. The next block begins at the first header that this one has no room for, or at the number of records. It is never drawn into its caller,
// so that the table is on the stack only while numbers are marked.
#[inline(never)]
fn mark_block(
    file: &[u8],
    ascii: bool,
    start: usize,
    from: usize,
    index: usize,
    flags: &mut [u8],
) -> NextBlock
    requires { (length file.now ≤ 65535 * 850) × (from < length file.now / 850) × Marked (shown ascii file.now) start from flags.old × (index ≡ length (numbers Batches (between 1 start from (shown ascii file.now)))) }
    ensures ahead { from < result.place }
    ensures after { Marked (shown ascii file.now) start result.place flags.new }
    ensures counted { result.index ≡ length (numbers Batches (between 1 start result.place (shown ascii file.now))) }
{
    let first = Line { number: 1, ascii };
    let records = file.len() / 850;
    let mut table: Table<TABLE> = Table::new();
    let mut next = records;
    let mut kept = index;
    let mut flag = index;
    for place in from..records {
        let seen = visit(file, first, place, Sort::Batches, &mut table, next);
        let after = index_after(start, place, seen.own, flag);
        set_flag(flags, flag, after, seen.known);
        kept = kept_index(place, seen.next, kept, after);
        next = seen.next;
        flag = after;
    }
    NextBlock {
        place: next,
        index: kept,
    }
}

// Marks each batch from the start on: 1 where an earlier batch of the file has its number, else 0. The first block begins at
// the file's start, and each that follows where the one before it ends: the loop has no counter to take from it.
pub(crate) fn mark_batches(file: &[u8], ascii: bool, start: usize, flags: &mut [u8])
    requires { (start * 850 + 850 ≤ length file.now) × (length file.now ≤ 65535 * 850) × (length flags.old ≡ length (numbers_from (shown ascii file.now) start)) }
    ensures { flags.new ≡ flags_of (numbers_before (shown ascii file.now) start) (numbers_from (shown ascii file.now) start) }
{
    clear(flags);
    let records = file.len() / 850;
    let mut next = mark_block(file, ascii, start, 0, 0, flags);
    while next.place < records {
        next = mark_block(file, ascii, start, next.place, next.index, flags);
    }
}
