// Numbers that repeat an earlier one (01 Batch reasons, 6).
#![tactic(auto)]

mod blocks;
pub mod climb;
mod flags;
mod sieve;
mod walk;

ghost use Rattle.std.specs.Prelude.{◌≡◌, [], ◌*◌, ◌/◌, ◌≤◌, length};
ghost use Rattle.page.specs.CodePage.{shown};
ghost use Rattle.record.specs.Value.{seen};
ghost use Rattle.nesting.specs.Records.{cut};
ghost use Rattle.repeats.specs.declared.Sort.TheVariants.{Payments};
ghost use Rattle.repeats.specs.Repeats.{first_repeat};
ghost use Rattle.repeats.specs.Schedules.{Batched, Noted, numbers_before, numbers_from, numbered, flagged};

use record::Line;

// What is numbered: payments by Payment ID, batches by schedule number. A trait in place of the enum would be no plainer: `numbering` and `is_of` in
// Repeats.antt, and what is proved of a table's records, are of either sort.
#[derive(Clone, Copy)]
pub enum Sort {
    Payments,
    Batches,
}

// What is known of a batch's schedule number: whether an earlier batch has it, the greatest number while they rise, and whether the batches are
// marked. No Option: `number_batch` promises by `numbered` that the greatest stays known beside the mark.
#[derive(Clone, Copy)]
pub struct Numbering {
    pub repeats: bool,
    pub greatest: [u8; 14],
    pub marked: bool,
}

// Whether an earlier batch has the schedule number of the batch whose header stands at the place (01 Batch reasons, 6). While the numbers
// rise, none repeats; the first that does not has all batches from it on marked, each by a byte of the flags, and from then on the flags tell.
pub fn number_batch(
    file: &[u8],
    ascii: bool,
    place: usize,
    greatest: [u8; 14],
    marked: bool,
    flags: &mut [u8],
) -> Numbering
    requires { Batched (shown ascii file.now) place flags.old × Noted (numbers_before (shown ascii file.now) place) (numbers_from (shown ascii file.now) place) greatest marked flags.old }
    ensures answer { result ≡ numbered (shown ascii file.now) place greatest marked }
    ensures after { flags.new ≡ flagged (shown ascii file.now) place greatest marked flags.old }
{
    if marked {
        let repeats = flags[0] == 1;
        return Numbering {
            repeats,
            greatest,
            marked,
        };
    }
    let first = Line { number: 1, ascii };
    let number = walk::schedule_number(file, first, place);
    if words::is_after(&number, &greatest) {
        return Numbering {
            repeats: false,
            greatest: number,
            marked,
        };
    }
    flags::mark_batches(file, ascii, place, flags);
    let repeats = flags[0] == 1;
    Numbering {
        repeats,
        greatest,
        marked: true,
    }
}

// The first record of the part that repeats an earlier Payment ID in it (01 Batch reasons, 6); the part's first record has the number
// `first`.
pub fn first_repeat(part: &[u8], first: Line) -> Option<usize>
    requires { (length part.now ≤ 65535 * 850) × (first.number ≤ 65536) }
    ensures { result ≡ first_repeat Payments first.number [] (cut first.number (length (seen first part.now) / 850) (seen first part.now)) }
{
    sieve::first_by_classes(part, first)
}
