// The first repeat of a Payment ID where the IDs do not climb: passes over classes of a hash, each with a sieve of 65,536 bits on the
// stack. The plain walk is made only where all marks of an ID are set, so that a batch of many payments costs a few passes; the
// walks have a budget, so that no choice of IDs makes it cost more.
ghost use Rattle.std.specs.Prelude.{◌≡◌, [], ◌+◌, ◌*◌, ◌/◌, ◌<◌, ◌≤◌, length, IfSome};
ghost use Rattle.record.specs.Value.{seen, held};
ghost use Rattle.nesting.specs.Records.{cut, record_at};
ghost use Rattle.tables.specs.Tables.{Stands};
ghost use Rattle.repeats.specs.declared.Sort.TheVariants.{Payments};
ghost use Rattle.repeats.specs.declared.sieve.Trial.{Trial};
ghost use Rattle.repeats.specs.declared.sieve.Passing.{Passing};
ghost use Rattle.repeats.specs.Repeats.{numbering, first_repeat};
ghost use Rattle.repeats.specs.Sieve.{word_of, mixed, hash_of, marked, is_marked, has_marks, with_marks, is_suspect, sifted, AllMarked, most_walks, Tried, Passed};

use crate::Sort;
use crate::blocks::first_by_blocks;
use crate::walk::{id_of, is_of, is_repeated};
use numbers::wide;
use record::Line;
use record::layout::PAYMENT_ID;

// The suspects of a batch that are walked: past them, blocks decide.
const WALKS: usize = 16;

// The marks of a hash: 16 bits of it choose each, five bits apart, and all of them lie below the bits that choose the class.
const MARKS: usize = 7;

// Whether a pass ends at a record, and the suspects counted after it.
#[derive(Clone, Copy)]
struct Trial {
    stops: bool,
    walks: usize,
}

// Where a pass ends, and the suspects counted after it.
#[derive(Clone, Copy)]
struct Passing {
    place: usize,
    walks: usize,
}

// Four bytes of an ID as one number.
fn word(id: &[u8], i: usize) -> u64
    requires { i + 4 ≤ length id.now }
    ensures { (result ≡ word_of id.now i) × (result < 4294967296) }
{
    wide(id[i]) + wide(id[i + 1]) * 256 + wide(id[i + 2]) * 65536 + wide(id[i + 3]) * 16777216
}

// One word more in the hash: the low half is spread over all bits, the high half is carried. No step wraps.
fn mix(hash: u64, word: u64) -> u64
    requires { word < 4294967296 }
    ensures { result ≡ mixed hash word }
{
    hash % 4294967296 * 2654435761 + hash / 4294967296 + word
}

// The hash of an ID. No promise rests on it; only the time does.
fn hash_of(id: &[u8]) -> u64
    requires { length id.now ≡ 20 }
    ensures { result ≡ hash_of id.now }
{
    let mut hash: u64 = 0;
    for k in 0..5 {
        hash = mix(hash, word(id, k * 4));
    }
    mix(mix(hash, 0), 0)
}

// The hash of a record's Payment ID, which is read where it stands if it can be.
fn hash_in(rec: &[u8], line: Line) -> u64
    requires { length rec.now ≡ 850 }
    ensures { result ≡ hash_of (held (seen line rec.now) (numbering Payments)) }
{
    if let Some(id) = record::field_part(rec, line, PAYMENT_ID) {
        return hash_of(id);
    }
    hash_of(&id_of(rec, line))
}

// The same of the record at the place.
fn hash_at(part: &[u8], first: Line, place: usize) -> u64
    requires { Stands first.number place part.now }
    ensures { result ≡ hash_of (held (record_at first.number place (seen first part.now)) (numbering Payments)) }
{
    let at = place * 850;
    let end = at + 850;
    let number = first.number + place;
    let ascii = first.ascii;
    hash_in(&part[at..end], Line { number, ascii })
}

fn is_marked(sieve: &[u64; 1024], slot: usize) -> bool
    requires { slot < 65536 }
    ensures { result ≡ is_marked sieve.now slot }
{
    let bits = sieve[slot / 64];
    let bit = slot % 64;
    (bits >> bit) % 2 == 1
}

fn mark(sieve: &mut [u64; 1024], slot: usize)
    requires { slot < 65536 }
    ensures { sieve.new ≡ marked sieve.old slot }
{
    let at = slot / 64;
    let bit = slot % 64;
    sieve[at] = sieve[at] | (1u64 << bit);
}

// The hash has all its marks.
fn has_marks(sieve: &[u64; 1024], hash: u64) -> bool
    ensures { result ≡ has_marks sieve.now hash }
{
    let mut rest = hash;
    for _ in 0..MARKS {
        if !is_marked(sieve, (rest % 65536) as usize) {
            return false;
        }
        rest = rest / 32;
    }
    true
}

fn give_marks(sieve: &mut [u64; 1024], hash: u64)
    ensures { sieve.new ≡ with_marks sieve.old hash }
{
    let mut rest = hash;
    for _ in 0..MARKS {
        mark(sieve, (rest % 65536) as usize);
        rest = rest / 32;
    }
}

// Whether the record at the place is a detail of the class whose ID has its marks already: it may repeat one. A detail of the class has
// its marks after.
fn sift(
    part: &[u8],
    first: Line,
    place: usize,
    classes: u64,
    class: u64,
    sieve: &mut [u64; 1024],
) -> bool
    requires { Stands first.number place part.now × (0 < classes) }
    ensures answer { result ≡ is_suspect classes class sieve.old (record_at first.number place (seen first part.now)) }
    ensures after { sieve.new ≡ sifted classes class sieve.old (record_at first.number place (seen first part.now)) }
{
    if !is_of(part, first, place, Sort::Payments) {
        return false;
    }
    let hash = hash_at(part, first, place);
    if hash / 562949953421312 % classes != class {
        return false;
    }
    let before = has_marks(sieve, hash);
    give_marks(sieve, hash);
    before
}

// Whether the pass ends at the record: a detail of the class that repeats an earlier one. An ID that lacks a mark is new; a suspect is counted
// and walked. There is no answer at one suspect too many.
fn try_at(
    part: &[u8],
    first: Line,
    place: usize,
    classes: u64,
    class: u64,
    walks: usize,
    sieve: &mut [u64; 1024],
) -> Option<Trial>
    requires { Stands first.number place part.now × (0 < classes) × (walks ≤ most_walks) × (length sieve.old ≡ 1024) × AllMarked classes class sieve.old (cut first.number place (seen first part.now)) }
    ensures answer { IfSome result (λ (t : Trial). Tried classes class first.number (seen first part.now) place t.stops t.walks) }
    ensures size { length sieve.new ≡ 1024 }
    ensures after { AllMarked classes class sieve.new (cut first.number (place + 1) (seen first part.now)) }
{
    if !sift(part, first, place, classes, class, sieve) {
        return Some(Trial {
            stops: false,
            walks,
        });
    }
    let walks = walks + 1;
    if WALKS < walks {
        return None;
    }
    let stops = is_repeated(part, first, place, Sort::Payments);
    Some(Trial { stops, walks })
}

// The first place before the best at which a detail of the class repeats an earlier one; else the best. A pass that meets too many
// suspects gives up.
fn pass(
    part: &[u8],
    first: Line,
    classes: u64,
    class: u64,
    best: usize,
    walks: usize,
) -> Option<Passing>
    requires { (length part.now ≤ 65535 * 850) × (first.number ≤ 65536) × (best * 850 ≤ length part.now) × (0 < classes) × (walks ≤ most_walks) }
    ensures { IfSome result (λ (p : Passing). (p.walks ≤ most_walks) × Passed classes class first.number (seen first part.now) best p.place) }
{
    let mut sieve = [0u64; 1024];
    let mut walks = walks;
    for place in 0..best {
        let trial = try_at(part, first, place, classes, class, walks, &mut sieve)?;
        walks = trial.walks;
        if trial.stops {
            return Some(Passing { place, walks });
        }
    }
    Some(Passing { place: best, walks })
}

// The first repeat. A class for 8,192 records: at least every second record of a batch is no detail (01 Nesting), so that some 4,000 IDs
// share a sieve of 65,536 bits, and a new ID meets seven marks of others about once in 1,250 times near the end of a pass. A batch of more
// suspects than the budget has walks, as IDs of one hash make it, is sought by blocks. The first class stands apart: a function that is called in
// two places keeps a frame of its own, so that the sieve is on the stack only while it is used, and not while a batch is walked.
pub(crate) fn first_by_classes(part: &[u8], first: Line) -> Option<usize>
    requires { (length part.now ≤ 65535 * 850) × (first.number ≤ 65536) }
    ensures { result ≡ first_repeat Payments first.number [] (cut first.number (length (seen first part.now) / 850) (seen first part.now)) }
{
    let count = part.len() / 850;
    let classes = (count / 8192) as u64 + 1;
    let Some(opened) = pass(part, first, classes, 0, count, 0) else {
        return first_by_blocks(part, first);
    };
    let mut best = opened.place;
    let mut walks = opened.walks;
    for class in 1..classes {
        let Some(passed) = pass(part, first, classes, class, best, walks) else {
            return first_by_blocks(part, first);
        };
        best = passed.place;
        walks = passed.walks;
    }
    if best < count {
        return Some(first.number + best);
    }
    None
}
