// The words of a row, text in ASCII, with blanks between them.
ghost use Rattle.std.specs.Prelude.{◌≡◌, ◌<◌, ◌≤◌, MatchOption, length};
ghost use Rattle.cases.specs.Words.{digit_of, letter_of};

use record::codes::Letter;

// The words that are left of a row. Of a number the last digits count: it is read modulo `BELOW`.
#[derive(Drop)]
pub struct Words<'a, const BELOW: usize> {
    pub rest: &'a [u8],
    ghost bounded: { (0 < BELOW) × (BELOW ≤ 1000000) },
}

// The payments of a batch, and the DX, DT and DP of each.
#[derive(Clone, Copy)]
pub struct Shape {
    pub payments: usize,
    pub parties: usize,
    pub accounts: usize,
    pub procurements: usize,
}

// The number of a digit, decimal or hexadecimal; 0 where it is none. `char::to_digit` would take `a` to `f` too, which count as none here.
pub fn digit(x: u8) -> u8
    ensures value { result ≡ digit_of x }
    ensures below { result < 16 }
{
    match x {
        b'0'..=b'9' => x - b'0',
        b'A'..=b'F' => x - b'A' + 10,
        _ => 0,
    }
}

// The letter of a batch; any other byte counts as A.
pub fn letter_of(byte: u8) -> Letter
    ensures { result ≡ letter_of byte }
{
    match byte {
        b'N' => Letter::N,
        b'C' => Letter::C,
        b'W' => Letter::W,
        b'I' => Letter::I,
        _ => Letter::A,
    }
}

impl<'a, const BELOW: usize> Words<'a, BELOW> {
    // The next word, where there is one.
    pub fn next_word(&mut self) -> Option<&'a [u8]>
        ensures shorter { length self.new.rest.now ≤ length self.old.rest.now }
        ensures word { MatchOption result (Unit {0}) (λ word. (0 < length word.now) × (length self.new.rest.now < length self.old.rest.now)) }
    {
        let start = self.rest.iter().position(|byte| *byte != b' ')?;
        let row = &self.rest[start + 1..];
        let more = row
            .iter()
            .position(|byte| *byte == b' ')
            .unwrap_or(row.len());
        let word = &self.rest[start..start + 1 + more];
        self.rest = &row[more..];
        Some(word)
    }

    // The number that the next word writes; 0 where there is none.
    pub fn next_number(&mut self) -> usize
        ensures below { result < BELOW }
        ensures shorter { length self.new.rest.now ≤ length self.old.rest.now }
    {
        let mut number = 0;
        for byte in self.next_word().unwrap_or(&[]) {
            number = (number * 10 + usize::from(digit(*byte))) % BELOW;
        }
        number
    }

    // The letter with which the next word begins.
    pub fn next_letter(&mut self) -> Letter
        ensures { length self.new.rest.now ≤ length self.old.rest.now }
    {
        match self.next_word() {
            Some(word) => letter_of(word[0]),
            None => Letter::A,
        }
    }

    // The next four numbers as a batch's shape.
    pub fn next_shape(&mut self) -> Shape
        ensures payments { result.payments < BELOW }
        ensures shorter { length self.new.rest.now ≤ length self.old.rest.now }
    {
        Shape {
            payments: self.next_number(),
            parties: self.next_number(),
            accounts: self.next_number(),
            procurements: self.next_number(),
        }
    }
}
