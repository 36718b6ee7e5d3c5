// Bytes held against each other eight at a time: as one number, the first byte counting most, eight bytes stand in the order of their numbers.
#![tactic(auto)]

ghost use Rattle.std.specs.Prelude.{◌≡◌, ◌+◌, ◌≤◌, length, drop};
ghost use Rattle.std.proofs.Math.Seq.{slice};
ghost use Rattle.record.specs.Ordering.{order, is_after};
ghost use Rattle.words.specs.Words.{weight};

use numbers::wide;

// The number of the eight bytes from `from` on.
fn word(bytes: &[u8], from: usize) -> u64
    requires { from + 8 ≤ length bytes.now }
    ensures { result ≡ weight (slice from (from + 8) bytes.now) }
{
    let mut number = 0;
    for byte in &bytes[from..from + 8] {
        number = number * 256 + wide(*byte);
    }
    number
}

// What is left from `from` on stands after what is left of the others, byte by byte. The slices' own `cmp` takes half as long again for the few
// bytes that are left.
fn rest_after(bytes: &[u8], others: &[u8], from: usize) -> bool
    requires { (length others.now ≡ length bytes.now) × (from ≤ length bytes.now) }
    ensures { result ≡ is_after (order (drop from bytes.now) (drop from others.now)) }
{
    for i in from..bytes.len() {
        if bytes[i] != others[i] {
            return others[i] < bytes[i];
        }
    }
    false
}

// The bytes stand after as many others: the first eight that differ decide, and then the first byte.
pub fn is_after(bytes: &[u8], others: &[u8]) -> bool
    requires { length others.now ≡ length bytes.now }
    ensures { result ≡ is_after (order bytes.now others.now) }
{
    let eights = bytes.len() / 8;
    for i in 0..eights {
        let from = i * 8;
        let own = word(bytes, from);
        let other = word(others, from);
        if own != other {
            return other < own;
        }
    }
    rest_after(bytes, others, eights * 8)
}
