// Little-endian numbers of any width (01 Code book, Report), read and written through a part of a slice.
#![tactic(auto)]

ghost use Rattle.std.specs.Prelude.{◌≡◌, ◌<◌, ◌≤◌, ◌^◌, length};
ghost use Rattle.numbers.specs.Numbers.{little, number_in};

// The number of a byte. `u64::from` under the name by which docs/CONTRACTS.md has it.
pub fn wide(byte: u8) -> u64
    ensures { (result ≡ byte) × (result < 256) }
{
    u64::from(byte)
}

// The number that the part's bytes write, the least first.
pub fn read(part: &[u8]) -> u64
    requires { length part.now ≤ 8 }
    ensures { (result ≡ number_in part.now) × (result < 256 ^ length part.now) }
{
    let mut number: u64 = 0;
    for byte in part.iter().rev() {
        let least = wide(*byte);
        number = number * 256 + least;
    }
    number
}

// Fills the part with the number's bytes, the least first.
pub fn write(part: &mut [u8], number: u64)
    ensures { part.new ≡ little (length part.old) number }
{
    let mut left = number;
    for byte in part.iter_mut() {
        *byte = (left % 256) as u8;
        left /= 256;
    }
}
