// ASCII files (02 W2): which they are, and what their bytes become.
#![tactic(auto)]

ghost use Rattle.std.specs.Prelude.{◌≡◌, true, ◌&&◌, leb};
ghost use Rattle.page.specs.CodePage.{sent_digits, ebcdic, shown, is_ascii};

// The bytes of the printable characters, hex 20 to 7E, in code page 037.
const CODE_PAGE: [u8; 95] = [
    0x40, 0x5A, 0x7F, 0x7B, 0x5B, 0x6C, 0x50, 0x7D, 0x4D, 0x5D, 0x5C, 0x4E, 0x6B, 0x60, 0x4B, 0x61,
    0xF0, 0xF1, 0xF2, 0xF3, 0xF4, 0xF5, 0xF6, 0xF7, 0xF8, 0xF9, 0x7A, 0x5E, 0x4C, 0x7E, 0x6E, 0x6F,
    0x7C, 0xC1, 0xC2, 0xC3, 0xC4, 0xC5, 0xC6, 0xC7, 0xC8, 0xC9, 0xD1, 0xD2, 0xD3, 0xD4, 0xD5, 0xD6,
    0xD7, 0xD8, 0xD9, 0xE2, 0xE3, 0xE4, 0xE5, 0xE6, 0xE7, 0xE8, 0xE9, 0xBA, 0xE0, 0xBB, 0xB0, 0x6D,
    0x79, 0x81, 0x82, 0x83, 0x84, 0x85, 0x86, 0x87, 0x88, 0x89, 0x91, 0x92, 0x93, 0x94, 0x95, 0x96,
    0x97, 0x98, 0x99, 0xA2, 0xA3, 0xA4, 0xA5, 0xA6, 0xA7, 0xA8, 0xA9, 0xC0, 0x4F, 0xD0, 0xA1,
];

// What a byte of an ASCII file becomes.
pub fn translate(byte: u8) -> u8
    ensures { result ≡ ebcdic byte }
{
    match byte {
        0x20..=0x7E => {
            let at = usize::from(byte - 0x20);
            CODE_PAGE[at]
        }
        _ => 0x3F,
    }
}

// The byte is a digit's in ASCII.
fn is_digit(byte: u8) -> bool
    ensures { result ≡ (leb 0x30 byte && leb byte 0x39) }
{
    matches!(byte, 0x30..=0x39)
}

// Every byte is a digit.
fn are_digits(bytes: &[u8]) -> bool
    ensures { result ≡ sent_digits bytes.now }
{
    bytes.iter().all(|byte| is_digit(*byte))
}

// Translates digits, where they stand.
fn shift_digits(bytes: &mut [u8])
    requires { sent_digits bytes.old ≡ true }
    ensures { bytes.new ≡ shown true bytes.old }
{
    for byte in bytes.iter_mut() {
        *byte += 0xC0;
    }
}

// Translates each of these bytes, where they stand: digits, which land in a row, without the table.
pub fn translate_all(bytes: &mut [u8])
    ensures { bytes.new ≡ shown true bytes.old }
{
    if are_digits(bytes) {
        shift_digits(bytes);
        return;
    }
    for byte in bytes.iter_mut() {
        *byte = translate(*byte);
    }
}

// The file is ASCII: its first two bytes are FH in ASCII.
pub fn is_ascii(file: &[u8]) -> bool
    ensures { result ≡ is_ascii file.now }
{
    file.starts_with(b"FH")
}
