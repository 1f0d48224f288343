//! Hexadecimal digits of seeds and words.

ghost use Rattle.std.specs.Prelude.{◌≡◌, length, unwrap_or};
ghost use Rattle.std.specs.Int.{w64, to_be_bytes};
ghost use Rattle.hex.specs.Hex.{encode_lower, hex_digit_value};
ghost use Rattle.beet_words.specs.Seeds.{seed_of};
ghost use Rattle.beet_words.specs.TapeFiles.{digits_of};

use hex::FromHex;

/// How many digits a word has.
pub(crate) const DIGITS: usize = 16;

/// What stands in the table for a byte that is no digit.
const NO_DIGIT: u8 = 255;

/// The value of each byte as a hexadecimal digit of either case, or [`NO_DIGIT`].
static VALUES: [u8; 256] = [
    255, 255, 255, 255, 255, 255, 255, 255, 255, 255, 255, 255, 255, 255, 255, 255, 255, 255, 255,
    255, 255, 255, 255, 255, 255, 255, 255, 255, 255, 255, 255, 255, 255, 255, 255, 255, 255, 255,
    255, 255, 255, 255, 255, 255, 255, 255, 255, 255, 0, 1, 2, 3, 4, 5, 6, 7, 8, 9, 255, 255, 255,
    255, 255, 255, 255, 10, 11, 12, 13, 14, 15, 255, 255, 255, 255, 255, 255, 255, 255, 255, 255,
    255, 255, 255, 255, 255, 255, 255, 255, 255, 255, 255, 255, 255, 255, 255, 255, 10, 11, 12, 13,
    14, 15, 255, 255, 255, 255, 255, 255, 255, 255, 255, 255, 255, 255, 255, 255, 255, 255, 255,
    255, 255, 255, 255, 255, 255, 255, 255, 255, 255, 255, 255, 255, 255, 255, 255, 255, 255, 255,
    255, 255, 255, 255, 255, 255, 255, 255, 255, 255, 255, 255, 255, 255, 255, 255, 255, 255, 255,
    255, 255, 255, 255, 255, 255, 255, 255, 255, 255, 255, 255, 255, 255, 255, 255, 255, 255, 255,
    255, 255, 255, 255, 255, 255, 255, 255, 255, 255, 255, 255, 255, 255, 255, 255, 255, 255, 255,
    255, 255, 255, 255, 255, 255, 255, 255, 255, 255, 255, 255, 255, 255, 255, 255, 255, 255, 255,
    255, 255, 255, 255, 255, 255, 255, 255, 255, 255, 255, 255, 255, 255, 255, 255, 255, 255, 255,
    255, 255, 255, 255, 255, 255, 255, 255, 255, 255, 255, 255, 255, 255, 255, 255, 255, 255, 255,
    255, 255, 255,
];

/// The seed that 64 hexadecimal digits of either case write, or none if the text is anything else.
pub fn read_seed(text: &[u8]) -> Option<[u8; 32]>
    ensures { result ≡ seed_of text.now }
{
    <[u8; 32] as FromHex>::from_hex(text).ok()
}

/// The value of a hexadecimal digit of either case, or [`NO_DIGIT`].
fn value_of(digit: u8) -> u8
    ensures { result ≡ unwrap_or (hex_digit_value digit) NO_DIGIT }
{
    VALUES[digit as usize]
}

/// The number that 16 hexadecimal digits of either case write, or none if the text is anything else. All digits are
/// judged at once, after the last.
pub(crate) fn read_digits(text: &[u8]) -> Option<u64>
    ensures { result ≡ digits_of text.now }
{
    if text.len() != DIGITS {
        return None;
    }
    let mut number = 0u64;
    let mut seen = 0;
    for digit in text {
        let value = value_of(*digit);
        seen |= value;
        number = number.wrapping_mul(16).wrapping_add(value as u64);
    }
    if seen < 16 { Some(number) } else { None }
}

/// Writes a number as 16 lower-case digits.
pub(crate) fn write_digits(n: u64, out: &mut [u8])
    requires { length out.old ≡ DIGITS }
    ensures { out.new ≡ encode_lower (to_be_bytes w64 n) }
{
    let bytes = n.to_be_bytes();
    let _ = hex::encode_to_slice(bytes.as_slice(), out);
}
