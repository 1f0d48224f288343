//! Decimal numbers.

ghost use Rattle.std.specs.Prelude.{◌≡◌, ◌==◌, ◌&&◌, nat_lt, if◌then◌else◌, ◌≤◌, length, slice_index, ◌++◌, decimal};
ghost use Rattle.std.specs.Prelude.{IfOk, OnOk, OnErr};
ghost use Rattle.std.specs.Char.{is_ascii_digit};
ghost use Rattle.std.specs.List.{list_all};
ghost use Rattle.beet_forms.specs.Numbers.{number_of, decimal_value, digits_within, IsReadBack};

use itoa::Buffer;
use std::alloc::AllocError;
use thiserror::Error;

/// Why a text is no number. The first that stands, in this order, is the answer.
#[derive(Clone, Copy, Debug, PartialEq, Eq, Error)]
pub enum NumberFault {
    /// There are no bytes.
    #[error("no digits")]
    Empty,
    /// A byte is outside `0` to `9`; a sign and a space are.
    #[error("a byte that is no digit")]
    NotDigit,
    /// There is more than one digit, and the first is `0`.
    #[error("a leading zero")]
    LeadingZero,
    /// The number is above the maximum.
    #[error("above the largest number")]
    TooLarge,
}

/// The most digits of which each number is below 2^64.
const FEW: usize = 19;

/// Whether each byte is a digit.
fn are_digits(digits: &[u8]) -> bool
    ensures { result ≡ list_all is_ascii_digit digits.now }
{
    digits.iter().all(|digit| digit.is_ascii_digit())
}

/// Whether more than one digit begins with a zero.
fn has_leading_zero(digits: &[u8]) -> bool
    ensures { result ≡ (nat_lt 1 (length digits.now) && (slice_index digits.now 0 == 48)) }
{
    digits.len() > 1 && digits[0] == b'0'
}

/// The number that the digits write, or none if it is above the largest.
fn value_within(digits: &[u8], max: u64) -> Option<u64>
    ensures { result ≡ (if nat_lt max (decimal_value digits.now) then None else Some (decimal_value digits.now)) }
{
    let mut value = 0u64;
    for digit in digits {
        let next = value as u128 * 10 + digit.saturating_sub(b'0') as u128;
        if next > max as u128 {
            return None;
        }
        value = next as u64;
    }
    Some(value)
}

/// What [`read_digits`] answers, of any number of digits.
#[cold]
#[inline(never)]
fn read_many(digits: &[u8], max: u64) -> Option<Option<u64>>
    ensures { result ≡ digits_within max digits.now }
{
    if !are_digits(digits) {
        return None;
    }
    Some(value_within(digits, max))
}

/// What [`read_digits`] answers, of so few digits that their number is below 2^64. They are gone over once.
fn read_few(digits: &[u8], max: u64) -> Option<Option<u64>>
    requires { length digits.now ≤ FEW }
    ensures { result ≡ digits_within max digits.now }
{
    let mut value = 0u64;
    for digit in digits {
        if !digit.is_ascii_digit() {
            return None;
        }
        value = 10 * value + (*digit - b'0') as u64;
    }
    if value > max {
        return Some(None);
    }
    Some(Some(value))
}

/// The number that the digits write, and within that none if it is above the largest. None if a byte is no digit.
fn read_digits(digits: &[u8], max: u64) -> Option<Option<u64>>
    ensures { result ≡ digits_within max digits.now }
{
    if digits.len() > FEW {
        return read_many(digits, max);
    }
    read_few(digits, max)
}

/// The number that decimal digits write, up to a maximum. The faults are tested in the order of [`NumberFault`].
pub fn number(digits: &[u8], max: u64) -> Result<u64, NumberFault>
    ensures value { result ≡ number_of digits.now max }
    ensures printed { IfOk result (λ n. decimal n ≡ digits.now) }
{
    if digits.is_empty() {
        return Err(NumberFault::Empty);
    }
    let Some(value) = read_digits(digits, max) else {
        return Err(NumberFault::NotDigit);
    };
    if has_leading_zero(digits) {
        return Err(NumberFault::LeadingZero);
    }
    value.ok_or(NumberFault::TooLarge)
}

/// Appends the decimal digits of a number, which `number` reads back. Want of memory is the only error.
pub fn push_decimal(out: &mut Vec<u8>, n: u64) -> Result<(), AllocError>
    ensures ok { OnOk result (out.new.items ≡ out.old.items ++ decimal n) }
    ensures err { OnErr result (out.new.items ≡ out.old.items) }
    ensures read_back { IsReadBack n }
{
    let mut buffer = Buffer::new();
    out.extend_from_slice(buffer.format(n).as_bytes())
}
