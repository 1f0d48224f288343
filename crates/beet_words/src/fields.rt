//! Fields of binary files: numbers of 8 bytes, the highest byte first.

ghost use Rattle.std.specs.Prelude.{◌≡◌, ◌≤◌, ◌-◌, ◌/◌, ◌++◌, if◌then◌else◌, is_ok, min, length, IfOk};
ghost use Rattle.beet_forms.specs.Faults.{Answers};
ghost use Rattle.beet_words.specs.Fields.{number_at, number_bytes, after_magic, ended};

use beet_forms::ReadFault;
use std::alloc::AllocError;

/// The numbers that a field may hold, and the format's reasons against a field that is cut off
/// and against one that holds another number.
#[derive(Clone, Copy)]
pub struct Allowed {
    pub low: u64,
    pub high: u64,
    pub truncated: u32,
    pub outside: u32,
}

/// How many bytes a field has.
pub const WIDTH: usize = 8;

/// The number of the field at an offset, and the offset after it. A field that is cut off and a number
/// that is not allowed are refused at the offset, for the reasons that `allowed` gives.
pub fn read_number(bytes: &[u8], allowed: Allowed, at: usize) -> Result<(u64, usize), ReadFault>
    requires { at ≤ length bytes.now }
    ensures number { Answers (λ read. read) (number_at bytes.now allowed at) result }
    ensures allowed { IfOk result (λ read. (allowed.low ≤ read.0) × (read.0 ≤ allowed.high)) }
    ensures within { IfOk result (λ read. read.1 ≤ length bytes.now) }
{
    let rest = &bytes[at..];
    if rest.len() < WIDTH {
        return Err(ReadFault::at_offset(at as u64, allowed.truncated));
    }
    let number = u64::from_be_bytes([
        rest[0], rest[1], rest[2], rest[3], rest[4], rest[5], rest[6], rest[7],
    ]);
    if number < allowed.low || allowed.high < number {
        return Err(ReadFault::at_offset(at as u64, allowed.outside));
    }
    Ok((number, at + WIDTH))
}

/// Appends the field of a number. Want of memory is the only error, and leaves the file as it was.
pub fn push_number(file: &mut Vec<u8>, number: u64) -> Result<(), AllocError>
    ensures { file.new.items ≡ (if is_ok result then file.old.items ++ number_bytes number else file.old.items) }
{
    file.extend_from_slice(&number.to_be_bytes())
}

/// For how many of `count` items to take room if each has at least one field: for no more than
/// the file can hold from the offset on.
pub fn room(bytes: &[u8], at: usize, count: u64) -> usize
    requires { at ≤ length bytes.now }
    ensures { result ≡ min count ((length bytes.now - at) / 8) }
{
    let held = (bytes.len() - at) / WIDTH;
    if count < held as u64 {
        count as usize
    } else {
        held
    }
}

/// The offset after the text that a file has to begin with. Another beginning is refused at 0.
pub fn read_magic(bytes: &[u8], magic: &[u8], reason: u32) -> Result<usize, ReadFault>
    ensures magic { Answers (λ at. at) (after_magic bytes.now magic.now reason) result }
    ensures within { IfOk result (λ at. at ≤ length bytes.now) }
{
    if !bytes.starts_with(magic) {
        return Err(ReadFault::at_offset(0, reason));
    }
    Ok(magic.len())
}

/// Refuses a file that does not end at an offset, at that offset.
pub fn read_end(bytes: &[u8], reason: u32, at: usize) -> Result<(), ReadFault>
    ensures { Answers (λ done. done) (ended bytes.now reason at) result }
{
    if at < bytes.len() {
        return Err(ReadFault::at_offset(at as u64, reason));
    }
    Ok(())
}
