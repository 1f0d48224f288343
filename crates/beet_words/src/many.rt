//! So many items of a binary file, one after another.

ghost use Rattle.std.specs.Prelude.{◌≤◌, ℕ, length, IfOk};
ghost use Rattle.beet_forms.specs.Faults.{Answers};
ghost use Rattle.beet_words.specs.Fields.{Part, times};

use crate::fields::room;
use beet_forms::ReadFault;
use std::alloc::Global;

/// So many items, each from the offset on where the one before it ends, and the offset after the last. Each item has at
/// least one field, so that room is taken for no more of them than the file can hold.
pub fn read_many<T: Drop, F: Fn(usize) -> Result<(T, usize), ReadFault>>(
    alloc: Global,
    bytes: &[u8],
    count: u64,
    at: usize,
    read_one: F,
) -> Result<(Vec<T>, usize), ReadFault>
    requires at { at ≤ length bytes.now }
    requires callable { (from : ℕ) → from ≤ length bytes.now → F.pre read_one from }
    requires within { (from : ℕ) (read : _) → from ≤ length bytes.now → F.post read_one from read →
        IfOk read (λ r. r.1 ≤ length bytes.now) }
    ensures items { (part : Part T)
        → ((from : ℕ) (read : _) → from ≤ length bytes.now → F.post read_one from read →
        Answers (λ r. r) (part from) read)
        → Answers (λ read. (read.0.items, read.1)) (times count part at) result }
    ensures within { IfOk result (λ read. read.1 ≤ length bytes.now) }
{
    let mut items = Vec::with_capacity(alloc, room(bytes, at, count))?;
    let mut next = at;
    for _k in 0..count {
        let (item, after) = read_one(next)?;
        items.push(item)?;
        next = after;
    }
    Ok((items, next))
}
