//! Quantities of a curve that fall or rise from price to price.

ghost use Rattle.std.specs.Prelude.{◌≡◌, ◌≤◌, length, IfOk};
ghost use Rattle.beet_forms.specs.Faults.{Answers};
ghost use Rattle.beet_words.specs.Fields.{number_at};
ghost use Rattle.beet_view.specs.Transcripts.{from_to as allowed_from_to, allowed_after, start_of, quantities_at};

use beet_bids::LARGEST_QUANTITY;
use beet_forms::ReadFault;
use beet_words::{Allowed, BAD_NUMBER, TRUNCATED, read_number, room};
use std::alloc::Global;

/// How the quantities of a curve go on from price to price.
#[derive(Clone, Copy)]
pub(crate) enum Course {
    /// None is above the one before it.
    Falling,
    /// None is below the one before it.
    Rising,
}

/// The numbers of a transcript from the lowest to the highest.
pub(crate) fn from_to(low: u64, high: u64) -> Allowed
    ensures { result ≡ allowed_from_to low high }
{
    Allowed {
        low,
        high,
        truncated: TRUNCATED,
        outside: BAD_NUMBER,
    }
}

/// The number of a transcript at an offset, from the lowest to the highest, and the offset after it.
pub(crate) fn read_from_to(
    bytes: &[u8],
    low: u64,
    high: u64,
    at: usize,
) -> Result<(u64, usize), ReadFault>
    requires { at ≤ length bytes.now }
    ensures number { Answers (λ read. read) (number_at bytes.now (allowed_from_to low high) at) result }
    ensures allowed { IfOk result (λ read. (low ≤ read.0) × (read.0 ≤ high)) }
    ensures within { IfOk result (λ read. read.1 ≤ length bytes.now) }
{
    read_number(bytes, from_to(low, high), at)
}

impl Course {
    /// What stands before the first quantity.
    fn start(self) -> u64
        ensures { result ≡ start_of self }
    {
        match self {
            Course::Falling => LARGEST_QUANTITY,
            Course::Rising => 0,
        }
    }

    /// What a quantity may be after the one before it.
    fn allowed_after(self, before: u64) -> Allowed
        ensures { result ≡ allowed_after self before }
    {
        match self {
            Course::Falling => from_to(0, before),
            Course::Rising => from_to(before, LARGEST_QUANTITY),
        }
    }

    /// So many quantities, each allowed after the one before it.
    pub(crate) fn read(
        self,
        alloc: Global,
        bytes: &[u8],
        count: u64,
        at: usize,
    ) -> Result<(Vec<u64>, usize), ReadFault>
        requires { at ≤ length bytes.now }
        ensures quantities { Answers (λ read. (read.0.items, read.1))
            (quantities_at bytes.now self count (start_of self) at) result }
        ensures within { IfOk result (λ read. read.1 ≤ length bytes.now) }
    {
        let Ok(mut quantities) = Vec::with_capacity(alloc, room(bytes, at, count)) else {
            return Err(ReadFault::OutOfMemory);
        };
        let mut before = self.start();
        let mut next = at;
        for _k in 0..count {
            let (quantity, after) = read_number(bytes, self.allowed_after(before), next)?;
            let Ok(()) = quantities.push(quantity) else {
                return Err(ReadFault::OutOfMemory);
            };
            before = quantity;
            next = after;
        }
        Ok((quantities, next))
    }
}
