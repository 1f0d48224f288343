//! The record of the calls of a shelf or a desk. It exists in proofs alone, so that no call fails for want of its
//! memory.

ghost use Rattle.std.specs.Prelude.{◌≡◌};
ghost use Rattle.std.specs.Borrow.{ftrue};
ghost use Rattle.beet_store.specs.Histories.{Recorded, recorded_code, none_recorded};

use crate::desk::PutFault;
use crate::shelf::FetchFault;
use std::marker::Model;

/// The calls so far, in order. A clause reads them as `so_far`.
#[derive(Drop)]
pub(crate) struct History {
    ghost so_far: { Recorded } by { recorded_code },
}

impl Model for History {
    ghost also_owns = { λ _. ftrue };
}

/// A call that is recorded, with its answer. A fetch that is answered by want of memory leaves no entry.
#[derive(Clone, Copy, Drop)]
pub(crate) enum Asked<'a> {
    Fetch(&'a str, u64, &'a Result<Vec<u8>, FetchFault>),
    Put(&'a str, &'a [u8], Result<(), PutFault>),
    Say(&'a [u8], Result<(), PutFault>),
}

impl History {
    ghost use Rattle.beet_store.specs.Recording.{recorded};

    pub(crate) fn new() -> History
        ensures { result.so_far ≡ none_recorded }
    {
        History {}
    }

    /// The record with one call more.
    #[inline(always)]
    pub(crate) fn and(&self, _call: &Asked<'_>) -> History
        ensures { result.so_far ≡ recorded self.now.so_far _call.now }
    {
        History {}
    }
}
