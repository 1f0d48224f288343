//! What files are fetched from.

ghost use Rattle.std.specs.Prelude.{◌≡◌};
ghost use Rattle.beet_store.specs.Files.{Seen, HasCause, TellsFetch};
ghost use Rattle.beet_store.specs.declared.shelf.FetchFault.TheVariants.{OutOfMemory};

use std::alloc::{AllocError, Global};
use thiserror::Error;

/// Why a file is not fetched.
#[derive(Clone, Copy, Debug, PartialEq, Eq, Error)]
pub enum FetchFault {
    /// The file is not there, or cannot be read; the count of faults rose.
    #[error("the file cannot be read")]
    Failed,
    /// The file is longer than the limit. The number is its length if the shelf tells its files, and else some
    /// number above the limit.
    #[error("the file is too long: {0} bytes")]
    TooLong(u64),
    /// Memory ran out; the record of fetches is as it was.
    #[error("out of memory")]
    OutOfMemory,
}

impl From<AllocError> for FetchFault {
    ghost from_gives = { λ _ fault. fault ≡ OutOfMemory };

    fn from(_: AllocError) -> FetchFault {
        FetchFault::OutOfMemory
    }
}

/// A place that files are fetched from, by name.
pub trait Shelf {
    /// The fetches so far with their answers, its files if it tells them, and the count of faults.
    ghost seen: { Self → Seen };

    /// Answers the whole file of the name, of at most `limit` bytes. The record holds the name, the limit and the
    /// answer; a fetch that is answered by want of memory leaves no entry.
    fn fetch(&mut self, alloc: Global, name: &str, limit: u64) -> Result<Vec<u8>, FetchFault>
        ensures cause { HasCause (seen self.old).faults (seen self.new).faults limit result }
        ensures content { TellsFetch (seen self.old).told (seen self.new).told name.now limit result };
}
