//! What files and a text are given to.

ghost use Rattle.std.specs.Prelude.{◌≡◌};
ghost use Rattle.beet_store.specs.Desks.{DeskSeen, Called, Put, Say};
ghost use Rattle.beet_store.specs.declared.desk.PutFault.TheVariants.{OutOfMemory};

use std::alloc::{AllocError, Global};
use thiserror::Error;

/// Why a file or a text is not taken.
#[derive(Clone, Copy, Debug, PartialEq, Eq, Error)]
pub enum PutFault {
    /// The bytes cannot be written; the count of faults rose.
    #[error("the bytes cannot be written")]
    Failed,
    /// Memory ran out; files and text are as they were.
    #[error("out of memory")]
    OutOfMemory,
}

impl From<AllocError> for PutFault {
    ghost from_gives = { λ _ fault. fault ≡ OutOfMemory };

    fn from(_: AllocError) -> PutFault {
        PutFault::OutOfMemory
    }
}

/// A place that files are put to, by name, and that a text is printed on. Each call is recorded, with its answer.
pub trait Desk {
    /// The calls so far with their answers, the files and the text that it was given if it tells them, and the count of
    /// faults.
    ghost seen: { Self → DeskSeen };

    /// Replaces the whole file of the name. After `Failed` nothing is known of that name, after want of memory the
    /// files are as before.
    fn put(&mut self, alloc: Global, name: &str, bytes: &[u8]) -> Result<(), PutFault>
        ensures { Called (seen self.old) (seen self.new) (Put name.now bytes.now result) };

    /// Appends to the printed text. After `Failed` some front of the bytes went out, after want of memory none did.
    fn say(&mut self, bytes: &[u8]) -> Result<(), PutFault>
        ensures { Called (seen self.old) (seen self.new) (Say bytes.now result) };
}
