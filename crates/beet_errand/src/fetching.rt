//! Fetching a file, and judging it before the next one.

ghost use Rattle.std.specs.Prelude.{◌≡◌, ◌≤◌, IfOk, vec_len};
ghost use Rattle.beet_forms.specs.FaultLines.{fault_line_of};
ghost use Rattle.beet_errand.specs.Texts.{read_fault_text};
ghost use Rattle.beet_errand.specs.Errands.{Wants};
ghost use Rattle.beet_errand.specs.Fetches.{Reads, Judges, Refuses};

use crate::answer::{Refusal, Stop};
use beet_forms::{FaultPlace, ReadFault, fault_line};
use beet_store::{FetchFault, Shelf};
use std::alloc::{AllocError, Global};

/// The line for a file that cannot be fetched.
fn read_fault_line(alloc: Global, name: &str) -> Result<Vec<u8>, AllocError>
    ensures { IfOk result (λ line. line.items ≡ read_fault_text name.now) }
{
    Ok(format!(in alloc; "read fault: {name}\n")?.into_bytes())
}

/// The reason of a file that is longer than its limit, at row 0.
pub const TOO_LONG: u32 = 20;

/// Refuses a file at the first place that breaks its format.
pub fn refuse(alloc: Global, name: &str, place: FaultPlace, reason: u32) -> Stop
    ensures { Refuses Refusal.BadFile (fault_line_of name.now place reason) result }
{
    Stop::of_line(Refusal::BadFile, fault_line(alloc, name, place, reason))
}

/// The whole file of the name, of at most `limit` bytes. The line for a file that cannot be fetched is made first, so
/// that want of memory never stands for a fetch that failed.
pub fn fetch_file<S: Shelf>(
    alloc: Global,
    shelf: &mut S,
    name: &str,
    limit: u64,
) -> Result<Vec<u8>, Stop>
    ensures limited { IfOk result (λ bytes. vec_len bytes ≤ limit) }
    ensures reads { Reads (λ bytes. bytes.items) (S.seen shelf.old) (S.seen shelf.new) (Wants name.now limit) result }
{
    let unread = read_fault_line(alloc, name)?;
    match shelf.fetch(alloc, name, limit) {
        Ok(bytes) => Ok(bytes),
        Err(FetchFault::Failed) => Err(Stop::Refused(Refusal::ReadFault, unread)),
        Err(FetchFault::TooLong(_)) => Err(refuse(alloc, name, FaultPlace::Row(0), TOO_LONG)),
        Err(FetchFault::OutOfMemory) => Err(Stop::OutOfMemory),
    }
}

/// The value of a file that was read, or the line that names its first fault.
pub fn judge<T: Drop>(alloc: Global, name: &str, read: Result<T, ReadFault>) -> Result<T, Stop>
    ensures { Judges name.now read result }
{
    match read {
        Ok(value) => Ok(value),
        Err(ReadFault::Bad { place, reason }) => Err(refuse(alloc, name, place, reason)),
        Err(ReadFault::OutOfMemory) => Err(Stop::OutOfMemory),
    }
}
