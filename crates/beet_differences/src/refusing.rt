//! The refusal of two worlds.

ghost use Rattle.std.specs.Prelude.{◌≡◌, IfErr, IfOk};
ghost use Rattle.beet_errand.specs.Fetches.{Refuses};
ghost use Rattle.beet_errand.specs.declared.answer.OwnRefusal.TheVariants.{OfWorlds};
ghost use Rattle.beet_errand.specs.declared.answer.Refusal.TheVariants.{Own};
ghost use Rattle.beet_errand.specs.declared.answer.Stop.TheVariants.{OutOfMemory, Refused};
ghost use Rattle.beet_differences.specs.Comparing.{bidder_text};

use beet_errand::{OwnRefusal, Refusal, Stop};
use std::alloc::{AllocError, Global};

/// The line for two worlds of which one bidder differs, for this reason.
fn bidder_line(
    alloc: Global,
    refused: &str,
    reason: &str,
    bidder: u32,
) -> Result<Vec<u8>, AllocError>
    ensures { IfOk result (λ line. line.items ≡ bidder_text refused.now reason.now bidder) }
{
    let line = format!(in alloc; "{refused} {reason} {bidder}\n")?;
    Ok(line.into_bytes())
}

/// Refuses two worlds by the line that was made for them. If there was no memory for the line, the job stops for that.
pub fn refuse_worlds(line: Result<Vec<u8>, AllocError>) -> Stop
    ensures refused { IfOk line (λ line. result ≡ Refused (Own OfWorlds) line) }
    ensures memory { IfErr line (λ error. result ≡ OutOfMemory) }
{
    Stop::of_line(Refusal::Own(OwnRefusal::OfWorlds), line)
}

/// Refuses two worlds of which the bidder of this number, counted from 1, differs, by the line of what is refused, as
/// `worlds refused`, of the reason, and of the number. If there is no memory for the line, the job stops for that.
pub fn refuse_bidder(alloc: Global, refused: &str, reason: &str, bidder: u32) -> Stop
    ensures { Refuses (Own OfWorlds) (bidder_text refused.now reason.now bidder) result }
{
    refuse_worlds(bidder_line(alloc, refused, reason, bidder))
}
