//! The refusal of two books.

ghost use Rattle.std.specs.Prelude.{◌≡◌, IfOk};
ghost use Rattle.beet_book_differences.specs.Differences.{refused_text};
ghost use Rattle.beet_book_differences.specs.Refusals.{TellsRefusal};

use beet_bids::Outcome;
use beet_differences::{refuse_bidder, refuse_worlds};
use beet_errand::Stop;
use beet_run::outcome_word;
use beet_two_books::MapFault;
use std::alloc::{AllocError, Global};

/// The line for two outcomes.
fn outcomes_line(alloc: Global, one: Outcome, other: Outcome) -> Result<Vec<u8>, AllocError>
    ensures { IfOk result (λ line. line.items ≡ refused_text (MapFault.OutcomesDiffer one other)) }
{
    let one = outcome_word(alloc, one)?;
    let other = outcome_word(alloc, other)?;
    let line = format!(in alloc; "worlds refused outcomes {one} {other}\n")?;
    Ok(line.into_bytes())
}

/// Refuses two books whose words are not mapped, by the line of the fault. If there is no memory for the line, or that
/// is the fault, the job stops for that.
pub fn refuse_books(alloc: Global, fault: MapFault) -> Stop
    ensures { TellsRefusal fault result }
{
    match fault {
        MapFault::ShapeDiffers(bidder) => refuse_bidder(alloc, "worlds refused", "shape", bidder),
        MapFault::OwnBidsDiffer(bidder) => refuse_bidder(
            alloc,
            "worlds refused",
            "own bids",
            bidder,
        ),
        MapFault::OutcomesDiffer(one, other) => refuse_worlds(outcomes_line(alloc, one, other)),
        MapFault::OutOfMemory => Stop::OutOfMemory,
    }
}
