//! The lines that refuse two sessions.

ghost use Rattle.std.specs.Prelude.{◌≡◌, ◌++◌, IfOk, codes, decimal};
ghost use Rattle.beet_errand.specs.Texts.{line_of};
ghost use Rattle.beet_lot_map.specs.declared.mapping.SessionFault.TheVariants.{OutcomesDiffer};
ghost use Rattle.beet_job_session_pair.specs.Ending.{TellsRefusal};
ghost use Rattle.beet_job_session_pair.specs.Refusals.{IsLineOf, of_lot, refused_text};

use beet_bids::Outcome;
use beet_errand::{OwnRefusal, Refusal, Stop};
use beet_lot_map::SessionFault;
use beet_run::outcome_word;
use std::alloc::{AllocError, Global};

/// The line for sessions of different numbers of lots.
fn lots_line(alloc: Global, first: u32, second: u32) -> Result<Vec<u8>, AllocError>
    ensures { IfOk result (λ line. line.items
        ≡ line_of (codes "sessions refused lots " ++ decimal first ++ codes " " ++ decimal second)) }
{
    let line = format!(in alloc; "sessions refused lots {first} {second}\n")?;
    Ok(line.into_bytes())
}

/// The line for a lot whose grids differ.
fn grid_line(alloc: Global, lot: u32) -> Result<Vec<u8>, AllocError>
    ensures { IfOk result (λ line. line.items ≡ line_of (of_lot lot ++ codes " grid")) }
{
    let line = format!(in alloc; "sessions refused lot {lot} grid\n")?;
    Ok(line.into_bytes())
}

/// The line for a lot of which one bidder differs, for this reason.
fn bidder_line(alloc: Global, lot: u32, reason: &str, bidder: u32) -> Result<Vec<u8>, AllocError>
    ensures { IfOk result (λ line. line.items
        ≡ line_of (of_lot lot ++ codes " " ++ reason.now ++ codes " " ++ decimal bidder)) }
{
    let line = format!(in alloc; "sessions refused lot {lot} {reason} {bidder}\n")?;
    Ok(line.into_bytes())
}

/// The line for a lot of two outcomes.
fn outcomes_line(
    alloc: Global,
    lot: u32,
    one: Outcome,
    other: Outcome,
) -> Result<Vec<u8>, AllocError>
    ensures { IfOk result (λ line. line.items ≡ refused_text (OutcomesDiffer lot one other)) }
{
    let one = outcome_word(alloc, one)?;
    let other = outcome_word(alloc, other)?;
    let line = format!(in alloc; "sessions refused lot {lot} outcomes {one} {other}\n")?;
    Ok(line.into_bytes())
}

/// The line for two sessions whose words are not mapped.
fn refused_line(alloc: Global, fault: SessionFault) -> Result<Vec<u8>, AllocError>
    ensures { IfOk result (λ line. IsLineOf fault line.items) }
{
    match fault {
        SessionFault::LotsDiffer(first, second) => lots_line(alloc, first, second),
        SessionFault::GridDiffers(lot) => grid_line(alloc, lot),
        SessionFault::ShapeDiffers(lot, bidder) => bidder_line(alloc, lot, "shape", bidder),
        SessionFault::OwnBidsDiffer(lot, bidder) => bidder_line(alloc, lot, "own bids", bidder),
        SessionFault::OutcomesDiffer(lot, one, other) => outcomes_line(alloc, lot, one, other),
        SessionFault::OutOfMemory => Err(AllocError),
    }
}

/// Refuses two sessions whose words are not mapped.
pub(crate) fn refusal(alloc: Global, fault: SessionFault) -> Stop
    ensures { TellsRefusal fault result }
{
    Stop::of_line(
        Refusal::Own(OwnRefusal::OfWorlds),
        refused_line(alloc, fault),
    )
}
