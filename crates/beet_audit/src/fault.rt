//! What is wrong with three views.

use beet_field::{Fe, Point};
use std::alloc::AllocError;
use thiserror::Error;

/// What a bidder does with a quantity.
#[derive(Clone, Copy, PartialEq, Eq, Debug)]
pub enum Side {
    Buy,
    Sell,
}

/// Why three views are not the views of one run: the first thing that is wrong, in the order of these variants, or want
/// of memory. Bidders count from 1, places and rounds from 0. The three things that are looked for at one bidder come
/// before those at the next, and what is looked for in one message before what is in the next.
#[derive(Clone, Copy, PartialEq, Eq, Debug, Error)]
pub enum AuditFault {
    /// The view in the place of this server is not its view, or not over the grid, or its bidders or their marks are
    /// not those of the first view.
    #[error("a view has another server, grid, number of bidders or mark")]
    HeaderDiffers(Point),
    /// The three points of this bidder at this place of this side lie on no line.
    #[error("points of bidder {0} at place {1} lie on no line")]
    NotALine(u32, u32, Side),
    /// What this bidder buys or sells at this place is too much, or it buys more or sells less than at the place
    /// before.
    #[error("bidder {0} breaks the rules for curves at place {1}")]
    NotMonotone(u32, u32),
    /// The curve or the words that a server keeps of this bidder are not those of its points.
    #[error("bidder {0} is known by another curve or other words")]
    KnownDiffers(u32),
    /// A tape of this server has too few words.
    #[error("a tape has too few words")]
    TooFewWords(Point),
    /// The view of this server has so many rounds, and the run so many.
    #[error("a view has {1} rounds, and the run {2}")]
    RoundsDiffer(Point, u32, u32),
    /// The message of this sender to this receiver in this round has so many numbers, and in the run so many.
    #[error("a message of round {2} has {3} numbers, and in the run {4}")]
    LengthDiffers(Point, Point, u32, u32, u32),
    /// The message of this sender to this receiver in this round has this number at this place, and in the run that
    /// one.
    #[error("a message of round {2} has another number at place {3}")]
    MessageDiffers(Point, Point, u32, u32, Fe, Fe),
    /// Memory ran out.
    #[error("out of memory")]
    OutOfMemory,
}

impl From<AllocError> for AuditFault {
    ghost use Rattle.std.specs.Prelude.{◌≡◌};
    ghost use Rattle.beet_audit.specs.declared.fault.AuditFault.TheVariants.{OutOfMemory};

    ghost from_gives = { λ _ fault. fault ≡ OutOfMemory };

    fn from(_error: AllocError) -> AuditFault {
        AuditFault::OutOfMemory
    }
}
