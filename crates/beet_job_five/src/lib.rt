//! The job `five`: five servers run the auction of a book, and its outcome is told.
#![tactic(auto)]

ghost use Rattle.std.specs.Prelude.{IfOk};
ghost use Rattle.beet_errand.specs.Fetches.{IsDone, Reads};
ghost use Rattle.beet_load.specs.Files.{of_files};
ghost use Rattle.beet_job_five.specs.Five.{five_job};

use beet_errand::{Reply, Stop};
use beet_five_load::load_five;
use beet_five_run::end_of_five;
use beet_load::AuctionFiles;
use beet_run::outcome_reply;
use beet_store::Shelf;
use std::alloc::Global;

/// The outcome of a book, and the rounds in which five servers find it, which run on the caller's thread, round by
/// round: `five AUCTION SERVERS BOOK`.
pub fn five<S: Shelf>(alloc: Global, shelf: &mut S, files: &AuctionFiles<'_>) -> Result<Reply, Stop>
    ensures done { IfOk result (λ reply. IsDone reply.status) }
    ensures reads { Reads (λ reply. reply) (S.seen shelf.old) (S.seen shelf.new) (of_files five_job files.now) result }
{
    let loaded = load_five(alloc, shelf, files)?;
    let grid = loaded.grid;
    let (finish, rounds) = end_of_five(
        alloc,
        loaded.script,
        loaded.inputs,
        loaded.masks,
        loaded.coefficients,
    )?;
    Ok(outcome_reply(alloc, &grid, finish, rounds)?)
}
