//! The job `clear`: three servers run the auction of a book, and its outcome is told.
#![tactic(auto)]

ghost use Rattle.std.specs.Prelude.{◌≡◌, ◌*◌, IfErr, IfOk, length};
ghost use Rattle.beet_field.specs.Trio.{member};
ghost use Rattle.beet_field.specs.declared.point.Point.{Point};
ghost use Rattle.beet_errand.specs.Fetches.{IsDone, Reads};
ghost use Rattle.beet_load.specs.Files.{of_files};
ghost use Rattle.beet_load.specs.Loading.{AuctionWithBidders, IsKeptOf};
ghost use Rattle.beet_run.specs.Outcomes.{cleared};
ghost use Rattle.beet_job_clear.specs.Clear.{clear_job};

use beet_auction_run::run_auction;
use beet_errand::{Reply, Stop};
use beet_link::Gate;
use beet_load::{AuctionFiles, Loaded, load};
use beet_run::outcome_reply;
use beet_store::Shelf;
use std::alloc::Global;
use std::sync::Wait;
use std::thread::Threads;
use std::time::Clock;

/// The reply for an auction that is read. Want of memory is the only error.
fn reply_for<R: Threads + Wait + Clock + Sync, G: Gate>(
    rt: &R,
    alloc: Global,
    loaded: Loaded,
    gate: &G,
) -> Result<Reply, Stop>
    requires inputs { (i : Point) → length (member loaded.inputs i) ≡ 2 * loaded.grid.prices }
    ensures memory { IfErr result (λ stop. stop ≡ Stop.OutOfMemory) }
    ensures done { IfOk result (λ reply. IsDone reply.status) }
    ensures tells { (read : AuctionWithBidders) → IsKeptOf loaded read → IfOk result (λ reply. reply ≡ cleared read) }
{
    let grid = loaded.grid;
    let (finish, rounds) = run_auction(rt, alloc, &grid, loaded.inputs, loaded.servers, gate)?;
    Ok(outcome_reply(alloc, &grid, finish, rounds)?)
}

/// The outcome of a book, and the rounds in which three servers find it, in threads and under the gate if
/// `run_servers` says so: `clear AUCTION SERVERS BOOK`.
pub fn clear<S: Shelf, R: Threads + Wait + Clock + Sync, G: Gate>(
    rt: &R,
    alloc: Global,
    shelf: &mut S,
    files: &AuctionFiles<'_>,
    gate: &G,
) -> Result<Reply, Stop>
    ensures done { IfOk result (λ reply. IsDone reply.status) }
    ensures reads { Reads (λ reply. reply) (S.seen shelf.old) (S.seen shelf.new) (of_files clear_job files.now) result }
{
    let loaded = load(alloc, shelf, files)?;
    reply_for(rt, alloc, loaded, gate)
}
