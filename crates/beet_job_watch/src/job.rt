//! The job.

ghost use Rattle.std.specs.Prelude.{◌≡◌, ◌*◌, IfErr, IfOk, length};
ghost use Rattle.beet_field.specs.Trio.{member};
ghost use Rattle.beet_field.specs.declared.point.Point.{Point};
ghost use Rattle.beet_errand.specs.Fetches.{IsDone, Reads};
ghost use Rattle.beet_load.specs.Files.{of_files};
ghost use Rattle.beet_load.specs.Loading.{AuctionWithBidders, IsKeptOf};
ghost use Rattle.beet_job_watch.specs.Watch.{watch_job, watched};

use crate::running::watch_auction;
use crate::telling::watched_reply;
use beet_errand::{Reply, Stop};
use beet_load::{AuctionFiles, Loaded, load};
use beet_store::Shelf;
use std::alloc::Global;
use std::sync::Wait;
use std::thread::Threads;
use std::time::Clock;

/// The reply for an auction that is read. Want of memory is the only error.
fn reply_for<R: Threads + Wait + Clock + Sync>(
    rt: &R,
    alloc: Global,
    loaded: Loaded,
) -> Result<Reply, Stop>
    requires inputs { (i : Point) → length (member loaded.inputs i) ≡ 2 * loaded.grid.prices }
    ensures memory { IfErr result (λ stop. stop ≡ Stop.OutOfMemory) }
    ensures done { IfOk result (λ reply. IsDone reply.status) }
    ensures tells { (read : AuctionWithBidders) → IsKeptOf loaded read → IfOk result (λ reply. reply ≡ watched read) }
{
    let Loaded {
        grid,
        servers,
        inputs,
    } = loaded;
    let ended = watch_auction(rt, alloc, &grid, inputs, servers)?;
    Ok(watched_reply(alloc, &grid, &ended)?)
}

/// The outcome of a book, the rounds in which three servers find it, and how many notes the desk took of each and how
/// many numbers they name, in threads as `run_watched` says: `watch AUCTION SERVERS BOOK`.
pub fn watch<S: Shelf, R: Threads + Wait + Clock + Sync>(
    rt: &R,
    alloc: Global,
    shelf: &mut S,
    files: &AuctionFiles<'_>,
) -> Result<Reply, Stop>
    ensures done { IfOk result (λ reply. IsDone reply.status) }
    ensures reads { Reads (λ reply. reply) (S.seen shelf.old) (S.seen shelf.new) (of_files watch_job files.now) result }
{
    let loaded = load(alloc, shelf, files)?;
    reply_for(rt, alloc, loaded)
}
