//! The job `open`.

ghost use Rattle.std.specs.Prelude.{IfOk};
ghost use Rattle.beet_errand.specs.Fetches.{IsDone, Reads};
ghost use Rattle.beet_job_envelopes.specs.Open.{entries_job, open_job};

use beet_auction_run::run_auction;
use beet_bids::Grid;
use beet_book::{Servers, Totals};
use beet_errand::{Reply, Stop};
use beet_farmer::ListEntry;
use beet_gathering::{ListFiles, gather_with_words, read_listed};
use beet_link::Gate;
use beet_run::outcome_reply;
use beet_store::Shelf;
use std::alloc::Global;
use std::sync::Wait;
use std::thread::Threads;
use std::time::Clock;

/// The outcome of the bids in the envelopes of these entries, and the rounds in which three servers find it.
fn open_entries<S: Shelf, R: Threads + Wait + Clock + Sync, G: Gate>(
    rt: &R,
    alloc: Global,
    shelf: &mut S,
    grid: &Grid,
    sources: &Servers,
    entries: &[ListEntry],
    gate: &G,
) -> Result<Reply, Stop>
    ensures done { IfOk result (λ reply. IsDone reply.status) }
    ensures reads { Reads (λ reply. reply) (S.seen shelf.old) (S.seen shelf.new)
        (entries_job grid.now sources.now entries.now) result }
{
    let (servers, totals) = gather_with_words::<S, Totals>(alloc, shelf, grid, sources, entries)?;
    let (finish, rounds) = run_auction(rt, alloc, grid, totals.inputs(), servers, gate)?;
    Ok(outcome_reply(alloc, grid, finish, rounds)?)
}

/// The outcome of the bids in the envelopes of a list, and the rounds in which three servers find it, in threads and
/// under the gate if `run_servers` says so. The points in the envelopes need not lie on lines. If they were sealed,
/// each file is within its limit and is read, the bidders of the list have the points that were sealed, and the outcome
/// is that of their book, as `sealed_books_open_their_outcome` says.
pub fn open_envelopes<S: Shelf, R: Threads + Wait + Clock + Sync, G: Gate>(
    rt: &R,
    alloc: Global,
    shelf: &mut S,
    files: &ListFiles<'_>,
    gate: &G,
) -> Result<Reply, Stop>
    ensures done { IfOk result (λ reply. IsDone reply.status) }
    ensures reads { Reads (λ reply. reply) (S.seen shelf.old) (S.seen shelf.new)
        (open_job files.now.auction.now files.now.servers.now files.now.list.now) result }
{
    let (grid, sources, entries) = read_listed(alloc, shelf, files)?;
    let opened = open_entries(rt, alloc, shelf, &grid, &sources, entries.as_slice(), gate);
    // One call lets them go: else the proof of this way out goes through each of their parts.
    drop(entries);
    drop(sources);
    opened
}
