//! The job `witness`.

ghost use Rattle.std.specs.Prelude.{IfOk};
ghost use Rattle.beet_errand.specs.Fetches.{IsDone, Reads};
ghost use Rattle.beet_job_witness.specs.Witness.{kept_job, witness_job};

use crate::keeping::KeptBidders;
use beet_auction_run::run_servers;
use beet_bids::Grid;
use beet_book::Servers;
use beet_errand::{Reply, Stop};
use beet_farmer::ListEntry;
use beet_gathering::{ListFiles, gather_with_words, read_listed};
use beet_link::Gate;
use beet_load::check_product;
use beet_store::Shelf;
use beet_transcripts::reply_of_run;
use std::alloc::Global;
use std::sync::Wait;
use std::thread::Threads;
use std::time::Clock;

/// The auction, its servers, and how the names of the files that are put begin.
#[derive(Clone, Copy)]
struct Setting<'a> {
    grid: &'a Grid,
    sources: &'a Servers,
    out: &'a str,
}

/// The reply for the bids in the envelopes of these entries.
fn witness_entries<S: Shelf, R: Threads + Wait + Clock + Sync, G: Gate>(
    rt: &R,
    alloc: Global,
    shelf: &mut S,
    setting: &Setting<'_>,
    entries: &[ListEntry],
    gate: &G,
) -> Result<Reply, Stop>
    ensures reads { Reads (λ reply. reply) (S.seen shelf.old) (S.seen shelf.new)
        (kept_job setting.now.out.now setting.now.grid.now setting.now.sources.now entries.now) result }
    ensures done { IfOk result (λ reply. IsDone reply.status) }
{
    let Setting { grid, sources, out } = *setting;
    let (servers, kept) = gather_with_words::<S, KeptBidders>(
        alloc, shelf, grid, sources, entries,
    )?;
    let KeptBidders { totals, seen } = kept;
    let cores = run_servers(rt, alloc, grid, totals.inputs(), servers, gate)?;
    Ok(reply_of_run(rt, alloc, grid, seen, cores, out)?)
}

/// Opens the envelopes of a list as the job `open` does, in threads and under the gate if `run_servers` says so.
/// What each server has seen is put into the file of the name `out`, a dot and the server's number; the text is that of
/// `open`. The points in the envelopes need not lie on lines. Right after it was read, the list is refused at row 0 for
/// the reason 6 if its bidders, each counted once for each price, are more than 500,000.
pub fn witness<S: Shelf, R: Threads + Wait + Clock + Sync, G: Gate>(
    rt: &R,
    alloc: Global,
    shelf: &mut S,
    files: &ListFiles<'_>,
    out: &str,
    gate: &G,
) -> Result<Reply, Stop>
    ensures done { IfOk result (λ reply. IsDone reply.status) }
    ensures reads { Reads (λ reply. reply) (S.seen shelf.old) (S.seen shelf.new)
        (witness_job files.now.auction.now files.now.servers.now files.now.list.now out.now) result }
{
    let (grid, sources, entries) = read_listed(alloc, shelf, files)?;
    check_product(alloc, 0, files.list, &grid, entries.len())?;
    let setting = Setting {
        grid: &grid,
        sources: &sources,
        out,
    };
    let witnessed = witness_entries(rt, alloc, shelf, &setting, entries.as_slice(), gate);
    // One call lets them go: else the proof of this way out goes through each of their parts.
    drop(entries);
    drop(sources);
    witnessed
}
