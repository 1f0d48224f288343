//! The job `record`.

ghost use Rattle.std.specs.Prelude.{◌≡◌, IfErr, IfOk};
ghost use Rattle.beet_errand.specs.Fetches.{IsDone, Reads};
ghost use Rattle.beet_load.specs.Files.{of_files};
ghost use Rattle.beet_load.specs.WholeViews.{loaded_of};
ghost use Rattle.beet_job_record.specs.Records.{record_job, recorded_answer};

use beet_auction_run::run_servers;
use beet_errand::{Reply, Stop};
use beet_link::Gate;
use beet_load::{AuctionFiles, Whole, load_whole};
use beet_store::Shelf;
use beet_transcripts::{make_ready, reply_of_run};
use std::alloc::Global;
use std::sync::Wait;
use std::thread::Threads;
use std::time::Clock;

/// The reply for an auction that is read. What was read is dropped before the run. Want of memory is the only error.
fn reply_for<R: Threads + Wait + Clock + Sync, G: Gate>(
    rt: &R,
    alloc: Global,
    whole: Whole,
    out: &str,
    gate: &G,
) -> Result<Reply, Stop>
    ensures memory { IfErr result (λ stop. stop ≡ Stop.OutOfMemory) }
    ensures reply { IfOk result (λ reply. reply ≡ recorded_answer out.now (loaded_of whole)) }
{
    let begun = make_ready(rt, alloc, None, &whole.book, &whole.words);
    drop(whole);
    let begun = begun?;
    let grid = begun.grid;
    let cores = run_servers(rt, alloc, &grid, begun.inputs, begun.tapes, gate)?;
    Ok(reply_of_run(rt, alloc, &grid, begun.seen, cores, out)?)
}

/// Runs the auction of a book among three servers, in threads and under the gate if `run_servers` says so. What each
/// server has seen is put into the file of the name `out`, a dot and the server's number; the text is that of the job
/// `clear`.
pub fn record<S: Shelf, R: Threads + Wait + Clock + Sync, G: Gate>(
    rt: &R,
    alloc: Global,
    shelf: &mut S,
    files: &AuctionFiles<'_>,
    out: &str,
    gate: &G,
) -> Result<Reply, Stop>
    ensures done { IfOk result (λ reply. IsDone reply.status) }
    ensures reads { Reads (λ reply. reply) (S.seen shelf.old) (S.seen shelf.new)
        (of_files record_job files.now out.now) result }
{
    let whole = load_whole(alloc, shelf, files)?;
    reply_for(rt, alloc, whole, out, gate)
}
