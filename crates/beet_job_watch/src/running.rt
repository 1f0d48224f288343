//! The run of an auction that the desk watches.

ghost use Rattle.std.specs.Prelude.{◌≡◌, ◌*◌, IfErr, IfOk, length};
ghost use Rattle.beet_field.specs.Trio.{member};
ghost use Rattle.beet_field.specs.declared.point.Point.{Point};
ghost use Rattle.beet_desk.specs.Counts.{count_in};
ghost use Rattle.beet_load.specs.Counts.{counts_of};
ghost use Rattle.beet_load.specs.Servers.{HaveEnough};
ghost use Rattle.beet_run.specs.Runs.{EndsAuction, setup_with};

use beet_bids::Grid;
use beet_desk::{NoteCount, run_watched};
use beet_errand::Stop;
use beet_field::Trio;
use beet_load::ServerWords;
use beet_plan::Finish;
use beet_run::{finish_at, start_servers};
use beet_words::FeList;
use std::alloc::Global;
use std::sync::Wait;
use std::thread::Threads;
use std::time::Clock;

/// How a watched auction has ended, after how many rounds, and what the desk counted of each server.
#[derive(Drop)]
pub struct WatchedRun {
    pub finish: Finish,
    pub rounds: u32,
    pub counts: Trio<NoteCount>,
}

/// Starts the three servers of an auction with these points of the inputs and these words, and runs them to the end
/// while the desk watches, as `run_watched` does. Want of memory is the only error, and comes before the first round.
pub fn watch_auction<R: Threads + Wait + Clock + Sync>(
    rt: &R,
    alloc: Global,
    grid: &Grid,
    inputs: Trio<FeList>,
    words: Trio<ServerWords>,
) -> Result<WatchedRun, Stop>
    requires enough { HaveEnough (counts_of grid.now) words }
    requires inputs { (i : Point) → length (member inputs i) ≡ 2 * grid.now.prices }
    ensures memory { IfErr result (λ stop. stop ≡ Stop.OutOfMemory) }
    ensures ends { IfOk result (λ run. EndsAuction grid.now inputs words run.finish run.rounds) }
    ensures counts { IfOk result (λ run. (s : Point) →
        member run.counts s ≡ count_in (setup_with grid.now inputs words) run.rounds) }
{
    // The grid is within its limits, and so are the rounds.
    let _prices = grid.prices();
    let cores = start_servers(alloc, grid, inputs, words)?;
    let watched = run_watched(rt, alloc, cores)?;
    let finish = finish_at(&watched.cores.one);
    let rounds = watched.cores.one.round();
    // One call lets the servers go: else the proof of this way out goes through each of their parts.
    drop(watched.cores);
    Ok(WatchedRun {
        finish,
        rounds,
        counts: watched.counts,
    })
}
