//! The run of an auction among three servers, each in a thread of its own.
#![tactic(auto)]

ghost use Rattle.std.specs.Prelude.{◌≡◌, ◌*◌, IfErr, IfOk, length};
ghost use Rattle.beet_field.specs.Trio.{member};
ghost use Rattle.beet_field.specs.declared.point.Point.{Point};
ghost use Rattle.beet_load.specs.Counts.{counts_of};
ghost use Rattle.beet_load.specs.Servers.{HaveEnough};
ghost use Rattle.beet_run.specs.Runs.{EndsAuction, HaveRunToEnd, Starts};

use beet_bids::Grid;
use beet_errand::Stop;
use beet_field::Trio;
use beet_link::Gate;
use beet_load::ServerWords;
use beet_plan::Finish;
use beet_run::{end_of, start_servers};
use beet_search::AuctionScript;
use beet_server::ServerCore;
use beet_threads::run_three;
use beet_words::FeList;
use std::alloc::Global;
use std::sync::Wait;
use std::thread::Threads;
use std::time::Clock;

/// The three servers of an auction.
type Servers = Trio<ServerCore<AuctionScript>>;

/// Starts the three servers of an auction with these points of the inputs and these words, and runs them to the end,
/// each in a thread of its own. Each meets the gate once in each round, before it puts its messages. If no thread
/// or no memory can be had for that, they run in lockstep on the caller's, without the gate. Want of memory is the
/// only error, and comes before the first round.
pub fn run_servers<R: Threads + Wait + Clock + Sync, G: Gate>(
    rt: &R,
    alloc: Global,
    grid: &Grid,
    inputs: Trio<FeList>,
    words: Trio<ServerWords>,
    gate: &G,
) -> Result<Servers, Stop>
    requires enough { HaveEnough (counts_of grid.now) words }
    requires inputs { (i : Point) → length (member inputs i) ≡ 2 * grid.now.prices }
    ensures memory { IfErr result (λ stop. stop ≡ Stop.OutOfMemory) }
    ensures ended { IfOk result (HaveRunToEnd grid.now inputs words) }
{
    let cores = start_servers(alloc, grid, inputs, words)?;
    Ok(run_three(rt, alloc, cores, gate))
}

/// Runs the auction that three servers begin with these points and words to its end, as `run_servers` does: how it
/// ends, and after how many rounds. Want of memory is the only error, and comes before the first round.
pub fn run_auction<R: Threads + Wait + Clock + Sync, G: Gate>(
    rt: &R,
    alloc: Global,
    grid: &Grid,
    inputs: Trio<FeList>,
    words: Trio<ServerWords>,
    gate: &G,
) -> Result<(Finish, u32), Stop>
    requires enough { HaveEnough (counts_of grid.now) words }
    requires inputs { (i : Point) → length (member inputs i) ≡ 2 * grid.now.prices }
    ensures memory { IfErr result (λ stop. stop ≡ Stop.OutOfMemory) }
    ensures ends { IfOk result (λ run. EndsAuction grid.now inputs words run.0 run.1) }
{
    let ended = run_servers(rt, alloc, grid, inputs, words, gate)?;
    Ok(end_of(ended))
}
