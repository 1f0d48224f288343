//! Three servers begin a script; those of an auction, and how they end it.

ghost use Rattle.std.specs.Prelude.{◌≡◌, ◌*◌, ℕ, IfErr, IfOk, All, List, Some, length};
ghost use Rattle.beet_field.specs.Trio.{member};
ghost use Rattle.beet_bids.specs.Grids.{Grid as Prices};
ghost use Rattle.beet_words.specs.Words.{IsWord};
ghost use Rattle.beet_gates.specs.Plans.{plan_finish};
ghost use Rattle.beet_plan.specs.Auction.{auction_plan};
ghost use Rattle.beet_server.specs.Cores.{IsFresh, fresh};
ghost use Rattle.beet_load.specs.Counts.{counts_of};
ghost use Rattle.beet_load.specs.Servers.{HaveEnough, ServerWords as Lists};
ghost use Rattle.beet_run.specs.Runs.{CanStart, EndsAuction, HasEndedRun, HaveRunToEnd, StartScript};
ghost use Rattle.beet_run.specs.Runs.{Starts};

use beet_bids::Grid;
use beet_errand::Stop;
use beet_field::{Point, Trio};
use beet_gates::Script;
use beet_load::ServerWords;
use beet_plan::Finish;
use beet_search::AuctionScript;
use beet_server::{ServerCore, StartFault};
use beet_words::FeList;
use std::alloc::Global;

/// A server that begins a script with these points and words.
fn start<S: Script<3>>(
    alloc: Global,
    me: Point,
    script: S,
    inputs: FeList,
    words: ServerWords,
) -> Result<ServerCore<S>, Stop>
    requires { CanStart S.inputs_of S.secrets_of S.masks_of script inputs words }
    ensures memory { IfErr result (λ stop. stop ≡ Stop.OutOfMemory) }
    ensures core { IfOk result (λ core. core ≡ fresh S.batch_of me script inputs
        (record { words = words.masks; passed = 0 })
        (record { words = words.coefficients; passed = 0 })) }
    ensures fresh { IfOk result (IsFresh S.batch_of S.inputs_of) }
    ensures words { IfOk result (λ core. All IsWord words.masks) }
{
    // Its words are below 2^61.
    let _words = words.masks.words();
    match ServerCore::start(alloc, me, script, inputs, words.masks, words.coefficients) {
        Ok(core) => Ok(core),
        Err(StartFault::OutOfMemory) => Err(Stop::OutOfMemory),
        Err(StartFault::TooFewWords(_)) => unreachable!(),
        Err(StartFault::TooFewMasks(_)) => unreachable!(),
    }
}

/// The three servers of a script, at its start, with these points of the inputs and these words. Want of memory is the
/// only error.
pub fn start_script<S: Script<3>>(
    alloc: Global,
    script: S,
    inputs: Trio<FeList>,
    words: Trio<ServerWords>,
) -> Result<Trio<ServerCore<S>>, Stop>
    requires { (i : Point) → CanStart S.inputs_of S.secrets_of S.masks_of script (member inputs i)
        (member words i) }
    ensures memory { IfErr result (λ stop. stop ≡ Stop.OutOfMemory) }
    ensures starts { IfOk result (StartScript S.batch_of S.inputs_of script inputs words) }
{
    let one = start(alloc, Point::One, script, inputs.one, words.one);
    let two = start(alloc, Point::Two, script, inputs.two, words.two);
    let three = start(alloc, Point::Three, script, inputs.three, words.three);
    let cores = Trio { one, two, three }.transpose()?;
    Ok(cores)
}

/// The three servers of an auction over the grid, at its start, with these points of the inputs (supply at each price,
/// and then demand) and these words. Want of memory is the only error.
pub fn start_servers(
    alloc: Global,
    grid: &Grid,
    inputs: Trio<FeList>,
    words: Trio<ServerWords>,
) -> Result<Trio<ServerCore<AuctionScript>>, Stop>
    requires enough { HaveEnough (counts_of grid.now) words }
    requires inputs { (i : Point) → length (member inputs i) ≡ 2 * grid.now.prices }
    ensures memory { IfErr result (λ stop. stop ≡ Stop.OutOfMemory) }
    ensures starts { IfOk result (Starts grid.now inputs words) }
{
    let script = AuctionScript::over(grid);
    start_script(alloc, script, inputs, words)
}

/// The finish that the script names at a server that has ended.
pub fn finish_at(core: &ServerCore<AuctionScript>) -> Finish
    requires { HasEndedRun core.now }
    ensures { plan_finish (auction_plan core.now.script) core.now.opened ≡ Some result }
{
    match core.script().finish(core.opened()) {
        Some(finish) => finish,
        None => unreachable!(),
    }
}

/// How the auction that three servers have run to its end has ended, and after how many rounds. The servers are let go.
pub fn end_of(ended: Trio<ServerCore<AuctionScript>>) -> (Finish, u32)
    requires { HasEndedRun ended.one }
    ensures { (grid : Prices) (inputs : Trio (List ℕ)) (words : Trio Lists) → HaveRunToEnd grid inputs words ended →
        EndsAuction grid inputs words result.0 result.1 }
{
    let run = (finish_at(&ended.one), ended.one.round());
    // One call lets them go: else the proof of this way out goes through each of their parts.
    drop(ended);
    run
}
