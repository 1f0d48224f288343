//! Five servers begin a script, and run it to its end on one thread; those of an auction.

ghost use Rattle.std.specs.Prelude.{◌≡◌, ◌*◌, ℕ, IfErr, IfOk, List};
ghost use Rattle.beet_plan.specs.FivePlan.{most_masks, most_secrets};
ghost use Rattle.beet_server.specs.declared.server.StartFault.TheVariants.{OutOfMemory};
ghost use Rattle.beet_five_run.specs.FiveRuns.{CanStart, EndsBook, HaveRun, HaveStarted, Starts};

use beet_errand::Stop;
use beet_five_auction::finish_at;
use beet_five_lockstep::lockstep_of_five;
use beet_five_server::{FiveCore, FiveFault};
use beet_gates::Script;
use beet_plan::Finish;
use beet_search::FiveScript;
use beet_words::{FeList, Tape, WordList};
use std::alloc::Global;

/// How many servers there are.
const SERVERS: u32 = 5;

/// Want of memory is why a server did not start that has words enough.
fn no_memory(fault: FiveFault) -> Stop
    requires { fault ≡ OutOfMemory }
    ensures { result ≡ Stop.OutOfMemory }
{
    match fault {
        FiveFault::OutOfMemory => Stop::OutOfMemory,
        FiveFault::TooFewWords(_) => unreachable!(),
        FiveFault::TooFewMasks(_) => unreachable!(),
    }
}

/// The five servers of a script at its start, 1 to 5 in order, with these shares of the inputs and these words. Want of
/// memory is the only error.
pub fn start_five<S: Script<5>>(
    alloc: Global,
    script: S,
    inputs: Vec<FeList>,
    masks: Vec<WordList>,
    coefficients: Vec<WordList>,
) -> Result<Vec<FiveCore<S>>, Stop>
    requires { CanStart S.inputs_of S.secrets_of S.masks_of script inputs.items masks.items coefficients.items }
    ensures memory { IfErr result (λ stop. stop ≡ Stop.OutOfMemory) }
    ensures starts { IfOk result (λ cores.
        Starts S.batch_of S.rounds_of script inputs.items masks.items coefficients.items cores.items) }
{
    let mut inputs = inputs;
    let mut masks = masks;
    let mut coefficients = coefficients;
    let mut cores = Vec::with_capacity(alloc, SERVERS as usize)?;
    for k in 0..SERVERS {
        let shares = inputs.remove(0);
        let dealt = masks.remove(0);
        let drawn = coefficients.remove(0);
        let words = Tape::of_words(dealt);
        let numbers = Tape::of_words(drawn);
        match FiveCore::start(alloc, k + 1, script, shares, words, numbers) {
            Ok(core) => cores.push_reserved(core),
            Err(fault) => return Err(no_memory(fault)),
        }
    }
    Ok(cores)
}

/// Runs five servers that begin a script, 1 to 5 in order, to its end on the caller's thread, round by round: the
/// servers that have ended. No memory is taken.
pub fn run_among_five<S: Script<5>>(cores: Vec<FiveCore<S>>) -> Vec<FiveCore<S>>
    requires { HaveStarted S.batch_of S.rounds_of cores.items }
    ensures { (script : S) (inputs masks coefficients : List (List ℕ))
        → Starts S.batch_of S.rounds_of script inputs masks coefficients cores.items
        → HaveRun S.batch_of script inputs masks coefficients result.items }
{
    lockstep_of_five(cores)
}

/// Runs the auction that five servers begin with these shares and words to its end on the caller's thread, round by
/// round: how it ends, and after how many rounds. Want of memory is the only error, and comes before the first round.
pub fn end_of_five(
    alloc: Global,
    script: FiveScript,
    inputs: Vec<FeList>,
    masks: Vec<WordList>,
    coefficients: Vec<WordList>,
) -> Result<(Finish, u32), Stop>
    requires { CanStart (λ script. 2 * script.prices) most_secrets most_masks script
        inputs.items masks.items coefficients.items }
    ensures memory { IfErr result (λ stop. stop ≡ Stop.OutOfMemory) }
    ensures ends { IfOk result (λ run.
        EndsBook script inputs.items masks.items coefficients.items run.0 run.1) }
{
    let started = start_five(alloc, script, inputs, masks, coefficients)?;
    let cores = run_among_five(started);
    let first = &cores[0];
    match finish_at(first) {
        Some(finish) => Ok((finish, first.round())),
        None => unreachable!(),
    }
}
