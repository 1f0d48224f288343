//! What a server that has run a script has seen, and its transcript.

ghost use Rattle.std.specs.Prelude.{◌≡◌, ◌<◌, ◌≤◌, ◌^◌, length, IfOk};
ghost use Rattle.beet_field.specs.declared.TheConstants.{MOST_NUMBERS};
ghost use Rattle.beet_sharing.specs.Runs.{Setup};
ghost use Rattle.beet_sharing.specs.Seen.{run_seen};
ghost use Rattle.beet_delivery.specs.Events.{Delivered};
ghost use Rattle.beet_server.specs.Fits.{Fits};
ghost use Rattle.beet_view.specs.RunViews.{numbers_received, round_received, rounds_received, run_of_core};
ghost use Rattle.beet_view.specs.RunViews.{core_transcript};

use crate::shown::ShownBidders;
use crate::view::{Received, RunView};
use arrayvec::ArrayVec;
use beet_bids::Grid;
use beet_field::{Fe, MOST_NUMBERS};
use beet_forms::beside;
use beet_gates::Script;
use beet_round::Side;
use beet_server::ServerCore;
use beet_words::{Word, WordList};
use std::alloc::{AllocError, Global};

/// A copy of the numbers of a message.
fn copy_of(numbers: &[Fe]) -> ArrayVec<Fe, MOST_NUMBERS>
    requires { length numbers.now ≤ MOST_NUMBERS }
    ensures { result.items ≡ numbers.now }
{
    let Ok(copy) = ArrayVec::try_from(numbers) else {
        unreachable!()
    };
    copy
}

/// A copy of the numbers from a peer in a passed round.
fn numbers_of<S: Script<3>>(
    core: &ServerCore<S>,
    side: Side,
    round: u32,
) -> ArrayVec<Fe, MOST_NUMBERS>
    requires { round < core.now.round }
    ensures { result.items ≡ numbers_received core.now side round }
{
    let Some(numbers) = core.received(round, side.peer(core.me())) else {
        unreachable!()
    };
    copy_of(numbers)
}

/// Copies of the numbers from both peers in a passed round.
fn received_in<S: Script<3>>(core: &ServerCore<S>, round: u32) -> Received
    requires { round < core.now.round }
    ensures { result ≡ round_received core.now round }
{
    Received {
        lower: numbers_of(core, Side::Low, round),
        higher: numbers_of(core, Side::High, round),
    }
}

/// Copies of the numbers from both peers in all passed rounds.
#[tactic(auto, using(beet_gates::proofs::EachFacts::each_steps))]
fn rounds_of<S: Script<3>>(alloc: Global, core: &ServerCore<S>) -> Result<Vec<Received>, AllocError>
    ensures rounds { IfOk result (λ rounds. rounds.items ≡ rounds_received core.now) }
    ensures small { IfOk result (λ rounds. length rounds.items < 2 ^ 32) }
{
    let mut rounds = Vec::with_capacity(alloc, core.round() as usize)?;
    for round in 0..core.round() {
        rounds.push_reserved(received_in(core, round));
    }
    Ok(rounds)
}

/// A copy of words.
fn words_of(alloc: Global, words: &[Word]) -> Result<WordList, AllocError>
    ensures { IfOk result (λ copy. copy ≡ words.now) }
{
    let words = Vec::from_slice(alloc, words)?;
    Ok(WordList::of(words))
}

/// What a server has seen of its run, in memory of its own. Want of memory is the only error.
pub fn run_view<S: Script<3>>(alloc: Global, core: &ServerCore<S>) -> Result<RunView, AllocError>
    ensures core { IfOk result (λ run. run ≡ run_of_core core.now) }
    ensures run { (o : Setup) (x : Delivered) → Fits S.batch_of o x core.now
        → IfOk result (λ run. run ≡ run_seen o core.now.me core.now.round core.now.masks.words
        core.now.coefficients.words) }
    ensures small { IfOk result (λ run. length run.rounds < 2 ^ 32) }
{
    Ok(RunView {
        masks: words_of(alloc, core.masks().words())?,
        coefficients: words_of(alloc, core.coefficients().words())?,
        rounds: rounds_of(alloc, core)?,
    })
}

/// The transcript of a server, with these bidders in their order, as it sees them. Their memory becomes that of the
/// transcript, with room for the rest taken at once. Want of memory is the only error.
pub fn transcript_of<S: Script<3>>(
    alloc: Global,
    core: &ServerCore<S>,
    grid: &Grid,
    bidders: ShownBidders,
) -> Result<Vec<u8>, AllocError>
    ensures { IfOk result (λ file. file.items ≡ core_transcript core.now grid.now bidders) }
{
    let (bidders, run) = beside(bidders, run_view(alloc, core))?;
    let file = bidders.into_transcript(core.me(), grid, &run);
    // One call lets the run go, not each way out by itself.
    drop(run);
    file
}
