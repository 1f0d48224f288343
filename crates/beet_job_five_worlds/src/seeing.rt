//! Five servers run the auction of a book, and what two of them have seen is shown.

ghost use Rattle.std.specs.Prelude.{◌≡◌, IfErr, IfOk};
ghost use Rattle.beet_gates.specs.declared.Gates.TheVariants.{Chain};
ghost use Rattle.beet_coalition.specs.Lists.{at_server};
ghost use Rattle.beet_five_auction.specs.FiveEndings.{book_finish, book_rounds};
ghost use Rattle.beet_five_dealing.specs.FiveInputs.{setup_of};
ghost use Rattle.beet_five_dealing.specs.FiveWords.{CanRun};
ghost use Rattle.beet_five_lockstep.specs.FiveLockstep.{HaveEnded};
ghost use Rattle.beet_plan.specs.FivePlan.{five_batch, five_over};
ghost use Rattle.beet_five_run.specs.FiveRuns.{HasFewWords};
ghost use Rattle.beet_five_view.specs.JointBooks.{joint_transcript};

use beet_bids::Book;
use beet_coalition_map::Watchers;
use beet_errand::Stop;
use beet_five_auction::finish_at;
use beet_five_dealing::{FiveWords, five_inputs};
use beet_five_map::{copy_lists, script_over};
use beet_five_run::{run_among_five, start_five};
use beet_five_server::FiveCore;
use beet_five_view::write_joint;
use beet_plan::Finish;
use beet_search::FiveScript;
use std::alloc::{AllocError, Global};

/// The five servers of the auction of a book, 1 to 5 in order, that have run it to its end with these words on the
/// caller's thread.
fn run_book(
    alloc: Global,
    book: &Book,
    words: &FiveWords,
) -> Result<Vec<FiveCore<FiveScript>>, Stop>
    requires chains { book.now.grid.gates ≡ Chain }
    requires runs { CanRun book.now words.now }
    requires few { HasFewWords words.now }
    ensures memory { IfErr result (λ stop. stop ≡ Stop.OutOfMemory) }
    ensures ended { IfOk result (λ cores.
        HaveEnded five_batch (setup_of book.now words.now) (five_over book.now.grid) cores.items) }
{
    let grid = book.grid();
    let inputs = five_inputs(alloc, grid, book.bidders(), words.bidders.as_slice())?;
    let masks = copy_lists(alloc, words.masks.as_slice())?;
    let coefficients = copy_lists(alloc, words.coefficients.as_slice())?;
    let started = start_five(alloc, script_over(grid), inputs, masks, coefficients)?;
    Ok(run_among_five(started))
}

/// How the auction of a book has ended, after how many rounds, and what two servers have seen of it together.
#[derive(Drop)]
pub(crate) struct SeenByTwo {
    pub(crate) finish: Finish,
    pub(crate) rounds: u32,
    pub(crate) transcript: Vec<u8>,
}

/// What two of five servers that have ended have seen of the auction of a book.
fn see(
    alloc: Global,
    two: Watchers,
    book: &Book,
    words: &FiveWords,
    cores: &[FiveCore<FiveScript>],
) -> Result<SeenByTwo, AllocError>
    requires chains { book.now.grid.gates ≡ Chain }
    requires runs { CanRun book.now words.now }
    requires ended { HaveEnded five_batch (setup_of book.now words.now) (five_over book.now.grid) cores.now }
    ensures finish { IfOk result (λ seen. seen.finish ≡ book_finish book.now (at_server words.now.masks)) }
    ensures rounds { IfOk result (λ seen. seen.rounds ≡ book_rounds book.now (at_server words.now.masks)) }
    ensures transcript { IfOk result (λ seen.
        seen.transcript.items ≡ joint_transcript two.a two.b book.now words.now) }
{
    // The book is within its limits.
    let _grid = book.grid();
    let one = &cores[two.a as usize - 1];
    let other = &cores[two.b as usize - 1];
    let transcript = write_joint(alloc, book, words, one, other)?;
    match finish_at(one) {
        Some(finish) => Ok(SeenByTwo {
            finish,
            rounds: one.round(),
            transcript,
        }),
        None => unreachable!(),
    }
}

/// Runs the auction of a book among five servers with these words, and writes what two of them see together. Want of
/// memory is the only error.
pub(crate) fn see_book(
    alloc: Global,
    two: Watchers,
    book: &Book,
    words: &FiveWords,
) -> Result<SeenByTwo, Stop>
    requires chains { book.now.grid.gates ≡ Chain }
    requires runs { CanRun book.now words.now }
    requires few { HasFewWords words.now }
    ensures memory { IfErr result (λ stop. stop ≡ Stop.OutOfMemory) }
    ensures finish { IfOk result (λ seen. seen.finish ≡ book_finish book.now (at_server words.now.masks)) }
    ensures rounds { IfOk result (λ seen. seen.rounds ≡ book_rounds book.now (at_server words.now.masks)) }
    ensures transcript { IfOk result (λ seen.
        seen.transcript.items ≡ joint_transcript two.a two.b book.now words.now) }
{
    let cores = run_book(alloc, book, words)?;
    let seen = see(alloc, two, book, words, cores.as_slice());
    drop(cores);
    Ok(seen?)
}
