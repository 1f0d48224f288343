//! The audit.

ghost use Rattle.std.specs.Prelude.{◌≡◌, ◌≢◌, MatchResult, IfErr, IfOk, Some};
ghost use Rattle.beet_field.specs.Trio.{of_each};
ghost use Rattle.beet_gates.specs.Plans.{plan_finish};
ghost use Rattle.beet_bids.specs.Grids.{Grid as Auction};
ghost use Rattle.beet_plan.specs.Auction.{auction_plan};
ghost use Rattle.beet_auction.specs.Endings.{book_finish, book_rounds};
ghost use Rattle.beet_run.specs.Runs.{HasEndedRun};
ghost use Rattle.beet_audit.specs.Audits.{Finds, HoldsTooMany, RoundMessages, Rounds, RunsAgain, recombined_book};
ghost use Rattle.beet_audit.specs.Audits.{rounds_of, run_of};
ghost use Rattle.beet_audit.specs.OneRuns.{OneRun};
ghost use Rattle.beet_audit.specs.Verdicts.{EachBelow, EachServer, InTurn, Judges};
ghost use Rattle.beet_audit.specs.declared.fault.AuditFault.TheVariants.{OutOfMemory as Memory};

use crate::bidders::sum_bidders;
use crate::fault::AuditFault;
use crate::headers::check_headers;
use crate::messages::{check_messages, check_rounds};
use crate::running::run_again;
use crate::tapes::check_tapes;
use beet_bids::Grid;
use beet_field::Trio;
use beet_forms::beside;
use beet_plan::Finish;
use beet_run::finish_at;
use beet_search::AuctionScript;
use beet_server::ServerCore;
use beet_view::View;
use std::alloc::Global;
use std::marker::Sync;
use std::thread::Threads;

/// How the run of three views ended, and after how many rounds.
#[derive(Clone, Copy, PartialEq, Eq, Debug)]
pub struct Audited {
    pub finish: Finish,
    pub rounds: u32,
}

/// Compares the rounds and the messages of three views with those of their run, whose cores have ended.
fn compare(
    views: &Trio<View>,
    cores: &Trio<ServerCore<AuctionScript>>,
) -> Result<Audited, AuditFault>
    requires { HasEndedRun cores.now.one }
    ensures found { (grid : Auction) → RunsAgain grid views.now cores.now
        → Judges (InTurn (EachServer (Rounds views.now (rounds_of grid views.now)))
        (EachBelow (rounds_of grid views.now) (RoundMessages (run_of grid views.now) views.now))) result }
    ensures finish { IfOk result (λ audited.
        plan_finish (auction_plan cores.now.one.script) cores.now.one.opened ≡ Some audited.finish) }
    ensures rounds { IfOk result (λ audited. audited.rounds ≡ cores.now.one.round) }
    ensures memory { IfErr result (λ fault. fault ≡ Memory → HoldsTooMany views.now) }
{
    check_rounds(views, cores)?;
    check_messages(views, cores)?;
    Ok(Audited {
        finish: finish_at(&cores.one),
        rounds: cores.one.round(),
    })
}

/// Whether three views are those of servers 1, 2 and 3 in one run of the auction over the grid, or the first thing that
/// is wrong.
///
/// First the headers are compared, then each bidder is looked at and the points are added up, by a thread for each
/// processor, and then the tapes are counted. Then three servers run the auction again on the sums and the tapes of the
/// views, and the rounds and the messages of the views are compared with those of this run.
pub fn audit<R: Threads + Sync>(
    rt: &R,
    alloc: Global,
    grid: &Grid,
    views: &Trio<View>,
) -> Result<Audited, AuditFault>
    ensures found { Judges (Finds grid.now views.now) result }
    ensures one_run { MatchResult result (λ audited. OneRun grid.now views.now)
        (λ fault. fault ≢ Memory → OneRun grid.now views.now → ⊥) }
    ensures finish { IfOk result (λ audited. audited.finish
        ≡ book_finish (recombined_book grid.now views.now) (of_each (λ view. view.masks) views.now)) }
    ensures rounds { IfOk result (λ audited. audited.rounds
        ≡ book_rounds (recombined_book grid.now views.now) (of_each (λ view. view.masks) views.now)) }
{
    check_headers(grid, views)?;
    let totals = sum_bidders(rt, alloc, grid, views)?;
    let (totals, ()) = beside(totals, check_tapes(grid, views))?;
    let cores = run_again(alloc, grid, totals, views)?;
    let audited = compare(views, &cores);
    // One call lets them go: else the proof of this way out goes through each of their parts.
    drop(cores);
    audited
}
