//! The run of three servers on the points and the tapes of three views.

ghost use Rattle.std.specs.Prelude.{◌≡◌, IfErr, IfOk};
ghost use Rattle.beet_field.specs.Trio.{member, of_each};
ghost use Rattle.beet_field.specs.declared.point.Point.{Point};
ghost use Rattle.beet_book.specs.PointSums.{AddsUp};
ghost use Rattle.beet_load.specs.Counts.{counts_of};
ghost use Rattle.beet_load.specs.Servers.{HasEnough};
ghost use Rattle.beet_audit.specs.Audits.{RunsAgain, all_points, words_in};
ghost use Rattle.beet_audit.specs.declared.fault.AuditFault.TheVariants.{OutOfMemory as Memory};

use crate::fault::AuditFault;
use beet_bids::Grid;
use beet_book::Totals;
use beet_field::Trio;
use beet_load::ServerWords;
use beet_run::start_servers;
use beet_search::AuctionScript;
use beet_server::ServerCore;
use beet_view::View;
use beet_words::{Tape, Word, WordList};
use beet_world::lockstep;
use std::alloc::Global;

/// A tape of these words. It holds fewer than 2^32 words, as those of every run do: if there are more, there is no
/// memory for it.
fn copy_tape(alloc: Global, words: &[Word]) -> Result<Tape, AuditFault>
    ensures memory { IfErr result (λ fault. fault ≡ Memory) }
    ensures tape { IfOk result (λ tape. tape ≡ record { words = words.now; passed = 0 }) }
{
    if words.len() as u64 > u32::MAX as u64 {
        return Err(AuditFault::OutOfMemory);
    }
    let copy = Vec::from_slice(alloc, words)?;
    Ok(Tape::of_words(WordList::of(copy)))
}

/// The tapes of a view.
fn copy_words(alloc: Global, view: &View) -> Result<ServerWords, AuditFault>
    ensures memory { IfErr result (λ fault. fault ≡ Memory) }
    ensures words { IfOk result (λ words. words ≡ words_in view.now) }
{
    let masks = copy_tape(alloc, view.masks())?;
    let coefficients = copy_tape(alloc, view.coefficients())?;
    Ok(ServerWords {
        masks,
        coefficients,
    })
}

/// The tapes of three views.
fn copy_all_words(alloc: Global, views: &Trio<View>) -> Result<Trio<ServerWords>, AuditFault>
    ensures memory { IfErr result (λ fault. fault ≡ Memory) }
    ensures words { IfOk result (λ words. words ≡ of_each words_in views.now) }
{
    Trio::try_of(|at| copy_words(alloc, views.get(at)))
}

/// Runs three fresh servers on the summed points and the tapes of three views to the end of the auction. The messages
/// of the views are not looked at. Want of memory is the only error.
pub(crate) fn run_again(
    alloc: Global,
    grid: &Grid,
    totals: Totals,
    views: &Trio<View>,
) -> Result<Trio<ServerCore<AuctionScript>>, AuditFault>
    requires sums { AddsUp grid.now totals (all_points views.now) }
    requires enough { (s : Point) → HasEnough (counts_of grid.now) (words_in (member views.now s)) }
    ensures memory { IfErr result (λ fault. fault ≡ Memory) }
    ensures ran { IfOk result (RunsAgain grid.now views.now) }
{
    let words = copy_all_words(alloc, views)?;
    let Ok(cores) = start_servers(alloc, grid, totals.inputs(), words) else {
        return Err(AuditFault::OutOfMemory);
    };
    Ok(lockstep(cores))
}
