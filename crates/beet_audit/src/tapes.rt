//! Whether the tapes of three views have the words of a run.

ghost use Rattle.std.specs.Prelude.{◌≢◌, ◌↔◌, IfErr, IsTrue};
ghost use Rattle.beet_load.specs.Counts.{counts_of};
ghost use Rattle.beet_load.specs.Servers.{HasEnough};
ghost use Rattle.beet_audit.specs.Audits.{Tapes, words_in};
ghost use Rattle.beet_audit.specs.Verdicts.{EachServer, Judges, Wants};
ghost use Rattle.beet_audit.specs.declared.fault.AuditFault.TheVariants.{OutOfMemory as Memory, TooFewWords as TooFew};

use crate::fault::AuditFault;
use beet_bids::Grid;
use beet_field::{Point, Trio};
use beet_gates::Script;
use beet_search::AuctionScript;
use beet_view::View;
use beet_words::count_accepted;

/// Whether both tapes of a view have as many words as the auction may want.
fn has_words(grid: &Grid, view: &View) -> bool
    ensures { IsTrue result ↔ HasEnough (counts_of grid.now) (words_in view.now) }
{
    let script = AuctionScript::over(grid);
    count_accepted(view.coefficients()) >= script.coefficients() as usize
        && view.masks().len() >= script.masks() as usize
}

/// Refuses a server whose view has a tape of too few words.
fn check_tape(grid: &Grid, s: Point, view: &View) -> Result<(), AuditFault>
    ensures tape { Judges (Wants (HasEnough (counts_of grid.now) (words_in view.now)) (TooFew s)) result }
    ensures memory { IfErr result (λ fault. fault ≢ Memory) }
{
    if has_words(grid, view) {
        Ok(())
    } else {
        Err(AuditFault::TooFewWords(s))
    }
}

/// Refuses the first server whose view has a tape of too few words.
pub(crate) fn check_tapes(grid: &Grid, views: &Trio<View>) -> Result<(), AuditFault>
    ensures tapes { Judges (EachServer (Tapes grid.now views.now)) result }
    ensures memory { IfErr result (λ fault. fault ≢ Memory) }
{
    check_tape(grid, Point::One, &views.one)?;
    check_tape(grid, Point::Two, &views.two)?;
    check_tape(grid, Point::Three, &views.three)?;
    Ok(())
}
