//! Whether three views are those of servers 1, 2 and 3 of one auction.

ghost use Rattle.std.specs.Prelude.{◌≡◌, ◌≢◌, ◌↔◌, map, IsTrue, IfErr, IfOk};
ghost use Rattle.beet_field.specs.Trio.{member};
ghost use Rattle.beet_view.specs.Views.{IsView};
ghost use Rattle.beet_audit.specs.Audits.{Header, HeaderFits};
ghost use Rattle.beet_audit.specs.Verdicts.{EachServer, Judges, Wants};
ghost use Rattle.beet_audit.specs.declared.fault.AuditFault.TheVariants.{HeaderDiffers as Differs};
ghost use Rattle.beet_audit.specs.declared.fault.AuditFault.TheVariants.{OutOfMemory as Memory};

use crate::fault::AuditFault;
use beet_bids::Grid;
use beet_field::{Point, Trio};
use beet_view::{Seen, View};

/// Whether these bidders are as many as the first, with the same marks.
fn same_marks(first: &[Seen], bidders: &[Seen]) -> bool
    ensures { IsTrue result ↔ (map (λ seen. seen.known) bidders.now ≡ map (λ seen. seen.known) first.now) }
{
    if bidders.len() != first.len() {
        return false;
    }
    for i in 0..first.len() {
        if bidders[i].known != first[i].known {
            return false;
        }
    }
    true
}

/// Refuses the view in the place of a server, unless it is the server's, over the grid and with the bidders of the
/// first.
fn check_header(grid: &Grid, first: &View, s: Point, view: &View) -> Result<(), AuditFault>
    ensures header { Judges (Wants (HeaderFits grid.now first.now s view.now) (Differs s)) result }
    ensures limits { IsView view.now }
    ensures memory { IfErr result (λ fault. fault ≢ Memory) }
{
    let fits = view.server() == s
        && view.grid() == grid
        && same_marks(first.bidders(), view.bidders());
    if fits {
        Ok(())
    } else {
        Err(AuditFault::HeaderDiffers(s))
    }
}

/// Refuses the first view that is not in its place.
pub(crate) fn check_headers(grid: &Grid, views: &Trio<View>) -> Result<(), AuditFault>
    ensures headers { Judges (EachServer (Header grid.now views.now)) result }
    ensures limits { IfOk result (λ done. (s : Point) → IsView (member views.now s)) }
    ensures memory { IfErr result (λ fault. fault ≢ Memory) }
{
    check_header(grid, &views.one, Point::One, &views.one)?;
    check_header(grid, &views.one, Point::Two, &views.two)?;
    check_header(grid, &views.one, Point::Three, &views.three)?;
    Ok(())
}
