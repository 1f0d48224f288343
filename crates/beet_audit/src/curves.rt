//! Whether the points of a bidder are those of lines, and what they recombine to is a curve.

ghost use Rattle.std.specs.Prelude.{◌≡◌, ◌≢◌, ◌↔◌, ◌<◌, ◌≤◌, ◌*◌, ◌+◌, ℕ, IsTrue, IfErr, IfOk};
ghost use Rattle.beet_shamir.specs.Line.{AreElements};
ghost use Rattle.beet_words.specs.declared.bundle.TheConstants.{MOST_BIDDERS};
ghost use Rattle.beet_bids.specs.declared.curve.TheConstants.{LARGEST_QUANTITY as Largest};
ghost use Rattle.beet_bids.specs.declared.grid.TheConstants.{MOST_PRICES};
ghost use Rattle.beet_book.specs.Totals.{points_on};
ghost use Rattle.beet_audit.specs.Audits.{HasPoints, Lines, Monotone, first_of as begins, points_of_bidder};
ghost use Rattle.beet_audit.specs.Audits.{value_at as value_of};
ghost use Rattle.beet_audit.specs.Verdicts.{Judges};
ghost use Rattle.beet_audit.specs.declared.fault.AuditFault.TheVariants.{OutOfMemory as Memory};

use crate::fault::{AuditFault, Side};
use crate::points::{points_at, value_at};
use beet_bids::LARGEST_QUANTITY;
use beet_field::Trio;
use beet_shamir::is_line;
use beet_view::View;

/// Where the points of a side begin.
fn first_of(prices: u32, side: Side) -> u32
    ensures { result ≡ begins prices side }
{
    match side {
        Side::Buy => 0,
        Side::Sell => prices,
    }
}

/// Refuses the first place of a side at which the points of a bidder lie on no line.
pub(crate) fn check_lines(
    views: &Trio<View>,
    bidder: u32,
    prices: u32,
    side: Side,
) -> Result<(), AuditFault>
    requires lengths { HasPoints prices views.now bidder }
    requires few { bidder < MOST_BIDDERS }
    requires limit { prices ≤ MOST_PRICES }
    ensures lines { Judges (Lines prices bidder (points_of_bidder views.now bidder) side) result }
    ensures elements { IfOk result (λ done. (k : ℕ) → k < prices
        → AreElements (points_on (points_of_bidder views.now bidder) (begins prices side + k))) }
    ensures memory { IfErr result (λ fault. fault ≢ Memory) }
{
    let first = first_of(prices, side);
    for place in 0..prices {
        if !is_line(points_at(views, bidder, first + place)) {
            return Err(AuditFault::NotALine(bidder + 1, place, side));
        }
    }
    Ok(())
}

/// What a bidder buys and sells at a place.
fn quantities_at(views: &Trio<View>, bidder: u32, prices: u32, place: u32) -> (u64, u64)
    requires lengths { HasPoints prices views.now bidder }
    requires limit { prices ≤ MOST_PRICES }
    requires place { place < prices }
    ensures buy { result.0 ≡ value_of (points_of_bidder views.now bidder) place }
    ensures sell { result.1 ≡ value_of (points_of_bidder views.now bidder) (prices + place) }
{
    (
        value_at(views, bidder, place),
        value_at(views, bidder, prices + place),
    )
}

/// Whether a bidder buys no more and sells no less than before, and sells no more than the limit.
fn goes_on(before: (u64, u64), here: (u64, u64)) -> bool
    ensures { IsTrue result ↔ ((here.0 ≤ before.0) × (before.1 ≤ here.1) × (here.1 ≤ Largest)) }
{
    here.0 <= before.0 && before.1 <= here.1 && here.1 <= LARGEST_QUANTITY
}

/// Refuses the first place at which what a bidder buys and sells is not as the rules for curves want.
pub(crate) fn check_monotone(views: &Trio<View>, bidder: u32, prices: u32) -> Result<(), AuditFault>
    requires lengths { HasPoints prices views.now bidder }
    requires few { bidder < MOST_BIDDERS }
    requires limit { prices ≤ MOST_PRICES }
    ensures monotone { Judges (Monotone prices bidder (points_of_bidder views.now bidder)) result }
    ensures memory { IfErr result (λ fault. fault ≢ Memory) }
{
    // As if a bidder bought the most and sold nothing before the first place.
    let mut before = (LARGEST_QUANTITY, 0);
    for place in 0..prices {
        let here = quantities_at(views, bidder, prices, place);
        if !goes_on(before, here) {
            return Err(AuditFault::NotMonotone(bidder + 1, place));
        }
        before = here;
    }
    Ok(())
}
