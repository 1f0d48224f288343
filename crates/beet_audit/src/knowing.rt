//! Whether what a server keeps of a bidder that it knows is what the bidder's points say.

ghost use Rattle.std.specs.Prelude.{◌≡◌, ◌↔◌, ◌<◌, ◌≤◌, ◌*◌, ℕ, IsTrue, IfOk, IfSome, length, slice_index};
ghost use Rattle.beet_field.specs.Trio.{member};
ghost use Rattle.beet_field.specs.declared.point.Point.{Point};
ghost use Rattle.beet_words.specs.Words.{accepted};
ghost use Rattle.beet_words.specs.declared.bundle.TheConstants.{MOST_BIDDERS};
ghost use Rattle.beet_bids.specs.declared.curve.TheConstants.{LARGEST_QUANTITY as Largest};
ghost use Rattle.beet_bids.specs.declared.grid.TheConstants.{MOST_PRICES};
ghost use Rattle.beet_book.specs.Dealing.{dealt_points, quantities};
ghost use Rattle.beet_audit.specs.Audits.{HasPoints, IsBidderOf, IsKnown, Known, bidder_at, curve_of, points_of_bidder};
ghost use Rattle.beet_audit.specs.Verdicts.{Judges};

use crate::fault::AuditFault;
use crate::points::{points_at, value_at};
use beet_bids::Curve;
use beet_field::{Fe, Trio};
use beet_shamir::deal;
use beet_view::View;
use beet_words::{WordList, numbers_in};
use std::alloc::{AllocError, Global};

/// Whether a curve is what the points of a bidder recombine to.
fn is_recombined(views: &Trio<View>, bidder: u32, prices: u32, curve: &Curve) -> bool
    requires lengths { HasPoints prices views.now bidder }
    requires limit { prices ≤ MOST_PRICES }
    requires buy { length curve.now.buy ≡ prices }
    requires sell { length curve.now.sell ≡ prices }
    ensures { IsTrue result ↔ (curve.now ≡ curve_of prices (points_of_bidder views.now bidder)) }
{
    for place in 0..prices {
        if curve.buy(place) != value_at(views, bidder, place)
            || curve.sell(place) != value_at(views, bidder, prices + place)
        {
            return false;
        }
    }
    true
}

/// The n-th quantity of a curve: buy at each place, and then sell.
fn quantity_at(curve: &Curve, prices: u32, n: u32) -> u64
    requires buy { length curve.now.buy ≡ prices }
    requires sell { length curve.now.sell ≡ prices }
    requires place { n < 2 * prices }
    ensures value { result ≡ slice_index (quantities curve.now) n }
    ensures limit { result ≤ Largest }
{
    if n < prices {
        curve.buy(n)
    } else {
        curve.sell(n - prices)
    }
}

/// Whether two trios of points are the same.
fn same_points(first: Trio<Fe>, second: Trio<Fe>) -> bool
    ensures { IsTrue result ↔ (first ≡ second) }
{
    first.one == second.one && first.two == second.two && first.three == second.three
}

/// Whether the points of a bidder are what a curve deals with these slopes.
fn are_dealt(views: &Trio<View>, bidder: u32, prices: u32, curve: &Curve, slopes: &[Fe]) -> bool
    requires lengths { HasPoints prices views.now bidder }
    requires limit { prices ≤ MOST_PRICES }
    requires buy { length curve.now.buy ≡ prices }
    requires sell { length curve.now.sell ≡ prices }
    requires slopes { 2 * prices ≤ length slopes.now }
    ensures { IsTrue result ↔ (points_of_bidder views.now bidder ≡ dealt_points curve.now slopes.now) }
{
    for n in 0..2 * prices {
        let value = Fe::reduce(quantity_at(curve, prices, n) as u128);
        if !same_points(points_at(views, bidder, n), deal(value, slopes[n as usize])) {
            return false;
        }
    }
    true
}

/// Whether a curve and words are those of a bidder's points.
fn is_known(
    alloc: Global,
    views: &Trio<View>,
    bidder: u32,
    prices: u32,
    own: &(Curve, WordList),
) -> Result<bool, AllocError>
    requires lengths { HasPoints prices views.now bidder }
    requires limit { prices ≤ MOST_PRICES }
    requires buy { length own.now.0.buy ≡ prices }
    requires sell { length own.now.0.sell ≡ prices }
    ensures { IfOk result (λ known. IsTrue known ↔ IsKnown prices (points_of_bidder views.now bidder) own.now) }
{
    let (curve, words) = own;
    let slopes = numbers_in(alloc, words.as_slice())?;
    if slopes.len() < 2 * prices as usize {
        return Ok(false);
    }
    Ok(
        is_recombined(views, bidder, prices, curve)
            && are_dealt(views, bidder, prices, curve, &slopes),
    )
}

/// Whether what a view keeps of a bidder, if anything, is that of the bidder's points.
fn knows(
    alloc: Global,
    views: &Trio<View>,
    bidder: u32,
    prices: u32,
    view: &View,
) -> Result<bool, AllocError>
    requires lengths { HasPoints prices views.now bidder }
    requires limit { prices ≤ MOST_PRICES }
    requires bidder { bidder < length view.now.bidders }
    requires prices { view.now.grid.prices ≡ prices }
    ensures { IfOk result (λ known. IsTrue known
        ↔ IfSome (bidder_at view.now bidder).own (IsKnown prices (points_of_bidder views.now bidder))) }
{
    match &view.bidders()[bidder as usize].own {
        None => Ok(true),
        Some(own) => is_known(alloc, views, bidder, prices, own),
    }
}

/// Refuses a bidder of which a server keeps what its points do not say.
pub(crate) fn check_known(
    alloc: Global,
    views: &Trio<View>,
    bidder: u32,
    prices: u32,
) -> Result<(), AuditFault>
    requires few { bidder < MOST_BIDDERS }
    requires limit { prices ≤ MOST_PRICES }
    requires bidder { IsBidderOf prices views.now bidder }
    ensures { Judges (Known prices views.now bidder) result }
{
    let one = knows(alloc, views, bidder, prices, &views.one)?;
    let two = knows(alloc, views, bidder, prices, &views.two)?;
    let three = knows(alloc, views, bidder, prices, &views.three)?;
    if one && two && three {
        Ok(())
    } else {
        Err(AuditFault::KnownDiffers(bidder + 1))
    }
}
