//! Whether servers can tell two books apart by what they know and by what is opened.

ghost use Rattle.std.specs.Prelude.{◌≡◌, ◌≢◌, ◌<◌, ◌≤◌, ◌↔◌, slice_index, true, IsTrue, IsFalse, IsOk};
ghost use Rattle.std.specs.Prelude.{MatchOption, IfErr, IfSome};
ghost use Rattle.beet_field.specs.Trio.{member};
ghost use Rattle.beet_words.specs.declared.bundle.TheConstants.{MOST_BIDDERS};
ghost use Rattle.beet_bids.specs.Curves.{IsOfGrid};
ghost use Rattle.beet_map.specs.Refused.{DifferFirst};
ghost use Rattle.beet_two_books.specs.Agreement.{AgreeFor, AllSame, AreOnePlace, is_known, marks_of};
ghost use Rattle.beet_two_books.specs.Disagreement.{DiffersFor, RefusesFor};

use crate::bidders::{BidderPair, pair_at};
use beet_bids::{Bidder, Book, Curve, Grid, Outcome, outcome};
use beet_field::{Point, Trio};
use std::alloc::AllocError;
use thiserror::Error;

/// Why the words of an auction are not mapped to those of a second book: the first thing that tells the books apart, or
/// want of memory.
#[derive(Clone, Copy, PartialEq, Eq, Debug, Error)]
pub enum MapFault {
    /// The first bidder, counted from 1, that one book lacks, or that is not known to the same server in both.
    #[error("bidder {0} is not in both books with the same mark")]
    ShapeDiffers(u32),
    /// The first bidder, counted from 1, that is known to a server that watches and has another curve in the second
    /// book.
    #[error("bidder {0} is known to a server that watches and has another curve in the second book")]
    OwnBidsDiffer(u32),
    /// The outcomes, of the first book and of the second.
    #[error("the books have different outcomes")]
    OutcomesDiffer(Outcome, Outcome),
    /// Memory ran out.
    #[error("out of memory")]
    OutOfMemory,
}

impl From<AllocError> for MapFault {
    ghost use Rattle.std.specs.Prelude.{◌≡◌};
    ghost use Rattle.beet_two_books.specs.declared.agreeing.MapFault.TheVariants.{OutOfMemory};

    ghost from_gives = { λ _ fault. fault ≡ OutOfMemory };

    fn from(_error: AllocError) -> MapFault {
        MapFault::OutOfMemory
    }
}

/// The first place at which the marks of two books differ, or at which one book has no bidder.
fn other_mark(first: &Book, second: &Book) -> Option<u32>
    ensures place { MatchOption result (marks_of second.now ≡ marks_of first.now)
        (λ n. DifferFirst (marks_of first.now) (marks_of second.now) n) }
    ensures below { IfSome result (λ n. n ≤ MOST_BIDDERS) }
{
    let bidders = first.bidders();
    let others = second.bidders();
    let fewer = bidders.len().min(others.len());
    for i in 0..fewer {
        if bidders[i].known != others[i].known {
            return Some(i as u32);
        }
    }
    if bidders.len() == others.len() {
        None
    } else {
        Some(fewer as u32)
    }
}

/// Whether two curves have the same quantities at a place.
fn same_at(first: &Curve, second: &Curve, grid: &Grid, place: u32) -> bool
    requires first { IsOfGrid grid.now first.now }
    requires second { IsOfGrid grid.now second.now }
    requires place { place < grid.now.prices }
    ensures { IsTrue result ↔ ((slice_index second.now.buy place ≡ slice_index first.now.buy place)
        × (slice_index second.now.sell place ≡ slice_index first.now.sell place)) }
{
    first.buy(place) == second.buy(place) && first.sell(place) == second.sell(place)
}

/// Whether two curves over a grid are the same.
fn same_curve(grid: &Grid, first: &Curve, second: &Curve) -> bool
    requires first { IsOfGrid grid.now first.now }
    requires second { IsOfGrid grid.now second.now }
    ensures { IsTrue result ↔ (second.now ≡ first.now) }
{
    for place in 0..grid.prices() {
        if !same_at(first, second, grid, place) {
            return false;
        }
    }
    true
}

/// Whether one of these servers knows a bidder.
fn is_watched(watch: &Trio<bool>, bidder: &Bidder) -> bool
    ensures { result ≡ is_known (member watch.now) bidder.now.known }
{
    match bidder.known {
        Some(server) => *watch.get(server),
        None => false,
    }
}

/// Whether a bidder is known to one of these servers and has another curve in the second book.
fn is_changed(watch: &Trio<bool>, pair: &BidderPair<'_>) -> bool
    requires { AreOnePlace pair.now.grid.now pair.now.first.now pair.now.second.now }
    ensures changed { IsTrue result → (is_known (member watch.now) pair.now.first.now.known ≡ true)
        × (pair.now.second.now.curve ≢ pair.now.first.now.curve) }
    ensures kept { IsFalse result → is_known (member watch.now) pair.now.first.now.known ≡ true →
        pair.now.second.now.curve ≡ pair.now.first.now.curve }
{
    is_watched(watch, pair.first) && !same_curve(pair.grid, &pair.first.curve, &pair.second.curve)
}

/// The first place at which a bidder is known to one of these servers and has another curve in the second book.
fn other_own_bid(watch: &Trio<bool>, first: &Book, second: &Book) -> Option<u32>
    requires grids { second.now.grid ≡ first.now.grid }
    requires marks { marks_of second.now ≡ marks_of first.now }
    ensures place { MatchOption result (AllSame (member watch.now) first.now second.now)
        (λ n. DiffersFor (member watch.now) first.now.bidders second.now.bidders n) }
    ensures below { IfSome result (λ n. n ≤ MOST_BIDDERS) }
{
    for i in 0..first.bidders().len() {
        let pair = pair_at(first, second, i);
        if is_changed(watch, &pair) {
            return Some(i as u32);
        }
    }
    None
}

/// Which servers watch, if this one alone does.
pub fn only(me: Point) -> Trio<bool>
    ensures { (s : Point) → (member result s ≡ true) ↔ (s ≡ me) }
{
    match me {
        Point::One => Trio {
            one: true,
            two: false,
            three: false,
        },
        Point::Two => Trio {
            one: false,
            two: true,
            three: false,
        },
        Point::Three => Trio {
            one: false,
            two: false,
            three: true,
        },
    }
}

/// Whether two books over one grid agree for the servers that watch: as many bidders with the same marks, the same
/// curves of those known to one of these servers, and the same outcome, which holds what the policy of the grid opens.
/// It tells the first of these that does not hold. It takes no memory, and never answers that it ran out.
pub fn agreement(watch: &Trio<bool>, first: &Book, second: &Book) -> Result<(), MapFault>
    requires { second.now.grid ≡ first.now.grid }
    ensures agreed { IsOk result ↔ AgreeFor (member watch.now) first.now second.now }
    ensures refused { IfErr result (RefusesFor (member watch.now) first.now second.now) }
{
    if let Some(place) = other_mark(first, second) {
        return Err(MapFault::ShapeDiffers(place + 1));
    }
    if let Some(place) = other_own_bid(watch, first, second) {
        return Err(MapFault::OwnBidsDiffer(place + 1));
    }
    let (one, other) = (outcome(first), outcome(second));
    if one == other {
        Ok(())
    } else {
        Err(MapFault::OutcomesDiffer(one, other))
    }
}
