//! The bidders of a book, and what they deal.

ghost use Rattle.std.specs.Prelude.{◌≡◌, ◌<◌, ◌*◌, Some, length, slice_get, IfOk};
ghost use Rattle.beet_bids.specs.Curves.{IsOfGrid, quantity};
ghost use Rattle.beet_book.specs.Dealing.{quantities};
ghost use Rattle.beet_two_books.specs.Agreement.{AreOnePlace, marks_of};

use beet_bids::{Bidder, Book, Curve, Grid};
use beet_field::Fe;
use std::alloc::{AllocError, Global};

/// The bidder at a place of a book. Its curve is over the book's grid.
fn bidder_at(book: &Book, place: usize) -> &Bidder
    requires { place < length book.now.bidders }
    ensures bidder { slice_get book.now.bidders place ≡ Some result.now }
    ensures of_grid { IsOfGrid book.now.grid result.now.curve }
{
    let bidders = book.bidders();
    &bidders[place]
}

/// The bidders at one place of two books over one grid.
#[derive(Clone, Copy)]
pub struct BidderPair<'a> {
    pub grid: &'a Grid,
    pub first: &'a Bidder,
    pub second: &'a Bidder,
}

/// The bidders at a place of two books over one grid with the same marks.
pub fn pair_at<'a>(first: &'a Book, second: &'a Book, place: usize) -> BidderPair<'a>
    requires grids { second.now.grid ≡ first.now.grid }
    requires marks { marks_of second.now ≡ marks_of first.now }
    requires place { place < length first.now.bidders }
    ensures grid { result.grid.now ≡ first.now.grid }
    ensures first { slice_get first.now.bidders place ≡ Some result.first.now }
    ensures second { slice_get second.now.bidders place ≡ Some result.second.now }
    ensures pair { AreOnePlace result.grid.now result.first.now result.second.now }
{
    let grid = first.grid();
    let one = bidder_at(first, place);
    let other = bidder_at(second, place);
    BidderPair {
        grid,
        first: one,
        second: other,
    }
}

/// The n-th quantity of a curve: what is bought at each place, and then what is sold.
fn quantity_of(grid: &Grid, curve: &Curve, n: u32) -> Fe
    requires of_grid { IsOfGrid grid.now curve.now }
    requires place { n < 2 * grid.now.prices }
    ensures { result ≡ quantity curve.now n }
{
    let prices = grid.prices();
    let amount = if n < prices {
        curve.buy(n)
    } else {
        curve.sell(n - prices)
    };
    Fe::reduce(amount as u128)
}

/// The quantities of a curve: what is bought at each place, and then what is sold.
pub fn quantities_of(alloc: Global, grid: &Grid, curve: &Curve) -> Result<Vec<Fe>, AllocError>
    requires { IsOfGrid grid.now curve.now }
    ensures { IfOk result (λ numbers. numbers.items ≡ quantities curve.now) }
{
    let count = 2 * grid.prices();
    let mut numbers = Vec::with_capacity(alloc, count as usize)?;
    for n in 0..count {
        numbers.push(quantity_of(grid, curve, n))?;
    }
    Ok(numbers)
}

/// The quantities of both bidders of a pair, as many of each.
pub fn quantities_of_both(
    alloc: Global,
    pair: &BidderPair<'_>,
) -> Result<(Vec<Fe>, Vec<Fe>), AllocError>
    requires { AreOnePlace pair.now.grid.now pair.now.first.now pair.now.second.now }
    ensures first { IfOk result (λ both. both.0.items ≡ quantities pair.now.first.now.curve) }
    ensures second { IfOk result (λ both. both.1.items ≡ quantities pair.now.second.now.curve) }
{
    let first = quantities_of(alloc, pair.grid, &pair.first.curve)?;
    let second = quantities_of(alloc, pair.grid, &pair.second.curve)?;
    Ok((first, second))
}
