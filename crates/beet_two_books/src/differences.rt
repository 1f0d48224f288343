//! The summed supply and demand of a book, and how they differ.

ghost use Rattle.std.specs.Prelude.{◌≡◌, ◌<◌};
ghost use Rattle.beet_two_books.specs.Losses.{doubled_at, lost_at};

use beet_bids::{Book, demand, supply};
use beet_field::Fe;

/// Twice the difference of supply and demand at a place.
fn doubled(book: &Book, place: u32) -> Fe
    requires { place < book.now.grid.prices }
    ensures { result ≡ doubled_at book.now place }
{
    let supply = Fe::reduce(supply(book, place) as u128);
    let demand = Fe::reduce(demand(book, place) as u128);
    Fe::reduce(2).mul(supply.sub(demand))
}

/// By how much that is more in the first book than in the second.
pub(crate) fn lost(first: &Book, second: &Book, place: u32) -> Fe
    requires first { place < first.now.grid.prices }
    requires second { place < second.now.grid.prices }
    ensures { result ≡ lost_at first.now second.now place }
{
    doubled(first, place).sub(doubled(second, place))
}
