//! The outcome of a book, in plain sums.

ghost use Rattle.std.specs.Prelude.{◌≡◌, ◌<◌, ◌≤◌};
ghost use Rattle.beet_field.specs.Field.{IsElement};
ghost use Rattle.beet_bids.specs.Sums.{supply_at, demand_at};
ghost use Rattle.beet_bids.specs.Outcomes.{clearing_place, outcome_of};

use crate::book::Book;
use crate::outcomes::{Outcome, Policy};

/// What all bidders together sell at a place.
pub fn supply(book: &Book, place: u32) -> u64
    requires { place < book.now.grid.prices }
    ensures value { result ≡ supply_at book.now.bidders place }
    ensures below { IsElement result }
{
    let mut sum = 0;
    for bidder in book.bidders() {
        sum += bidder.curve.sell(place);
    }
    sum
}

/// What all bidders together buy at a place.
pub fn demand(book: &Book, place: u32) -> u64
    requires { place < book.now.grid.prices }
    ensures value { result ≡ demand_at book.now.bidders place }
    ensures below { IsElement result }
{
    let mut sum = 0;
    for bidder in book.bidders() {
        sum += bidder.curve.buy(place);
    }
    sum
}

/// The first place at which supply reaches demand, or the number of places if it does at none. Supply never falls from
/// one place to the next and demand never rises, so that halves of the places are passed over.
pub fn clearing_place(book: &Book) -> u32
    ensures value { result ≡ clearing_place book.now }
    ensures within { result ≤ book.now.grid.prices }
{
    let mut low = 0;
    let mut high = book.grid().prices();
    while low < high {
        let middle = low.midpoint(high);
        if supply(book, middle) < demand(book, middle) {
            low = middle + 1;
        } else {
            high = middle;
        }
    }
    low
}

/// The first price of a book at which supply reaches demand, with what the policy of its grid opens there: the demand
/// is the volume.
pub fn outcome(book: &Book) -> Outcome
    ensures { result ≡ outcome_of book.now }
{
    let grid = book.grid();
    let place = clearing_place(book);
    if place == grid.prices() {
        return Outcome::No;
    }
    let demand = demand(book, place);
    let (volume, supply) = match grid.policy() {
        Policy::Price => (None, None),
        Policy::Volume => (Some(demand), None),
        Policy::Full => (Some(demand), Some(supply(book, place))),
    };
    Outcome::Price {
        place,
        price: grid.price(place),
        volume,
        supply,
    }
}
