//! Books of bidders.

ghost use Rattle.std.specs.Prelude.{◌≡◌, ◌≤◌, All, IfSome, SomeIff, length};

use crate::curve::Curve;
use crate::grid::Grid;
use beet_field::Point;
use beet_words::MOST_BIDDERS;
use std::marker::Model;

/// A bidder, and the one server that knows its curve, if there is one.
#[derive(Debug, Drop)]
pub struct Bidder {
    pub known: Option<Point>,
    pub curve: Curve,
}

/// The bidders of an auction.
#[derive(Debug, Drop)]
pub struct Book {
    grid: Grid,
    bidders: Vec<Bidder>,
}

impl Model for Book {
    ghost use Rattle.beet_bids.specs.Books.{Book as Seen, IsBook};

    ghost Value = { Seen };

    ghost view = { λ a. record { grid = a.grid; bidders = a.bidders.items } };

    ghost invariant = { λ a. IsBook (record { grid = a.grid; bidders = a.bidders.items }) };
}

impl Book {
    ghost use Rattle.beet_bids.specs.Books.{IsBook};
    ghost use Rattle.beet_bids.specs.Curves.{IsOfGrid};

    /// The book of these bidders, or none if they are too many or a curve is of another grid; the bidders are
    /// dropped then.
    pub fn new(grid: Grid, bidders: Vec<Bidder>) -> Option<Book>
        ensures made { SomeIff result
            ((length bidders.items ≤ MOST_BIDDERS)
            × All (λ bidder. IsOfGrid grid bidder.curve) bidders.items)
            (record { grid = grid; bidders = bidders.items }) }
        ensures limits { IfSome result (λ book. IsBook book) }
    {
        if bidders.len() > MOST_BIDDERS {
            return None;
        }
        if !bidders.iter().all(|bidder| bidder.curve.is_of(&grid)) {
            return None;
        }
        Some(Book { grid, bidders })
    }

    /// The bidders, in their order.
    pub fn bidders(&self) -> &[Bidder]
        ensures value { result.now ≡ self.now.bidders }
        ensures limits { IsBook self.now }
    {
        &self.bidders
    }

    /// The grid of every curve.
    pub fn grid(&self) -> &Grid
        ensures value { result.now ≡ self.now.grid }
        ensures limits { IsBook self.now }
    {
        &self.grid
    }
}
