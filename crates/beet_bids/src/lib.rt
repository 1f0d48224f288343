//! Grids of prices, bids, books of bids, and the outcome of a book in plain numbers.
#![tactic(auto)]

mod auction_file;
mod bid_file;
mod book;
mod clearing;
mod curve;
mod grid;
mod lines;
mod outcomes;

pub use auction_file::{
    AUCTION_LIMIT, BAD_KEY, BAD_VALUE, NOT_ONE_PRICE, PRICES_ROW, WRONG_VERSION, read_auction,
};
pub use bid_file::{BID_LIMIT, read_bid};
pub use book::{Bidder, Book};
pub use clearing::{clearing_place, demand, outcome, supply};
pub use curve::{Curve, LARGEST_QUANTITY};
pub use grid::{Grid, LARGEST_BASE, LARGEST_TICK, MOST_COMPARISONS, MOST_PRICES, comparisons};
pub use lines::{BUY_RISES, NO_BASE, NOT_ASCENDING, OFF_GRID, QUANTITY_TOO_LARGE, SELL_FALLS};
pub use outcomes::{Outcome, Policy};
