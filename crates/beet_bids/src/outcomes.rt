//! What comes out of an auction.

/// What an auction opens beside the price.
#[derive(Clone, Copy, PartialEq, Eq, Debug)]
pub enum Policy {
    /// Nothing.
    Price,
    Volume,
    /// The volume and the supply.
    Full,
}

/// The price at which a book clears and what is opened of the quantities there, if there is such a price.
#[derive(Clone, Copy, PartialEq, Eq, Debug)]
pub enum Outcome {
    /// The first price at which supply reaches demand.
    Price {
        /// The place of the price in the grid, counted from 0.
        place: u32,
        price: u64,
        /// What all bidders together buy at the price, if it is opened.
        volume: Option<u64>,
        /// What all bidders together sell at the price, if it is opened.
        supply: Option<u64>,
    },
    /// Supply stays below demand at every price.
    No,
}
