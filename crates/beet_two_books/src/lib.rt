//! Two books over one grid: whether servers can tell them apart by what they know and by what is opened, what their
//! comparisons lose, and the mask words with which they open the same.
#![tactic(auto)]

mod agreeing;
mod bidders;
mod differences;
mod laws;
mod masks;

pub use agreeing::{MapFault, agreement, only};
pub use bidders::{BidderPair, pair_at, quantities_of, quantities_of_both};
pub use laws::{
    agreeing_books_open_alike, books_open_alike_among_five, mapped_masks_leave_the_rounds,
};
pub use masks::{losses, map_masks};
