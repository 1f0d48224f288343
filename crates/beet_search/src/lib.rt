//! The auction's script: a binary search for the first price at which supply reaches demand, by comparisons under
//! masks.
#![tactic(auto)]

mod blocks;
mod five;
mod laws;
mod script;
mod walk;

pub use beet_plan::Finish;
pub use blocks::Dealers;
pub use five::FiveScript;
pub use laws::{auction_law, book_law, five_law};
pub use script::AuctionScript;
pub use walk::Walk;
