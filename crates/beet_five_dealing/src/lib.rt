//! What the bidders of a book deal among five servers, and the words of the servers and bidders.
#![tactic(auto)]

mod laws;
mod summing;
mod words;

pub use laws::{dealt_points_are_shares_of_the_sums, there_are_words_for_every_book};
pub use summing::{FiveTotals, five_inputs};
pub use words::FiveWords;
