//! The jobs of sealed bids: a farmer seals a bid in three envelopes, one for each server, and three servers open the
//! envelopes of all bidders.
#![tactic(auto)]

mod laws;
mod opening;
mod sealing;
mod source_word;

pub use laws::sealed_books_open_their_outcome;
pub use opening::open_envelopes;
pub use sealing::{SealFiles, seal_bid};
pub use source_word::{SourceWord, read_source_word};
