//! How three servers begin a script, with the points of its inputs and their words; those of an auction, how they end
//! it, and the text of that end.
#![tactic(auto)]

mod outcome;
mod running;

pub use outcome::{finish_as_text, outcome_reply, outcome_word};
pub use running::{end_of, finish_at, start_script, start_servers};
