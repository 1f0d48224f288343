//! The job `worlds`: two worlds of an auction with equal transcripts of one server, and the words of the second.
#![tactic(auto)]

mod answering;
mod laws;
mod seeing;
mod two_worlds;

pub use laws::differences_are_told;
pub use seeing::{BookWithWords, SeenBoth, SeenFirst, SeenWorlds, see_first};
pub use two_worlds::worlds;
