//! The job `pair`: two sessions of lots with equal transcripts of one server, and the words of the second.
#![tactic(auto)]

mod answering;
mod pairing;
mod reading;
mod refusing;
mod sessions;

pub use pairing::pair;
