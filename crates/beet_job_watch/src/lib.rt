//! The job `watch`: three servers run the auction of a book while the audit desk counts what they tell of their rounds,
//! and its outcome and the counts are told.
#![tactic(auto)]

mod job;
mod running;
mod telling;

pub use job::watch;
