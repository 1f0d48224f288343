//! The job `session`: the auctions of several lots among the same three servers, one after another.
#![tactic(auto)]

mod running;
mod telling;

pub use running::session;
