//! The job `replay`: three servers take the auctions of several lots through one schedule of deliveries, and then tell
//! how they stand in each lot.
#![tactic(auto)]

mod beginning;
mod playing;
mod replaying;
mod telling;

pub use replaying::replay;
