//! The job `rehearse`: three servers take the auction of a book through a schedule of deliveries, and then tell how
//! they stand.
#![tactic(auto)]

mod laws;
mod rehearsing;
mod standing;
mod telling;

pub use laws::nothing_undelivered_tells_the_end;
pub use rehearsing::rehearse;
pub use standing::{Standing, standing_at};
pub use telling::{push_undelivered, servers_reply};
