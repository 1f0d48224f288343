//! What three servers see of an auction: each bidder is kept as each of them sees it, and what a server has seen of the
//! run is its transcript.
#![tactic(auto)]

mod dealing;
mod laws;
mod replying;
mod running;

pub use dealing::SeenByAll;
pub use laws::recorded_views_are_read_again;
pub use replying::reply_of_run;
pub use running::{Ready, SeenRun, make_ready, see_whole};
