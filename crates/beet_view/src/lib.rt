//! What one server sees of an auction, and the file that keeps it.
#![tactic(auto)]

mod listed;
mod parts;
mod quantities;
mod reading;
mod running;
mod shown;
mod view;
mod writing;

pub use reading::{MOST_ROUNDS, read_view};
pub use running::{run_view, transcript_of};
pub use shown::ShownBidders;
pub use view::{RunView, Seen, View};
pub use writing::{mark_of, number_of_gates, numbers_for_bidders, push_run, write_view};
