//! The job `pair`: two sales with equal transcripts of one server, and the words of the second.
#![tactic(auto)]

mod answering;
mod laws;
mod pairing;
mod reading;
mod refusing;

pub use laws::{differences_of_sales_are_told, other_gates_have_this_reason};
pub use pairing::pair;
pub use reading::OTHER_GATES;
