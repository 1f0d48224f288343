//! The run of a script among five servers, from the shares of its inputs and the words of the servers to its end, and
//! how the auction of a book ends among them.
#![tactic(auto)]

mod running;

pub use beet_five_lockstep::lockstep_of_five;
pub use running::{end_of_five, run_among_five, start_five};
