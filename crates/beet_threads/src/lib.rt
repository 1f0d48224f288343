//! Three servers in threads of their own, from the start of a run to its end.
#![tactic(auto)]

mod running;
mod serving;

pub use running::{Telling, apart, in_threads, rooms, run_three, runs, servings};
pub use serving::Serving;
