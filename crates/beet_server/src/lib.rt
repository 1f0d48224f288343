//! One server of three as a state machine, and what holds of each that fits a run.
//!
//! Messages come in, those of the server's own round go out, and it passes the round once both
//! messages of the round have come.
#![tactic(auto)]

mod engine;
mod kept;
mod laws_of_cores;
mod lines;
mod parts;
mod progress;
mod rows;
mod server;

pub use laws_of_cores::{
    a_core_that_has_sent_is_at_its_passed_rounds, all_end_alike,
    deliveries_elsewhere_change_nothing, messages_go_out_at_most_twice,
};
pub use parts::{Drawn, Given, Numbers, Tapes, append_all, draw, put_all, put_values, secrets_in};
pub use progress::{begin_run, pass_round};
pub use server::{ServerCore, StartFault};
