//! One server of five as a state machine, and what holds of each that fits a run.
//!
//! Messages come in, those of the server's own round go out, and it passes the round once all four
//! messages of the round have come.
#![tactic(auto)]

mod engine;
mod laws_of_cores;
mod mail;
mod parts;
mod receiving;
mod sending;
mod server;

pub use beet_server::StartFault as FiveFault;
pub use laws_of_cores::{
    a_quiet_core_is_at_its_passed_rounds, nothing_undelivered_means_ended, rounds_stay_close,
};
pub use mail::FiveMessage;
pub use sending::message_to;
pub use server::FiveCore;
