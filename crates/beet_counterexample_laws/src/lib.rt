//! What shows that the laws of the program bite: without a premise they are false, what they say of a run tells it from
//! others, and what is right for a command has a run in which it is done.
//!
//! There is no code here: the laws are contracts of functions that do nothing.
#![tactic(auto)]

mod apart;
mod done;
mod premises;

pub use apart::{
    a_record_tells_the_status, envelopes_of_two_sealings_are_not_accepted,
    the_statements_tell_runs_apart,
};
pub use done::{what_is_right_has_a_run, what_two_servers_tell_apart_has_a_run};
pub use premises::the_premises_are_needed;
