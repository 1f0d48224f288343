//! The run of a script among servers, as definitions and laws: the points of each wire, batch by batch, what each
//! server draws, sends and opens, and the polynomials on which the points lie.
//!
//! How the servers share a secret is a value (`Sharing`), and five servers of which three open a secret are its
//! instance. There is nothing that computes.
#![tactic(auto)]

mod laws_of_sharing;

pub use laws_of_sharing::{lawful_runs_end, rounds_are_the_clear_runs, wires_stay_shared};
