//! The run of a script among three servers, as definitions and laws: the three points of each wire,
//! batch by batch, what each server draws, sends and opens, and the lines on which the points lie.
//!
//! It knows no message on its way, and nothing that computes.
#![tactic(auto)]

mod laws_of_lines;

pub use laws_of_lines::{
    deal_example, lawful_runs_end, lines_end_alike, product_example, rounds_are_the_clear_runs,
    rounds_stay_within, wires_stay_on_lines,
};
