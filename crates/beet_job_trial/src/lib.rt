//! The job `trial`: a book that is made by rule, dealt to three servers, and cleared by them.
#![tactic(auto)]

mod adding;
mod job;
mod rules;
mod sizes;

pub use job::trial;
pub use rules::{BASE, FIRST_SEED, TICK};
pub use sizes::numbers_of_words;
