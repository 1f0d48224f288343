//! The job `witness`: three servers open the envelopes of all bidders, and what each of them has seen is put into a
//! file.
#![tactic(auto)]

mod keeping;
mod witnessing;

pub use witnessing::witness;
