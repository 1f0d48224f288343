//! The tests of the queue of notes, in a run of one round among three servers in threads, which are proved over the
//! contracts of their crates alone.
#![tactic(auto)]

#[cfg(test)]
mod notes;
