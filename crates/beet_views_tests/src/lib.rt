//! The tests of what one server sees of an auction, of two worlds that it cannot tell apart, and of the words of the
//! job `trial`, which are proved over the contracts of their crates alone.
#![tactic(auto)]

#[cfg(test)]
mod tests;
