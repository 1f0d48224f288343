//! The tests of two worlds of five servers that two of them cannot tell apart, which are proved over the contracts of
//! their crates alone.
#![tactic(auto)]

#[cfg(test)]
mod worlds;
