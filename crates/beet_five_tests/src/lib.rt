//! The tests of five servers that run a small auction, which are proved over the contracts of their crates alone.
#![tactic(auto)]

#[cfg(test)]
mod tests;
