//! The tests of three servers in threads, also while the desk watches, and of the links between them, which are proved
//! over the contracts of their crates alone.
#![tactic(auto)]

#[cfg(test)]
mod tests;
