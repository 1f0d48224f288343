//! The tests of the crates of the script, of the servers and of what they see, which are proved over their contracts
//! alone.
#![tactic(auto)]

#[cfg(test)]
mod tests;
