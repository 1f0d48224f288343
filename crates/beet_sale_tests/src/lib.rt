//! The tests of the script of a sale, on known bids and, against the plain rule, on bids that are drawn. Whole jobs
//! over files are lines of beet_lines.
#![tactic(auto)]

#[cfg(test)]
mod tests;
