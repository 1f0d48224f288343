//! The tests of the jobs `five` and `five_worlds` over a shelf in memory: an auction of four prices, each fetch refused
//! once, files that are refused, what is kept of a whole book, and for a fixed pair of books and drawn pairs the joint
//! transcripts of all ten pairs of servers and the way back by the file of words.
#![tactic(auto)]

#[cfg(test)]
mod tests;
