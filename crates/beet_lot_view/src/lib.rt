//! What a server has seen of several lots as one file, and their words as one.
#![tactic(auto)]

mod writing;

pub use writing::LotsFile;
