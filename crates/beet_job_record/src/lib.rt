//! The job `record`: three servers run the auction of a book, and what each of them has seen is put into a file.
#![tactic(auto)]

mod recording;

pub use recording::record;
