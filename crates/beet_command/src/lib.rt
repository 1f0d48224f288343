//! What all programs of the repository share: the words of their command lines, by their count, and how they end.
#![tactic(auto)]

mod ending;
mod line;
mod words;

pub use ending::{end_program, tell_of_seeds};
pub use line::{Line, read_line};
pub use words::{is_file, words_of};
