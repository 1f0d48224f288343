//! The words of a command `pair`, which the programs of sessions and of sales have alike, beside commands of their own.
#![tactic(auto)]

mod command;
mod pair;

pub use command::{Command, OwnCommand, read_command};
pub use pair::PairFiles;
