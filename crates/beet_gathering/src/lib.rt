//! The bidders of a list: their envelopes are read, one bidder after another, behind the words of the servers.
#![tactic(auto)]

mod files;
mod gathering;
mod list;

pub use files::ListFiles;
pub use gathering::{Gathers, gather_with_words};
pub use list::read_listed;
