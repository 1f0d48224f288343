//! Two worlds of any trade: what is enough for them, what is read, and how the words of the servers are mapped.
#![tactic(auto)]

mod servers;

pub use servers::{all_words, look_at, map_servers};
