//! Work on numbered items that is done in parts at the same time.
#![tactic(auto)]

mod working;

pub use working::{Parts, in_parts};
