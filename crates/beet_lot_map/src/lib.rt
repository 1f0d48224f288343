//! The words of the second of two sessions of lots that one server cannot tell apart.
#![tactic(auto)]

mod mapping;
mod wanted;

pub use mapping::{SessionFault, session_map};
pub use wanted::enough_each;
