//! What the jobs of a session have in common: they read its lots, one after another, and tell of each.
#![tactic(auto)]

mod reading;
mod taking;
mod telling;

pub use reading::{SessionFiles, load_session, read_lots};
pub use taking::{TakesLots, take_lots};
pub use telling::LotsTold;
