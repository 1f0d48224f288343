//! The files of a session of several lots: its lots, where the words of its servers come from, and the schedule of its
//! messages.
#![tactic(auto)]

mod schedule_file;
mod seed_file;
mod session_file;

pub use schedule_file::read_lot_schedule;
pub use seed_file::{NOT_SEED, read_seed_servers};
pub use session_file::{LotRow, Lots, ONE_LOT_TOO_MANY, SESSION_LIMIT, read_session};
