//! The audit desk: each server tells it what each round opened, through one queue, while the auction runs.
#![tactic(auto)]

mod counts;
mod ending;
mod ends;
mod making;
mod running;

pub use beet_station::DeskNote;
pub use counts::NoteCount;
pub use ends::{NoteRest, NoteRx, NoteTx};
pub use making::note_queue;
pub use running::{WatchedServers, run_watched};
