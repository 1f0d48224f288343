//! What a farmer does: the points of a bid in three envelopes, one for each server, and the list that names them.
#![tactic(auto)]

mod envelope;
mod list_file;
mod sealing;

pub use envelope::{
    AFTER_POINTS, BAD_POINT, ENVELOPE_LIMIT, Envelope, TRUNCATED_ENVELOPE, WRONG_GRID,
    WRONG_SERVER, read_envelope, write_envelope,
};
pub use list_file::{LIST_LIMIT, ListEntry, read_list};
pub use sealing::seal;
