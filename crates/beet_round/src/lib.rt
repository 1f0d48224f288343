//! The box of a server: for each of the other two servers it has a place for a message of the current round and one for
//! a message of the next round.
#![tactic(auto)]

mod mailbox;
mod message;
mod places;
mod sides;

pub use mailbox::{RoundBox, Verdict};
pub use message::{RoundMessage, ToPeers};
pub use sides::Side;
