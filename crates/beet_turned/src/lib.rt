//! Masks of two worlds that are turned by what the numbers under them lose.
#![tactic(auto)]

mod laws;
mod masks;
mod turning;

pub use laws::{mapped_masks_count_alike, mapped_masks_map_back, turned_masks};
pub use masks::{count_rejected, loss_for, map_masks, word_for};
pub use turning::turn;
