//! Several lots of one session among the same three servers: each lot is an auction with messages of its own.
#![tactic(auto)]

mod laws;
mod lots;
mod rows;

pub use laws::{
    each_lot_opens_its_own_outcome, each_lot_stands_by_its_own_events, events_add_up,
    lots_do_not_touch_each_other,
};
pub use lots::{LotDelivery, LotWorld, MOST_LOTS};
