//! The messages of a run that were delivered, as definitions and laws: the set after a list of
//! events, the rounds that each server has passed by it, and what is sent and not delivered.
//!
//! It knows who sends to whom in which round, and how many rounds there are, and nothing of the numbers in a message.
#![tactic(auto)]

mod laws_of_events;

pub use laws_of_events::{
    a_delivery_counts_down, a_set_is_told_by_its_list, delivery_example,
    nothing_undelivered_means_ended, passed_is_the_largest, repeats_change_nothing,
    rounds_stay_close, sent_messages_come_close,
};
