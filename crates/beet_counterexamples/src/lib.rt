//! What shows that the laws of `beet_headline` bite: a statement that names another count of rejected masks or another
//! number of rounds is false, and so is one that leaves out a condition; and the premises are met by instances.
//!
//! There is no code here: the laws are contracts of functions that do nothing.
#![tactic(auto)]

mod five;
mod headline;
mod instances;

pub use five::{the_premises_of_five_are_met, two_of_five_are_told_no_bid};
pub use headline::{
    a_finish_tells_the_outcome, all_ends_are_alike_by_definition, no_other_count_or_rounds,
    one_server_is_told_no_bid, only_books_that_agree_look_the_same,
    the_same_words_are_mapped_only_for_the_same_bids, the_same_words_seal_only_the_same_bid,
    three_rejected_masks_spend, with_a_message_undelivered_some_server_waits,
    with_a_word_too_few_none_are_mapped, with_other_words_no_difference_is_told,
    without_conditions_other_words_seal_the_same, without_places_there_are_other_words,
};
pub use instances::{different_books_agree, the_premises_of_the_statements_are_met};
