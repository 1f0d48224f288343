//! Two worlds of an auction that one server cannot tell apart: their books, and how the words of one are mapped to
//! those of the other.
#![tactic(auto)]

mod agreeing;
mod bidders;
mod book_sums;
mod inputs;
mod laws;
mod mapping;
mod wanted;

pub use agreeing::agreement;
pub use beet_two_books::{MapFault, map_masks};
pub use bidders::map_bidders;
pub use inputs::input_lines;
pub use laws::{
    enough_words_can_be_drawn, farmers_are_bidders_and_words, mapped_bidders_give_the_same_points,
    mapped_words_are_enough, mapped_words_are_the_only_ones, mapped_worlds_map_back,
    unread_words_change_nothing,
};
pub use mapping::world_map;
pub use wanted::enough;
