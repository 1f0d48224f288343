//! Two worlds of the auction of a book among five servers that two of them cannot tell apart, whatever the bids of the
//! bidders that they do not know: how the words of one are mapped to those of the other, and the laws of it.
#![tactic(auto)]

mod agreeing;
mod bidders;
mod laws;
mod mapping;
mod masks;
mod wanted;

pub use beet_two_books::MapFault as FiveMapFault;
pub use laws::{masks_are_mapped_one_to_one, two_of_five_cannot_tell_books_apart_that_clear_alike};
pub use mapping::{copy_lists, five_map, script_over};
pub use wanted::enough;
