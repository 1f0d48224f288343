//! Words of 61 bits, tapes of them, and the files and seeds that they come from.
#![tactic(auto)]

mod accepted;
mod bundle;
mod digits;
mod fields;
mod many;
mod points;
mod seed;
mod tape;
mod tape_file;
mod word;

pub use accepted::{numbers_in, put_back, word_of};
pub use bundle::{
    BAD_MAGIC, BAD_NUMBER, MOST_BIDDERS, MOST_WORDS, TRAILING, TRUNCATED, WRONG_COUNT, Words,
    push_list, read_bundle, read_list, write_bundle,
};
pub use digits::read_seed;
pub use fields::{Allowed, WIDTH, push_number, read_end, read_magic, read_number, room};
pub use many::read_many;
pub use points::{push_points, read_point, read_points};
pub use seed::draw_seed;
pub use tape::{Tape, count_accepted};
pub use tape_file::{BAD_LINE, TAPE_LIMIT, WORD_TOO_LARGE, read_tape, write_tape};
pub use word::{FeList, Word, WordList};
