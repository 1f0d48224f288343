//! Reading what a job begins with: an auction, the words of its servers, its book, and the bids and words of its
//! bidders.
#![tactic(auto)]

mod books;
mod collecting;
mod curves;
mod farmers;
mod files;
mod keeping;
mod limits;
mod loading;
mod lots;
mod servers;
mod setting;
mod wanted;
mod whole;
mod whole_loading;

pub use books::{read_entries, read_grid};
pub use collecting::{add_farmers, list_of};
pub use curves::load_curves;
pub use farmers::{
    BidderWithTape, check_accepted, check_words, front, read_bidder, read_curve, read_farmer,
    read_tape_file,
};
pub use files::AuctionFiles;
pub use keeping::{Farmers, read_farmers};
pub use limits::check_product;
pub use loading::{Loaded, lists_in, load, load_rest};
pub use servers::{
    AllWords, ServerWords, check_three, cut_three, read_server, read_sources, read_words,
    seed_words,
};
pub use setting::read_auction_and_servers;
pub use wanted::{Counts, Wanted, auction_counts, auction_wants};
pub use whole::Whole;
pub use whole_loading::{load_whole, load_whole_rest, words_with};
