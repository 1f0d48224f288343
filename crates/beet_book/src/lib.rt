//! Books of bidders and lists of servers as files, and dealing the bids of a book to three servers.
#![tactic(auto)]

mod book_file;
mod columns;
mod dealing;
mod entries;
mod named_file;
mod naming;
mod server_file;
mod sources;
mod summing;

pub use book_file::{BOOK_LIMIT, MOST_PRODUCT, OVER_PRODUCT, read_book};
pub use dealing::{Dealt, deal_bidder, deal_many};
pub use entries::{BAD_SOURCE, BidderSource, Entry, read_known, read_source};
pub use named_file::{NamedRow, ONE_TOO_MANY, SAME_NAME, TOO_MANY, read_named, read_named_rows};
pub use server_file::{SERVERS_LIMIT, read_servers};
pub use sources::{ServerSource, Servers};
pub use summing::{MOST_IN_BLOCK, Totals};
