//! The names of the files of an auction.

/// The names of the files of an auction: of the auction itself, of its servers, and of its book.
#[derive(Clone, Copy)]
pub struct AuctionFiles<'a> {
    pub auction: &'a str,
    pub servers: &'a str,
    pub book: &'a str,
}
