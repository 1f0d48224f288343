//! Reading the grid of an auction and the entries of a book.

ghost use Rattle.std.specs.Prelude.{◌≤◌, IfOk, length};
ghost use Rattle.beet_bids.specs.AuctionFiles.{auction_of};
ghost use Rattle.beet_book.specs.BookFiles.{book_of};
ghost use Rattle.beet_errand.specs.Errands.{reads};
ghost use Rattle.beet_errand.specs.Fetches.{Reads};
ghost use Rattle.beet_bids.specs.declared.auction_file.TheConstants.{AUCTION_LIMIT};
ghost use Rattle.beet_words.specs.declared.bundle.TheConstants.{MOST_BIDDERS};
ghost use Rattle.beet_book.specs.declared.book_file.TheConstants.{BOOK_LIMIT};

use beet_bids::{AUCTION_LIMIT, Grid, read_auction};
use beet_book::{BOOK_LIMIT, Entry, read_book};
use beet_errand::{Stop, fetch_file, judge};
use beet_store::Shelf;
use std::alloc::Global;

/// The grid of an auction file.
pub fn read_grid<S: Shelf>(alloc: Global, shelf: &mut S, name: &str) -> Result<Grid, Stop>
    ensures { Reads (λ grid. grid) (S.seen shelf.old) (S.seen shelf.new)
        (reads name.now AUCTION_LIMIT auction_of) result }
{
    let bytes = fetch_file(alloc, shelf, name, AUCTION_LIMIT)?;
    judge(alloc, name, read_auction(alloc, bytes.as_slice()))
}

/// The entries of a book file.
pub fn read_entries<S: Shelf>(alloc: Global, shelf: &mut S, name: &str) -> Result<Vec<Entry>, Stop>
    ensures few { IfOk result (λ entries. length entries.items ≤ MOST_BIDDERS) }
    ensures reads { Reads (λ entries. entries.items) (S.seen shelf.old) (S.seen shelf.new)
        (reads name.now BOOK_LIMIT book_of) result }
{
    let bytes = fetch_file(alloc, shelf, name, BOOK_LIMIT)?;
    judge(alloc, name, read_book(alloc, bytes.as_slice()))
}
