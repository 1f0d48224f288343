//! An auction that is read, with its whole book.

ghost use Rattle.std.specs.Prelude.{◌≤◌, ◌*◌, length};
ghost use Rattle.beet_bids.specs.Books.{IsBook};
ghost use Rattle.beet_load.specs.Wholes.{CanStart};
ghost use Rattle.beet_book.specs.declared.book_file.TheConstants.{MOST_PRODUCT};

use beet_bids::Book;
use beet_words::Words;

/// An auction that is read: its book, which is within the limit, and the words of its servers and of the bidders of the
/// book, with which three servers can run it.
#[derive(Drop)]
pub struct Whole {
    pub book: Book,
    pub words: Words,
    ghost is_book: { IsBook book },
    ghost runs: { CanStart book words },
    ghost within: { length book.bidders * book.grid.prices ≤ MOST_PRODUCT },
}
