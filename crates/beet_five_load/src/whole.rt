//! An auction among five servers that is read, with its whole book.

ghost use Rattle.std.specs.Prelude.{◌≡◌, ◌≤◌, ◌*◌, length};
ghost use Rattle.beet_gates.specs.declared.Gates.TheVariants.{Chain};
ghost use Rattle.beet_bids.specs.Books.{IsBook};
ghost use Rattle.beet_book.specs.declared.book_file.TheConstants.{MOST_PRODUCT};
ghost use Rattle.beet_five_dealing.specs.FiveWords.{CanRun};
ghost use Rattle.beet_five_load.specs.FiveServers.{AreFew};

use beet_bids::Book;
use beet_five_dealing::FiveWords;

/// An auction among five servers that is read: its book, with chain gates and within the limit, and words of the
/// servers and of the bidders with which it can be run. No server has 2^32 mask words or more, or as many for numbers.
#[derive(Drop)]
pub struct FiveWhole {
    pub book: Book,
    pub words: FiveWords,
    ghost chains: { book.grid.gates ≡ Chain },
    ghost is_book: { IsBook book },
    ghost runs: { CanRun book words },
    ghost few_masks: { AreFew words.masks },
    ghost few_coefficients: { AreFew words.coefficients },
    ghost within: { length book.bidders * book.grid.prices ≤ MOST_PRODUCT },
}
