//! Reading two books among five servers.

ghost use Rattle.std.specs.Prelude.{◌≡◌, IfOk};
ghost use Rattle.beet_errand.specs.Fetches.{Reads};
ghost use Rattle.beet_five_load.specs.FiveWholes.{read_of};
ghost use Rattle.beet_job_five_worlds.specs.Reading.{both_errand, both_of};

use beet_bids::Book;
use beet_book_differences::WorldsFiles;
use beet_errand::Stop;
use beet_five_load::{FiveWhole, load_five_whole};
use beet_forms::beside;
use beet_load::{AuctionFiles, load_curves};
use beet_store::Shelf;
use std::alloc::Global;

/// Reads the auction of the first book with all words, and then the second book over the same grid.
pub(crate) fn load_both<S: Shelf>(
    alloc: Global,
    shelf: &mut S,
    files: &WorldsFiles<'_>,
) -> Result<(FiveWhole, Book), Stop>
    ensures grid { IfOk result (λ both. both.1.grid ≡ both.0.book.grid) }
    ensures reads { Reads (λ both. both_of (read_of both.0) both.1) (S.seen shelf.old) (S.seen shelf.new)
        (both_errand files.now.auction.now files.now.servers.now files.now.first.now files.now.second.now) result }
{
    let first = AuctionFiles {
        auction: files.auction,
        servers: files.servers,
        book: files.first,
    };
    let whole = load_five_whole(alloc, shelf, &first)?;
    let second = load_curves(alloc, shelf, 0, whole.book.grid(), files.second);
    let (whole, second) = beside(whole, second)?;
    Ok((whole, second))
}
