//! Reading a book without its words.

ghost use Rattle.std.specs.Prelude.{◌≡◌, ◌≤◌, ◌+◌, ◌*◌, [], IfOk, length};
ghost use Rattle.beet_bids.specs.Books.{IsBook};
ghost use Rattle.beet_errand.specs.Fetches.{Reads};
ghost use Rattle.beet_load.specs.Wholes.{bids_errand, curves_errand};
ghost use Rattle.beet_words.specs.declared.bundle.TheConstants.{MOST_BIDDERS};
ghost use Rattle.beet_book.specs.declared.book_file.TheConstants.{MOST_PRODUCT};

use crate::books::read_entries;
use crate::farmers::read_curve;
use crate::limits::check_product;
use beet_bids::{Bidder, Book, Grid};
use beet_book::Entry;
use beet_errand::Stop;
use beet_store::Shelf;
use std::alloc::Global;

/// Reads the bid of each entry in order.
fn read_bids<S: Shelf>(
    alloc: Global,
    shelf: &mut S,
    grid: &Grid,
    entries: &[Entry],
) -> Result<Book, Stop>
    requires few { length entries.now ≤ MOST_BIDDERS }
    ensures book { IfOk result (λ book. IsBook book) }
    ensures grid { IfOk result (λ book. book.grid ≡ grid.now) }
    ensures count { IfOk result (λ book. length book.bidders ≡ length entries.now) }
    ensures reads { Reads (λ book. book.bidders) (S.seen shelf.old) (S.seen shelf.new)
        (bids_errand grid.now [] entries.now) result }
{
    let mut bidders = Vec::with_capacity(alloc, entries.len())?;
    for entry in entries {
        let curve = read_curve(alloc, shelf, grid, entry.bid.as_str())?;
        bidders.push_reserved(Bidder {
            known: entry.known,
            curve,
        });
    }
    match Book::new(*grid, bidders) {
        Some(book) => Ok(book),
        None => unreachable!(),
    }
}

/// Reads a book without its words, over this grid. Right after its entries were read, it is refused at row 0 for the
/// reason 6 if its bidders, each counted once for each price, are more than 500,000.
pub fn load_curves<S: Shelf>(
    alloc: Global,
    shelf: &mut S,
    before: u64,
    grid: &Grid,
    book: &str,
) -> Result<Book, Stop>
    requires { before ≤ MOST_PRODUCT }
    ensures book { IfOk result (λ book. IsBook book) }
    ensures grid { IfOk result (λ book. book.grid ≡ grid.now) }
    ensures product { IfOk result (λ book. before + length book.bidders * book.grid.prices ≤ MOST_PRODUCT) }
    ensures reads { Reads (λ book. book.bidders) (S.seen shelf.old) (S.seen shelf.new)
        (curves_errand before book.now grid.now) result }
{
    let entries = read_entries(alloc, shelf, book)?;
    check_product(alloc, before, book, grid, entries.len())?;
    read_bids(alloc, shelf, grid, entries.as_slice())
}
