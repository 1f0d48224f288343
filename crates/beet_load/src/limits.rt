//! The limit on a book of which everything is kept.

ghost use Rattle.std.specs.Prelude.{◌≡◌, ◌≤◌, ◌+◌, ◌*◌, ℕ, IfErr, IfOk};
ghost use Rattle.beet_errand.specs.Fetches.{Tests};
ghost use Rattle.beet_load.specs.Limits.{within_product};
ghost use Rattle.beet_words.specs.declared.bundle.TheConstants.{MOST_BIDDERS};
ghost use Rattle.beet_book.specs.declared.book_file.TheConstants.{MOST_PRODUCT};

use beet_bids::Grid;
use beet_book::{MOST_PRODUCT, OVER_PRODUCT};
use beet_errand::{Stop, refuse};
use beet_forms::FaultPlace;
use std::alloc::Global;

/// Refuses the book of this name at row 0 for the reason 6 if its bidders, at most 2,000, each counted once for each
/// price of the grid, are more than 500,000 with those of the books before it. Want of memory is the only other error.
pub fn check_product(
    alloc: Global,
    before: u64,
    book: &str,
    grid: &Grid,
    count: usize,
) -> Result<(), Stop>
    requires count { count ≤ MOST_BIDDERS }
    requires before { before ≤ MOST_PRODUCT }
    ensures tests { Tests (within_product before book.now grid.now count) result }
    ensures within { IfOk result (λ done. before + count * grid.now.prices ≤ MOST_PRODUCT) }
{
    let product = before + count as u64 * grid.prices() as u64;
    if product > MOST_PRODUCT {
        return Err(refuse(alloc, book, FaultPlace::Row(0), OVER_PRODUCT));
    }
    Ok(())
}
