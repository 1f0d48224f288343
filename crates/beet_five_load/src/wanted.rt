//! What an auction among five servers wants of the words that are read.

ghost use Rattle.std.specs.Prelude.{◌≡◌};
ghost use Rattle.beet_five_load.specs.FiveWants.{counts_of_five, wanted_of_five};

use beet_bids::Grid;
use beet_load::{Counts, Wanted};
use beet_plan::{most_coefficients, most_masks};

/// How many numbers hide a secret.
const NUMBERS_FOR_ONE: u32 = 2;

/// How many words the auction over the grid wants among five servers.
fn five_counts(grid: &Grid) -> Counts
    ensures { result ≡ counts_of_five grid.now }
{
    let prices = grid.prices();
    Counts::new(
        most_masks(prices),
        NUMBERS_FOR_ONE * most_coefficients(prices),
        NUMBERS_FOR_ONE * (2 * prices),
    )
}

/// What the auction over the grid wants among five servers.
pub(crate) fn five_wants(grid: &Grid) -> Wanted
    ensures { result ≡ wanted_of_five grid.now }
{
    Wanted {
        counts: five_counts(grid),
        lot: None,
    }
}
