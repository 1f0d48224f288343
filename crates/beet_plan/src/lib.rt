//! The auction's script as blocks, one after another, and how it ends on plain values.
#![tactic(auto)]

mod five;

ghost use Rattle.std.specs.Prelude.{◌≡◌, ◌≤◌, ◌+◌, ◌*◌};
ghost use Rattle.beet_bids.specs.declared.grid.TheConstants.{MOST_COMPARISONS, MOST_PRICES};
ghost use Rattle.beet_plan.specs.Auction.{most_masks_of, most_coefficients_of};
ghost use Rattle.beet_plan.specs.Kept.{words_kept, masks_kept, coefficients_kept};

use beet_bids::{Grid, comparisons};
use beet_field::Fe;
use beet_masking::{MASK_COEFFICIENTS, SPARE_MASKS, SPARE_WORDS, masks_for};
pub use five::{five_book_law, five_rounds_law};

/// The most mask words that a run with so many prices wants of each server.
pub fn most_masks(prices: u32) -> u32
    requires { prices ≤ MOST_PRICES }
    ensures value { result ≡ most_masks_of prices }
    ensures few { result ≤ MOST_COMPARISONS + SPARE_MASKS }
{
    masks_for(comparisons(prices))
}

/// The most numbers that each server draws in a run with so many prices.
pub fn most_coefficients(prices: u32) -> u32
    requires { prices ≤ MOST_PRICES }
    ensures value { result ≡ most_coefficients_of prices }
    ensures few { result ≤ MASK_COEFFICIENTS * (MOST_COMPARISONS + SPARE_MASKS) }
{
    MASK_COEFFICIENTS * most_masks(prices)
}

/// How many words are kept of each bidder's: two for each price, and the spare words.
pub fn words_kept(grid: &Grid) -> u32
    ensures { result ≡ words_kept grid.now.prices }
{
    2 * grid.prices() + SPARE_WORDS
}

/// How many mask words are kept of each server's.
pub fn masks_kept(grid: &Grid) -> u32
    ensures { result ≡ masks_kept grid.now }
{
    most_masks(grid.prices())
}

/// How many words for numbers are kept of each server's.
pub fn coefficients_kept(grid: &Grid) -> u32
    ensures { result ≡ coefficients_kept grid.now }
{
    most_coefficients(grid.prices()) + SPARE_WORDS
}

/// How a run ends.
#[derive(Clone, Copy, PartialEq, Eq, Debug)]
pub enum Finish {
    /// The first place where supply reaches demand. What was opened there, by the policy: the demand, as the volume,
    /// and the supply.
    Price {
        place: u32,
        volume: Option<Fe>,
        supply: Option<Fe>,
    },
    /// Supply reaches demand at no place.
    NoPrice,
    /// Three masks were rejected.
    MasksSpent,
}
