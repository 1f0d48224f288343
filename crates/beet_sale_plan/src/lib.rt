//! The script of a sealed sale at the second price as blocks, one after another, and how it ends on plain values.
#![tactic(auto)]

ghost use Rattle.std.specs.Prelude.{◌≡◌, ◌≤◌, ◌<◌, ◌*◌, ℕ, List, [], length, All};
ghost use Rattle.beet_field.specs.declared.trio.Trio.{Trio};
ghost use Rattle.beet_gates.specs.Scripts.{LawFrom, bounds_of, start_of};
ghost use Rattle.beet_masking.specs.Masks.{AreMasks};
ghost use Rattle.beet_sale_plan.specs.Sale.{Sale, bidders_of, sale_batch, most_rounds, most_masks, most_coefficients};
ghost use Rattle.beet_sale_plan.specs.Sale.{most_masks_of, most_coefficients_of, most_wires};
ghost use Rattle.beet_sale_plan.specs.Outcome.{IsBid, IsSale};
ghost use Rattle.beet_sale_plan.specs.SaleRuns.{SaleEnds};

mod filling;

pub use filling::{put_before, set_products};

/// The fewest bidders of a sale.
pub const FEWEST_SALE_BIDDERS: u32 = 2;

/// The most bidders of a sale.
pub const MOST_SALE_BIDDERS: u32 = 16;

/// The largest bid, 2^48 - 1.
pub const LARGEST_BID: u64 = 281_474_976_710_655;

/// Room for mask words of each server, for each bidder.
pub const BIDDER_MASKS: u32 = 2;

/// Room for numbers that each server draws, for each bidder.
pub const BIDDER_COEFFICIENTS: u32 = 768;

/// Room for the wires of a bidder beside those of its masks and comparisons.
pub const BIDDER_WIRES: u32 = 17;

/// Room for the wires of a mask and the comparison with it, whatever the gates.
pub const SELECTION_WIRES: u32 = 900;

/// How a sale ends.
#[derive(Clone, Copy, PartialEq, Eq, Debug)]
pub enum SaleEnd {
    /// The bidder that has won, counted from 1, and the price, at most [`LARGEST_BID`].
    Sold { winner: u32, price: u64 },
    /// Three masks were rejected.
    MasksSpent,
}

/// How many mask words a sale of so many bidders wants of each server.
pub fn most_masks(bidders: u32) -> u32
    requires { bidders ≤ MOST_SALE_BIDDERS }
    ensures { result ≡ most_masks_of bidders }
{
    BIDDER_MASKS * bidders
}

/// How many numbers each server draws at most in a sale of so many bidders.
pub fn most_coefficients(bidders: u32) -> u32
    requires { bidders ≤ MOST_SALE_BIDDERS }
    ensures { result ≡ most_coefficients_of bidders }
{
    BIDDER_COEFFICIENTS * bidders
}

/// The script of a sale keeps the law of scripts, whatever the number of bidders.
pub fn script_law()
    ensures { (sale : Sale) →
        LawFrom (sale_batch sale) (bounds_of (most_wires sale) (most_masks sale) (most_coefficients sale))
        (most_rounds sale) (start_of (bidders_of sale)) [] }
{}

/// Its run on bids ends with the winner and the price that the bids have, or spent exactly if three masks are rejected
/// before the last selection's mask is accepted. Its rounds are counted by the masks.
pub fn sale_law()
    ensures { (sale : Sale) (bids : List ℕ) (words : Trio (List ℕ)) (winner price : ℕ) →
        bidders_of sale ≤ MOST_SALE_BIDDERS → length bids ≡ bidders_of sale → All IsBid bids → AreMasks words →
        IsSale bids winner price → SaleEnds sale bids words winner price }
{}

/// Each list of two bids or more has one winner and one price.
pub fn outcome_law()
    ensures { (bids : List ℕ) → 1 < length bids →
        (winner : ℕ) × (price : ℕ) × IsSale bids winner price
        × ((winner' price' : ℕ) → IsSale bids winner' price' → (winner' ≡ winner) × (price' ≡ price)) }
{}
