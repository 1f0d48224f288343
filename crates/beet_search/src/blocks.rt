//! The blocks of a search.

ghost use Rattle.std.specs.Prelude.{◌≡◌, ◌<◌, ◌≤◌, ◌+◌, ◌^◌, ◌∷◌};
ghost use Rattle.beet_bids.specs.declared.grid.TheConstants.{MOST_PRICES};
ghost use Rattle.beet_compare.specs.Compare.{compare_rounds_of, compare_wires_of};
ghost use Rattle.beet_gates.specs.Plans.{batch_at};
ghost use Rattle.beet_gates.specs.declared.Gates.TheVariants.{Tree};
ghost use Rattle.beet_mask.specs.Mask.{mask_wires_of};
ghost use Rattle.beet_plan.specs.Auction.{most_rounds_with, most_wires_with};
ghost use Rattle.beet_search.specs.Walk.{blocks_among};

use beet_bids::comparisons;
use beet_compare::{CompareWires, compare_rounds, compare_wires, refill_compare};
use beet_field::Fe;
use beet_gates::{Batch, Gates};
use beet_mask::{mask_rounds, mask_wires, refill_mask};
use beet_masking::{MASK_WORDS, SPARE_MASKS};
use beet_plan::most_masks;

/// How many words a mask has, one of each of five servers.
const FIVE_WORDS: u32 = 5;

/// A comparison is told where a mask of three words begins. The bits of five words stand so many wires later in their
/// block.
const BITS_LATER: u32 = 366;

/// Who deals the masks of a search, and by which gates it compares.
#[derive(Clone, Copy)]
pub enum Dealers {
    /// Three servers, with this kind of gates.
    Three(Gates),
    /// Five servers, with chain gates.
    Five,
}

impl Dealers {
    pub fn mask_rounds(self) -> u32
        ensures { result ≡ (blocks_among self).mask_rounds }
    {
        match self {
            Dealers::Three(gates) => mask_rounds(gates, MASK_WORDS),
            Dealers::Five => mask_rounds(Gates::Chain, FIVE_WORDS),
        }
    }

    pub fn mask_wires(self) -> u32
        ensures value { result ≡ (blocks_among self).mask_wires }
        ensures few { result ≤ mask_wires_of 5 }
    {
        match self {
            Dealers::Three(_) => mask_wires(MASK_WORDS),
            Dealers::Five => mask_wires(FIVE_WORDS),
        }
    }

    /// The kind of gates of a comparison.
    fn gates(self) -> Gates
        ensures rounds { (blocks_among self).compare_rounds ≡ compare_rounds_of result }
        ensures wires { (blocks_among self).compare_wires ≡ compare_wires_of result }
    {
        match self {
            Dealers::Three(gates) => gates,
            Dealers::Five => Gates::Chain,
        }
    }

    pub fn compare_rounds(self) -> u32
        ensures { result ≡ (blocks_among self).compare_rounds }
    {
        compare_rounds(self.gates())
    }

    pub fn compare_wires(self) -> u32
        ensures value { result ≡ (blocks_among self).compare_wires }
        ensures few { result ≤ compare_wires_of Tree }
    {
        compare_wires(self.gates())
    }

    /// The most batches that come before the end of a search among so many prices.
    pub fn most_rounds(self, prices: u32) -> u32
        requires { prices ≤ MOST_PRICES }
        ensures value { result ≡ most_rounds_with (blocks_among self) prices }
        ensures few { result < 2 ^ 31 }
    {
        let mask = self.mask_rounds();
        comparisons(prices) * (mask + self.compare_rounds()) + SPARE_MASKS * mask + 1
    }

    /// The most wires of a search among so many prices, with its inputs.
    pub fn most_wires(self, prices: u32) -> u32
        requires { prices ≤ MOST_PRICES }
        ensures { result ≡ most_wires_with (blocks_among self) prices }
    {
        2 * prices
            + self.mask_wires() * most_masks(prices)
            + compare_wires(Gates::Tree) * comparisons(prices)
    }

    /// Makes a batch the one at this step of a mask whose first wire is `first`, or the end past it.
    pub fn refill_mask(self, step: u32, first: u32, batch: &mut Batch)
        requires { first + mask_wires_of 5 < 2 ^ 32 }
        ensures { batch.new ≡ batch_at ((blocks_among self).mask first) step }
    {
        match self {
            Dealers::Three(gates) => refill_mask(gates, MASK_WORDS, step, first, batch),
            Dealers::Five => refill_mask(Gates::Chain, FIVE_WORDS, step, first, batch),
        }
    }

    /// Makes a batch the one at this step of a comparison whose first wire is `wires.first`, with the mask whose block
    /// begins at `wires.mask`, or the end past it.
    pub fn refill_compare(self, step: u32, wires: CompareWires, c: Fe, batch: &mut Batch)
        requires first { wires.first + compare_wires_of Tree < 2 ^ 32 }
        requires mask { wires.mask + mask_wires_of 5 < 2 ^ 32 }
        ensures { batch.new ≡ batch_at
            ((blocks_among self).masked wires.first wires.mask wires.supply wires.demand
            ∷ (blocks_among self).answer wires.first wires.mask c) step }
    {
        match self {
            Dealers::Three(gates) => refill_compare(gates, step, wires, c, batch),
            Dealers::Five => {
                let wires = CompareWires {
                    mask: wires.mask + BITS_LATER,
                    ..wires
                };
                refill_compare(Gates::Chain, step, wires, c, batch);
            }
        }
    }
}
