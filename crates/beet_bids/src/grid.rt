//! The grid of prices.

ghost use Rattle.std.specs.Prelude.{◌≡◌, ◌≢◌, ◌<◌, ◌≤◌, ◌^◌, ℕ, SomeIff, MatchOption};
ghost use Rattle.beet_bids.specs.Grids.{IsGrid, price_of, place_of, comparisons_of};

use crate::outcomes::Policy;
use beet_gates::Gates;
use std::marker::Model;

/// The largest base price.
pub const LARGEST_BASE: u64 = 1_000_000_000_000;

/// The largest step from one price to the next.
pub const LARGEST_TICK: u64 = 1_000_000_000;

/// The largest number of prices.
pub const MOST_PRICES: u32 = 4_096;

/// The most comparisons that a search among so many prices makes.
pub const MOST_COMPARISONS: u32 = 13;

/// The prices of an auction: a base, and each further price a tick above the one before.
#[derive(Clone, Copy, PartialEq, Eq, Debug)]
pub struct Grid {
    base: u64,
    tick: u64,
    prices: u32,
    gates: Gates,
    policy: Policy,
}

impl Model for Grid {
    ghost use Rattle.beet_bids.specs.Grids.{Grid as Seen, IsGrid};

    ghost Value = { Seen };

    ghost view = { λ a.
        record { base = a.base; tick = a.tick; prices = a.prices; gates = a.gates; policy = a.policy } };

    ghost invariant = { λ a.
        IsGrid (record { base = a.base; tick = a.tick; prices = a.prices; gates = a.gates; policy = a.policy }) };

    ghost inverse = { λ n.
        record { base = n.base; tick = n.tick; prices = n.prices; gates = n.gates; policy = n.policy } };
}

/// How many comparisons a search among so many prices makes at most: the logarithm to base 2 of one more than their
/// number, rounded up.
pub fn comparisons(prices: u32) -> u32
    ensures value { result ≡ comparisons_of prices }
    ensures enough { prices < 2 ^ result }
    ensures least { (n : ℕ) → prices < 2 ^ n → result ≤ n }
    ensures few { prices ≤ MOST_PRICES → result ≤ MOST_COMPARISONS }
{
    u32::BITS - prices.leading_zeros()
}

impl Grid {
    /// The grid of an auction that opens the price and the volume, or none if a number is outside its limits.
    pub fn new(base: u64, tick: u64, prices: u32, gates: Gates) -> Option<Grid>
        ensures { SomeIff result
            (IsGrid (record { base = base; tick = tick; prices = prices; gates = gates; policy = Policy.Volume }))
            (record { base = base; tick = tick; prices = prices; gates = gates; policy = Policy.Volume }) }
    {
        if base > LARGEST_BASE || tick < 1 || tick > LARGEST_TICK {
            return None;
        }
        if prices < 1 || prices > MOST_PRICES {
            return None;
        }
        Some(Grid {
            base,
            tick,
            prices,
            gates,
            policy: Policy::Volume,
        })
    }

    /// The same prices and gates, for an auction that opens what the policy says.
    pub fn with_policy(self, policy: Policy) -> Grid
        ensures { result ≡ record self { policy = policy } }
    {
        Grid { policy, ..self }
    }

    /// The lowest price.
    pub fn base(&self) -> u64
        ensures value { result ≡ self.now.base }
        ensures limits { IsGrid self.now }
    {
        self.base
    }

    /// The step from one price to the next.
    pub fn tick(&self) -> u64
        ensures value { result ≡ self.now.tick }
        ensures limits { IsGrid self.now }
    {
        self.tick
    }

    /// How many prices there are.
    pub fn prices(&self) -> u32
        ensures value { result ≡ self.now.prices }
        ensures limits { IsGrid self.now }
    {
        self.prices
    }

    /// The kind of gates that the auction's script uses.
    pub fn gates(&self) -> Gates
        ensures { result ≡ self.now.gates }
    {
        self.gates
    }

    /// What the auction opens beside the price.
    pub fn policy(&self) -> Policy
        ensures { result ≡ self.now.policy }
    {
        self.policy
    }

    /// The price at this place, counted from 0.
    pub fn price(&self, place: u32) -> u64
        requires { place < self.now.prices }
        ensures { result ≡ price_of self.now place }
    {
        self.base + place as u64 * self.tick
    }

    /// The place of this price, or none if the grid has no such price.
    pub fn place(&self, price: u64) -> Option<u32>
        ensures place { result ≡ place_of self.now price }
        ensures exact { MatchOption result
            ((k : ℕ) → k < self.now.prices → price_of self.now k ≢ price)
            (λ k. (k < self.now.prices) × (price_of self.now k ≡ price)) }
    {
        if price < self.base {
            return None;
        }
        let above = price - self.base;
        let place = above / self.tick;
        if above % self.tick != 0 || place >= self.prices as u64 {
            return None;
        }
        Some(place as u32)
    }

    /// The place of this price, or none if the grid has no such price. It takes no division if the price stands at the
    /// place where it is expected.
    pub(crate) fn place_expected(&self, expected: usize, price: u64) -> Option<u32>
        ensures { result ≡ place_of self.now price }
    {
        if expected < self.prices as usize && self.price(expected as u32) == price {
            return Some(expected as u32);
        }
        self.place(price)
    }

    /// How many comparisons a search among the prices makes at most.
    pub fn comparisons(&self) -> u32
        ensures value { result ≡ comparisons_of self.now.prices }
        ensures enough { self.now.prices < 2 ^ result }
        ensures least { (n : ℕ) → self.now.prices < 2 ^ n → result ≤ n }
    {
        comparisons(self.prices)
    }
}
