//! Curves of quantities.

ghost use Rattle.std.specs.Prelude.{◌≡◌, ◌<◌, ◌↔◌, ◌≤◌, length, slice_index, All, AllPairs, IsTrue, SomeIff, IfOk};
ghost use Rattle.beet_bids.specs.Curves.{IsCurve, IsOfGrid};

use crate::grid::Grid;
use std::alloc::{AllocError, Global};
use std::marker::Model;

/// The largest quantity of a bidder at a price, 2^48 - 1.
pub const LARGEST_QUANTITY: u64 = 281_474_976_710_655;

/// The quantities that a bidder buys and sells at each price. Buy never rises and sell never falls.
#[derive(Debug, Drop)]
pub struct Curve {
    buy: Vec<u64>,
    sell: Vec<u64>,
}

impl Model for Curve {
    ghost use Rattle.beet_bids.specs.Curves.{Curve as Seen, IsCurve};

    ghost Value = { Seen };

    ghost view = { λ a. record { buy = a.buy.items; sell = a.sell.items } };

    ghost invariant = { λ a. IsCurve (record { buy = a.buy.items; sell = a.sell.items }) };
}

/// Whether each quantity is within its limit.
fn are_within(quantities: &[u64]) -> bool
    ensures { IsTrue result ↔ All (λ quantity. quantity ≤ LARGEST_QUANTITY) quantities.now }
{
    quantities
        .iter()
        .all(|quantity| *quantity <= LARGEST_QUANTITY)
}

/// Whether no quantity is above the one before.
fn never_rises(quantities: &[u64]) -> bool
    ensures { IsTrue result ↔ AllPairs (λ before after. after ≤ before) quantities.now }
{
    quantities.is_sorted_by(|before, after| *after <= *before)
}

/// Whether no quantity is below the one before.
fn never_falls(quantities: &[u64]) -> bool
    ensures { IsTrue result ↔ AllPairs (λ before after. before ≤ after) quantities.now }
{
    quantities.is_sorted_by(|before, after| *before <= *after)
}

impl Curve {
    /// The curve of these quantities, or none if they are no curve of the grid; the lists are dropped then.
    pub fn of(grid: &Grid, buy: Vec<u64>, sell: Vec<u64>) -> Option<Curve>
        ensures { SomeIff result
            (IsOfGrid grid.now (record { buy = buy.items; sell = sell.items })
            × IsCurve (record { buy = buy.items; sell = sell.items }))
            (record { buy = buy.items; sell = sell.items }) }
    {
        let prices = grid.prices() as usize;
        if buy.len() != prices || sell.len() != prices {
            return None;
        }
        if !are_within(&buy) || !are_within(&sell) || !never_rises(&buy) || !never_falls(&sell) {
            return None;
        }
        Some(Curve { buy, sell })
    }

    /// The curve of these quantities, which are known to be one.
    pub(crate) fn known(buy: Vec<u64>, sell: Vec<u64>) -> Curve
        requires { IsCurve (record { buy = buy.items; sell = sell.items }) }
        ensures { result ≡ record { buy = buy.items; sell = sell.items } }
    {
        Curve { buy, sell }
    }

    /// Whether both lists have a quantity for each price of the grid.
    pub fn is_of(&self, grid: &Grid) -> bool
        ensures of_grid { IsTrue result ↔ IsOfGrid grid.now self.now }
        ensures curve { IsCurve self.now }
    {
        let prices = grid.prices() as usize;
        self.buy.len() == prices && self.sell.len() == prices
    }

    /// The quantity that is bought at this place.
    pub fn buy(&self, place: u32) -> u64
        requires { place < length self.now.buy }
        ensures value { result ≡ slice_index self.now.buy place }
        ensures curve { IsCurve self.now }
    {
        self.buy[place as usize]
    }

    /// The quantity that is sold at this place.
    pub fn sell(&self, place: u32) -> u64
        requires { place < length self.now.sell }
        ensures value { result ≡ slice_index self.now.sell place }
        ensures curve { IsCurve self.now }
    {
        self.sell[place as usize]
    }

    /// The quantities that are bought, at each place.
    pub fn bought(&self) -> &[u64]
        ensures quantities { result.now ≡ self.now.buy }
        ensures curve { IsCurve self.now }
    {
        &self.buy
    }

    /// The quantities that are sold, at each place.
    pub fn sold(&self) -> &[u64]
        ensures quantities { result.now ≡ self.now.sell }
        ensures curve { IsCurve self.now }
    {
        &self.sell
    }

    /// An equal curve.
    pub fn copy(&self, alloc: Global) -> Result<Curve, AllocError>
        ensures { IfOk result (λ copy. copy ≡ self.now) }
    {
        let buy = self.buy.clone()?;
        let sell = self.sell.clone()?;
        Ok(Curve { buy, sell })
    }
}
