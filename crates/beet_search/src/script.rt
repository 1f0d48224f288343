//! The script as a value.

ghost use Rattle.std.specs.Prelude.{◌≡◌, ◌↔◌, IsSome, IfSome};
ghost use Rattle.beet_gates.specs.Plans.{plan_finish};
ghost use Rattle.beet_plan.specs.Auction.{auction_over, auction_plan, IsGridSize};
ghost use Rattle.beet_search.specs.Walk.{plan_at, Fits};

use crate::blocks::Dealers;
use crate::walk::Walk;
use beet_bids::{Grid, MOST_PRICES, Policy};
use beet_field::Fe;
use beet_gates::{Batch, Gates, Script};
use beet_plan::{Finish, most_coefficients, most_masks};
use beet_walk::{Place, PlanWalk};
use std::marker::Model;

/// The script of an auction with so many prices, this kind of gates, and what it opens beside the price. With P prices,
/// input k is the supply at place k, and input P + k the demand there.
#[derive(Clone, Copy, PartialEq, Eq, Debug)]
pub struct AuctionScript {
    prices: u32,
    gates: Gates,
    policy: Policy,
}

impl Model for AuctionScript {
    ghost use Rattle.beet_plan.specs.Auction.{Auction, IsGridSize};

    ghost Value = { Auction };

    ghost view = { λ a. record { prices = a.prices; gates = a.gates; policy = a.policy } };

    ghost invariant = { λ a. IsGridSize a.prices };

    ghost inverse = { λ v. record { prices = v.prices; gates = v.gates; policy = v.policy } };
}

impl AuctionScript {
    ghost use Rattle.beet_plan.specs.Auction.{auction_batch};
    ghost use Rattle.beet_gates.specs.Ends.{TellsEnd};

    /// The script that opens the price and the volume, or none if the number of prices is outside 1 to 4,096.
    pub fn new(prices: u32, gates: Gates) -> Option<AuctionScript>
        ensures accepted { IsSome result ↔ IsGridSize prices }
        ensures value { IfSome result
            (λ script. script ≡ record { prices = prices; gates = gates; policy = Policy.Volume }) }
    {
        if prices >= 1 && prices <= MOST_PRICES {
            Some(AuctionScript {
                prices,
                gates,
                policy: Policy::Volume,
            })
        } else {
            None
        }
    }

    /// The script of the auction over a grid.
    pub fn over(grid: &Grid) -> AuctionScript
        ensures { result ≡ auction_over grid.now }
    {
        AuctionScript {
            prices: grid.prices(),
            gates: grid.gates(),
            policy: grid.policy(),
        }
    }

    /// The script of the same auction, but that it opens what the policy says.
    pub fn with_policy(self, policy: Policy) -> AuctionScript
        ensures { result ≡ record self { policy = policy } }
    {
        AuctionScript { policy, ..self }
    }

    /// The start of the script.
    fn start(&self) -> Walk
        ensures fits { Fits result }
        ensures plan { plan_at result ≡ auction_plan self.now }
    {
        Walk::start(Dealers::Three(self.gates), self.policy, self.prices)
    }

    /// How the script has ended after these opened numbers, or none if it has not ended.
    pub fn finish(&self, opened: &[Fe]) -> Option<Finish>
        ensures value { result ≡ plan_finish (auction_plan self.now) opened.now }
        ensures ended { TellsEnd (auction_batch self.now) opened.now result }
    {
        self.start().after_all(opened).finish()
    }
}

impl Script<3> for AuctionScript {
    ghost use Rattle.std.specs.Prelude.{◌*◌};
    ghost use Rattle.beet_plan.specs.Auction.{auction_batch, most_rounds, most_masks, most_coefficients, most_wires};
    ghost use Rattle.beet_plan.proofs.AuctionLaw.{auction-law};
    ghost use Rattle.beet_walk.specs.Places.{IsAt};
    ghost use Rattle.beet_walk.proofs.PlaceFacts.{goes-on};

    type Place = Place<Walk>;

    ghost inputs_of = { λ s. 2 * s.prices };

    ghost rounds_of = { most_rounds };

    ghost masks_of = { most_masks };

    ghost secrets_of = { most_coefficients };

    ghost wires_of = { most_wires };

    ghost batch_of = { auction_batch };

    ghost is_at = { λ a. IsAt Fits plan_at (auction_plan a) };

    ghost goes_on = { λ a. goes-on Fits plan_at (auction_plan a) };

    ghost lawful = { auction-law };

    fn inputs(&self) -> u32 {
        2 * self.prices
    }

    fn rounds(&self) -> u32 {
        Dealers::Three(self.gates).most_rounds(self.prices)
    }

    fn masks(&self) -> u32 {
        most_masks(self.prices)
    }

    fn secrets(&self) -> u32 {
        most_coefficients(self.prices)
    }

    fn wires(&self) -> u32 {
        Dealers::Three(self.gates).most_wires(self.prices)
    }

    fn next(&self, done: u32, opened: &[Fe]) -> Batch {
        self.start().batch(done, opened)
    }

    fn begin(&self) -> Place<Walk> {
        Place::begin(self.start())
    }

    fn refill(&self, done: u32, opened: &[Fe], place: &mut Place<Walk>, batch: &mut Batch) {
        place.refill(done, opened, batch);
    }
}
