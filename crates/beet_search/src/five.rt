//! The script among five servers as a value.

ghost use Rattle.std.specs.Prelude.{◌≡◌, ◌↔◌, IsNone, IfSome};
ghost use Rattle.beet_gates.specs.Plans.{plan_finish};
ghost use Rattle.beet_gates.specs.declared.Gates.TheVariants.{Tree};
ghost use Rattle.beet_plan.specs.FivePlan.{five_over, five_plan};
ghost use Rattle.beet_search.specs.Walk.{plan_at, Fits};

use crate::blocks::Dealers;
use crate::walk::Walk;
use beet_bids::{Grid, Policy};
use beet_field::Fe;
use beet_gates::{Batch, Gates, Script};
use beet_plan::{Finish, most_coefficients, most_masks};
use beet_walk::{Place, PlanWalk};
use std::marker::Model;

/// The script of an auction among five servers, with chain gates. With P prices, input k is the supply at place k, and
/// input P + k the demand there.
#[derive(Clone, Copy, PartialEq, Eq, Debug)]
pub struct FiveScript {
    prices: u32,
    policy: Policy,
}

impl Model for FiveScript {
    ghost use Rattle.beet_plan.specs.Auction.{IsGridSize};
    ghost use Rattle.beet_plan.specs.FivePlan.{FiveAuction};

    ghost Value = { FiveAuction };

    ghost view = { λ a. record { prices = a.prices; policy = a.policy } };

    ghost invariant = { λ a. IsGridSize a.prices };

    ghost inverse = { λ v. record { prices = v.prices; policy = v.policy } };
}

impl FiveScript {
    ghost use Rattle.beet_plan.specs.FivePlan.{five_batch};
    ghost use Rattle.beet_gates.specs.Ends.{TellsEnd};

    /// The script of the auction over a grid, or none if the grid has tree gates.
    pub fn new(grid: &Grid) -> Option<FiveScript>
        ensures refused { IsNone result ↔ (grid.now.gates ≡ Tree) }
        ensures value { IfSome result (λ script. script ≡ five_over grid.now) }
    {
        match grid.gates() {
            Gates::Chain => Some(FiveScript {
                prices: grid.prices(),
                policy: grid.policy(),
            }),
            Gates::Tree => None,
        }
    }

    /// The start of the script.
    fn start(&self) -> Walk
        ensures fits { Fits result }
        ensures plan { plan_at result ≡ five_plan self.now }
    {
        Walk::start(Dealers::Five, self.policy, self.prices)
    }

    /// How the script has ended after these opened numbers, or none if it has not ended.
    pub fn finish(&self, opened: &[Fe]) -> Option<Finish>
        ensures value { result ≡ plan_finish (five_plan self.now) opened.now }
        ensures ended { TellsEnd (five_batch self.now) opened.now result }
    {
        self.start().after_all(opened).finish()
    }
}

impl Script<5> for FiveScript {
    ghost use Rattle.std.specs.Prelude.{◌*◌};
    ghost use Rattle.beet_plan.specs.FivePlan.{five_batch, most_masks, most_rounds, most_secrets, most_wires};
    ghost use Rattle.beet_plan.proofs.FiveFacts.{five-law};
    ghost use Rattle.beet_walk.specs.Places.{IsAt};
    ghost use Rattle.beet_walk.proofs.PlaceFacts.{goes-on};

    type Place = Place<Walk>;

    ghost inputs_of = { λ s. 2 * s.prices };

    ghost rounds_of = { most_rounds };

    ghost masks_of = { most_masks };

    ghost secrets_of = { most_secrets };

    ghost wires_of = { most_wires };

    ghost batch_of = { five_batch };

    ghost is_at = { λ a. IsAt Fits plan_at (five_plan a) };

    ghost goes_on = { λ a. goes-on Fits plan_at (five_plan a) };

    ghost lawful = { five-law };

    fn inputs(&self) -> u32 {
        2 * self.prices
    }

    fn rounds(&self) -> u32 {
        Dealers::Five.most_rounds(self.prices)
    }

    fn masks(&self) -> u32 {
        most_masks(self.prices)
    }

    fn secrets(&self) -> u32 {
        most_coefficients(self.prices)
    }

    fn wires(&self) -> u32 {
        Dealers::Five.most_wires(self.prices)
    }

    fn next(&self, done: u32, opened: &[Fe]) -> Batch {
        self.start().batch(done, opened)
    }

    fn begin(&self) -> Place<Walk> {
        Place::begin(self.start())
    }

    fn refill(&self, done: u32, opened: &[Fe], place: &mut Place<Walk>, batch: &mut Batch) {
        place.refill(done, opened, batch);
    }
}
