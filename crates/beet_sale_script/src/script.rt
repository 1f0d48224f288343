//! The script as a value.

ghost use Rattle.std.specs.Prelude.{◌≡◌, ◌↔◌, ◌≤◌, IsSome, IfSome};
ghost use Rattle.beet_gates.specs.Plans.{plan_finish};
ghost use Rattle.beet_sale_plan.specs.Sale.{IsSaleSize, bidders_of, sale_of, sale_plan};
ghost use Rattle.beet_sale_plan.specs.SaleRuns.{AreOpened};
ghost use Rattle.beet_sale_plan.specs.declared.TheConstants.{MOST_SALE_BIDDERS};
ghost use Rattle.beet_sale_script.specs.Walk.{plan_at, Fits};

use crate::walk::{Stage, Walk, sum};
use beet_compare::compare_rounds;
use beet_field::Fe;
use beet_gates::{Batch, Gates, Script};
use beet_mask::mask_rounds;
use beet_masking::{MASK_WORDS, SPARE_MASKS};
use beet_sale_plan::{
    BIDDER_WIRES, FEWEST_SALE_BIDDERS, MOST_SALE_BIDDERS, SELECTION_WIRES, SaleEnd,
    most_coefficients, most_masks,
};
use beet_walk::{Place, PlanWalk};
use std::marker::Model;

/// The script of a sealed sale with this kind of gates. Input k is the bid of bidder k + 1.
#[derive(Clone, Copy, PartialEq, Eq, Debug)]
pub struct SaleScript {
    /// How many bidders there are beside the first.
    further: u32,
    gates: Gates,
}

impl Model for SaleScript {
    ghost use Rattle.std.specs.Prelude.{◌+◌};
    ghost use Rattle.beet_sale_plan.specs.Sale.{Sale, IsSaleSize};

    ghost Value = { Sale };

    ghost view = { λ a. record { further = a.further; gates = a.gates } };

    ghost invariant = { λ a. IsSaleSize (a.further + 1) };

    ghost inverse = { λ v. record { further = v.further; gates = v.gates } };
}

impl SaleScript {
    ghost use Rattle.beet_sale_plan.specs.Sale.{sale_batch};
    ghost use Rattle.beet_gates.specs.Ends.{TellsEnd};

    /// The script of a sale of so many bidders, or none if their number is outside 2 to 16.
    pub fn new(bidders: u32, gates: Gates) -> Option<SaleScript>
        ensures accepted { IsSome result ↔ IsSaleSize bidders }
        ensures value { IfSome result (λ script. script ≡ sale_of bidders gates) }
    {
        if bidders >= FEWEST_SALE_BIDDERS && bidders <= MOST_SALE_BIDDERS {
            Some(SaleScript {
                further: bidders - 1,
                gates,
            })
        } else {
            None
        }
    }

    /// The number of bidders.
    pub fn bidders(&self) -> u32
        ensures number { result ≡ bidders_of self.now }
        ensures size { IsSaleSize (bidders_of self.now) }
    {
        self.further + 1
    }

    /// The start of the script.
    fn start(&self) -> Walk
        ensures fits { Fits result }
        ensures plan { plan_at result ≡ sale_plan self.now }
        ensures few { bidders_of self.now ≤ MOST_SALE_BIDDERS }
    {
        Walk {
            stage: Stage::First,
            tail: None,
            gates: self.gates,
            left: self.further,
            bid: 1,
            spare: SPARE_MASKS,
            first: self.further + 1,
            best: None,
            product: 0,
            who: sum(1, (0, 0), (0, 0), (0, 0)),
            next: sum(0, (0, 0), (0, 0), (0, 0)),
        }
    }

    /// How the script has ended after these opened numbers, or none if it has not ended. They must be the first
    /// numbers, however many, that a run opens on bids of at most [`LARGEST_BID`](beet_sale_plan::LARGEST_BID).
    pub fn finish(&self, opened: &[Fe]) -> Option<SaleEnd>
        requires { AreOpened self.now opened.now }
        ensures value { result ≡ plan_finish (sale_plan self.now) opened.now }
        ensures ended { TellsEnd (sale_batch self.now) opened.now result }
    {
        self.start().after_all(opened).finish()
    }
}

impl Script<3> for SaleScript {
    ghost use Rattle.beet_sale_plan.specs.Sale.{bidders_of, sale_batch, most_rounds, most_masks, most_coefficients};
    ghost use Rattle.beet_sale_plan.specs.Sale.{most_wires};
    ghost use Rattle.beet_sale_plan.proofs.SaleStands.{sale-law};
    ghost use Rattle.beet_walk.specs.Places.{IsAt};
    ghost use Rattle.beet_walk.proofs.PlaceFacts.{goes-on};

    type Place = Place<Walk>;

    ghost inputs_of = { bidders_of };

    ghost rounds_of = { most_rounds };

    ghost masks_of = { most_masks };

    ghost secrets_of = { most_coefficients };

    ghost wires_of = { most_wires };

    ghost batch_of = { sale_batch };

    ghost is_at = { λ s. IsAt Fits plan_at (sale_plan s) };

    ghost goes_on = { λ s. goes-on Fits plan_at (sale_plan s) };

    ghost lawful = { sale-law };

    fn inputs(&self) -> u32 {
        self.bidders()
    }

    fn rounds(&self) -> u32 {
        let mask = mask_rounds(self.gates, MASK_WORDS);
        2 * self.further * (mask + compare_rounds(self.gates)) + SPARE_MASKS * mask + 1
    }

    fn masks(&self) -> u32 {
        most_masks(self.bidders())
    }

    fn secrets(&self) -> u32 {
        most_coefficients(self.bidders())
    }

    fn wires(&self) -> u32 {
        BIDDER_WIRES * self.bidders() + SELECTION_WIRES * self.masks()
    }

    fn next(&self, done: u32, opened: &[Fe]) -> Batch {
        self.start().batch(done, opened)
    }

    fn begin(&self) -> Place<Walk> {
        Place::begin(self.start())
    }

    fn refill(&self, done: u32, opened: &[Fe], place: &mut Place<Walk>, batch: &mut Batch) {
        place.refill(done, opened, batch);
    }
}
