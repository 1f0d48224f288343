//! A place in the auction's script.

ghost use Rattle.std.specs.Prelude.{◌≡◌, ◌↔◌, ◌<◌, ◌≤◌, ◌+◌, ◌-◌, ◌*◌, ◌/◌, ◌^◌, IsTrue, MatchOption, []};
ghost use Rattle.beet_gates.specs.Plans.{plan_length, plan_after, plan_batch, plan_finish, batch_at};
ghost use Rattle.beet_plan.specs.Auction.{IsGridSize, search_plan, end_plan, after_answer, plan_with, with_mask};
ghost use Rattle.beet_plan.specs.declared.Finish.TheVariants.{MasksSpent};
ghost use Rattle.beet_masking.specs.Accepting.{after_product};
ghost use Rattle.beet_search.specs.Walk.{plan_at, blocks_among, comparison_at, busy, widest, Fits};

use crate::blocks::Dealers;
use beet_bids::{Policy, comparisons};
use beet_compare::CompareWires;
use beet_field::Fe;
use beet_gates::Batch;
use beet_masking::SPARE_MASKS;
use beet_plan::Finish;
use beet_walk::{PlanWalk, both_opened};

/// What comes next.
#[derive(Clone, Copy)]
pub enum Stage {
    /// A mask, or the opening, or nothing more.
    Search,
    /// The masked difference.
    Masked,
    /// The rest of a comparison.
    Borrow(Fe),
    /// The second number of the opening, the supply; its first was this volume.
    Supply(Fe),
    /// Nothing: the script has ended so.
    Ended(Finish),
}

/// The search so far.
#[derive(Clone, Copy)]
pub struct Walk {
    pub stage: Stage,
    pub dealers: Dealers,
    pub policy: Policy,
    pub prices: u32,
    pub lo: u32,
    pub hi: u32,
    /// The first free wire, or that of the mask that is in use.
    pub first: u32,
    /// How many comparisons may still be made.
    pub left: u32,
    /// How many masks may still be rejected.
    pub spare: u32,
}

impl Walk {
    /// The start of a search among so many prices.
    pub fn start(dealers: Dealers, policy: Policy, prices: u32) -> Walk
        requires { IsGridSize prices }
        ensures fits { Fits result }
        ensures plan { plan_at result ≡ plan_with (blocks_among dealers) policy prices }
    {
        Walk {
            stage: Stage::Search,
            dealers,
            policy,
            prices,
            lo: 0,
            hi: prices,
            first: 2 * prices,
            left: comparisons(prices),
            spare: SPARE_MASKS,
        }
    }

    /// Whether a mask comes next, if the search goes on.
    fn is_open(&self) -> bool
        ensures { IsTrue result ↔ ((0 < self.now.left) × (self.now.lo < self.now.hi)) }
    {
        self.left > 0 && self.lo < self.hi
    }

    /// A price at the place at which the search has ended, of which these numbers were opened.
    fn price_with(&self, volume: Option<Fe>, supply: Option<Fe>) -> Finish
        ensures { result ≡ Finish.Price self.now.lo volume supply }
    {
        Finish::Price {
            place: self.lo,
            volume,
            supply,
        }
    }

    /// What is shown of the place at which the search has ended, or none if that is no place of the grid.
    fn shown(&self) -> Option<Policy>
        ensures { MatchOption result (self.now.prices ≤ self.now.lo)
            (λ policy. (self.now.lo < self.now.prices) × (policy ≡ self.now.policy)) }
    {
        if self.lo < self.prices {
            Some(self.policy)
        } else {
            None
        }
    }

    /// How many batches come at the end of the search.
    fn end_length(&self) -> u32
        ensures { result ≡ plan_length (end_plan self.now.policy self.now.prices self.now.lo) }
    {
        match self.shown() {
            None | Some(Policy::Price) => 0,
            Some(Policy::Volume | Policy::Full) => 1,
        }
    }

    /// Makes a batch that of the end of the search at this step.
    fn refill_end(&self, step: u32, batch: &mut Batch)
        requires { Fits self.now }
        ensures { batch.new
            ≡ plan_batch (end_plan self.now.policy self.now.prices self.now.lo) step [] }
    {
        if step > 0 {
            batch.set_end();
            return;
        }
        let (demand, supply) = (self.prices + self.lo, self.lo);
        match self.shown() {
            None => batch.set_end(),
            Some(Policy::Price) => batch.set_end(),
            Some(Policy::Volume) => {
                batch.lets.clear();
                batch.set_opening(demand);
            }
            Some(Policy::Full) => {
                batch.lets.clear();
                batch.act = both_opened(demand, supply);
            }
        }
    }

    /// The stage after a number that comes at the end of the search: the demand there, if it is opened.
    fn after_end(&self, number: Fe) -> Stage
        ensures { plan_at (record self.now { stage = result })
            ≡ plan_after (end_plan self.now.policy self.now.prices self.now.lo) number }
    {
        match self.shown() {
            None => Stage::Ended(Finish::NoPrice),
            Some(Policy::Price) => Stage::Ended(self.price_with(None, None)),
            Some(Policy::Volume) => Stage::Ended(self.price_with(Some(number), None)),
            Some(Policy::Full) => Stage::Supply(number),
        }
    }

    /// How the script has ended at the end of the search, or none if something is still opened.
    fn finish_end(&self) -> Option<Finish>
        ensures { result ≡ plan_finish (end_plan self.now.policy self.now.prices self.now.lo) [] }
    {
        match self.shown() {
            None => Some(Finish::NoPrice),
            Some(Policy::Price) => Some(self.price_with(None, None)),
            Some(Policy::Volume) => None,
            Some(Policy::Full) => None,
        }
    }

    /// Makes a batch that of the comparison at the middle place at this step, with the mask that is in use.
    fn refill_comparison(&self, step: u32, c: Fe, batch: &mut Batch)
        requires fits { Fits self.now }
        requires busy { busy self.now.stage ≡ 1 }
        ensures { batch.new ≡ batch_at (comparison_at self.now c) step }
    {
        let mid = (self.lo + self.hi) / 2;
        let (supply, demand) = (mid, self.prices + mid);
        let wires = CompareWires {
            first: self.first + self.dealers.mask_wires(),
            mask: self.first,
            supply,
            demand,
        };
        self.dealers.refill_compare(step, wires, c, batch);
    }

    /// The place after the product of a mask.
    fn after_product(self, product: Fe) -> Walk
        requires fits { Fits self }
        requires open { (0 < self.left) × (self.lo < self.hi) }
        requires search { self.stage ≡ Stage.Search }
        ensures fits { Fits result }
        ensures plan { plan_at result ≡ after_product (blocks_among self.dealers) MasksSpent self.spare self.first
            (with_mask (blocks_among self.dealers) self.prices
            (search_plan (blocks_among self.dealers) self.policy self.prices (self.left - 1)) self.lo self.hi) product }
    {
        let mut walk = self;
        if product.value() != 1 {
            walk.stage = Stage::Masked;
            walk.left = self.left - 1;
        } else if self.spare == 0 {
            walk.stage = Stage::Ended(Finish::MasksSpent);
        } else {
            walk.first = self.first + self.dealers.mask_wires();
            walk.spare = self.spare - 1;
        }
        walk
    }

    /// The place after an answer.
    fn after_answer(self, answer: Fe) -> Walk
        requires fits { Fits self }
        requires busy { (self.lo < self.hi)
            × (self.first + widest * (self.left + 1 + self.spare) < 2 ^ 32) }
        ensures fits { Fits result }
        ensures plan { plan_at result ≡ after_answer (blocks_among self.dealers)
            (search_plan (blocks_among self.dealers) self.policy self.prices self.left)
            self.lo self.hi self.spare self.first answer }
    {
        let mid = (self.lo + self.hi) / 2;
        let mut walk = self;
        walk.stage = Stage::Search;
        walk.first = self.first + self.dealers.mask_wires() + self.dealers.compare_wires();
        if answer.value() == 1 {
            walk.hi = mid;
        } else {
            walk.lo = mid + 1;
        }
        walk
    }

    /// How the script has ended here, or none if a block comes next.
    pub fn finish(&self) -> Option<Finish>
        ensures { result ≡ plan_finish (plan_at self.now) [] }
    {
        match self.stage {
            Stage::Search => {
                if self.is_open() {
                    None
                } else {
                    self.finish_end()
                }
            }
            Stage::Masked | Stage::Borrow(_) | Stage::Supply(_) => None,
            Stage::Ended(finish) => Some(finish),
        }
    }
}

impl PlanWalk for Walk {
    type Finish = Finish;

    ghost plan_of = { plan_at };

    ghost fits = { Fits };

    fn length(&self) -> u32 {
        match self.stage {
            Stage::Search => {
                if self.is_open() {
                    self.dealers.mask_rounds()
                } else {
                    self.end_length()
                }
            }
            Stage::Masked | Stage::Supply(_) => 1,
            Stage::Borrow(_) => self.dealers.compare_rounds() - 1,
            Stage::Ended(_) => 0,
        }
    }

    fn refill(&self, step: u32, batch: &mut Batch) {
        match self.stage {
            Stage::Search => {
                if self.is_open() {
                    self.dealers.refill_mask(step, self.first, batch);
                } else {
                    self.refill_end(step, batch);
                }
            }
            Stage::Masked => {
                if step == 0 {
                    self.refill_comparison(0, Fe::reduce(0), batch);
                } else {
                    batch.set_end();
                }
            }
            Stage::Borrow(c) => {
                if step < self.dealers.compare_rounds() - 1 {
                    self.refill_comparison(step + 1, c, batch);
                } else {
                    batch.set_end();
                }
            }
            Stage::Supply(_) | Stage::Ended(_) => batch.set_end(),
        }
    }

    fn after(self, number: Fe) -> Walk {
        match &self.stage {
            Stage::Search => {
                if self.is_open() {
                    self.after_product(number)
                } else {
                    Walk {
                        stage: self.after_end(number),
                        ..self
                    }
                }
            }
            Stage::Masked => Walk {
                stage: Stage::Borrow(number),
                ..self
            },
            Stage::Borrow(_) => self.after_answer(number),
            Stage::Supply(volume) => Walk {
                stage: Stage::Ended(self.price_with(Some(*volume), Some(number))),
                ..self
            },
            Stage::Ended(_) => self,
        }
    }
}
