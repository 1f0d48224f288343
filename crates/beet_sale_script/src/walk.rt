//! A place in a sale's script.

ghost use Rattle.std.specs.Prelude.{◌≡◌, ◌≤◌, ◌<◌, ◌+◌, ◌-◌, ◌^◌, ◌==◌, [], ◌∷◌, length, if◌then◌else◌, None, Some};
ghost use Rattle.beet_field.specs.Field.{p};
ghost use Rattle.beet_gates.specs.Batches.{reveal_batch};
ghost use Rattle.beet_gates.specs.Linears.{three_terms};
ghost use Rattle.beet_gates.specs.Plans.{plan_length, plan_after, plan_batch, plan_finish, batch_at};
ghost use Rattle.beet_masking.specs.Blocks.{blocks_of};
ghost use Rattle.beet_sale_plan.specs.Sale.{difference_let, sum_let, rest_let, less_let, best_wire, best_lets};
ghost use Rattle.beet_sale_plan.specs.Selections.{result_wire};
ghost use Rattle.beet_sale_plan.specs.declared.TheConstants.{MOST_SALE_BIDDERS};
ghost use Rattle.beet_sale_script.specs.Walk.{plan_at, stage_plan, tail_batches, tail_end, busy, selections_left, Fits};
ghost use Rattle.beet_sale_script.specs.Walk.{after_product, IsSmallStage};

use beet_compare::{CompareWires, compare_rounds, compare_wires, refill_compare};
use beet_field::{Fe, MINUS_ONE};
use beet_gates::{Batch, Gates, Linear};
use beet_mask::{mask_rounds, mask_wires, refill_mask};
use beet_masking::MASK_WORDS;
use beet_sale_plan::{SaleEnd, put_before, set_products};
use beet_walk::{PlanWalk, both_opened};

/// What comes next.
#[derive(Clone, Copy)]
pub enum Stage {
    /// The first selection of a bid, from a mask on, or the opening if no bid is left.
    First,
    /// Its masked difference.
    FirstMasked,
    /// The second selection of a bid, from a mask on.
    Second,
    /// Its masked difference.
    SecondMasked,
    /// The second number of the opening, the price; its first was this winner.
    Price(Fe),
    /// Nothing: these were the winner and the price.
    Sold(Fe, Fe),
    /// Nothing: the masks are spent.
    Spent,
}

/// The rest of a selection, which opens nothing.
#[derive(Clone, Copy)]
pub enum Tail {
    /// Of a first selection: the first wire of its comparison, the first wire of its mask, and the masked difference.
    AfterFirst(u32, u32, Fe),
    /// Of a second selection: the first wire after its mask, the first wire of its mask, and the masked difference.
    AfterSecond(u32, u32, Fe),
}

/// The sale so far.
#[derive(Clone, Copy)]
pub struct Walk {
    pub stage: Stage,
    pub tail: Option<Tail>,
    pub gates: Gates,
    /// How many bids are left, with the one that is under way.
    pub left: u32,
    /// The wire of the next bid, or of the one that is under way.
    pub bid: u32,
    /// How many masks may still be rejected.
    pub spare: u32,
    /// The first free wire, or that of the mask that is in use.
    pub first: u32,
    /// The wire of the greatest bid so far, or none while the let of the first bid is still to be made.
    pub best: Option<u32>,
    /// The first product of the first selection of the bid that is under way.
    pub product: u32,
    /// The let of the bidder of the greatest bid so far.
    pub who: Linear,
    /// The let of the second greatest bid so far.
    pub next: Linear,
}

/// A let of three wires, each after its factor.
pub(crate) fn sum(constant: u128, x: (u128, u32), y: (u128, u32), z: (u128, u32)) -> Linear
    requires constant { constant < p }
    requires x { x.0 < p }
    requires y { y.0 < p }
    requires z { z.0 < p }
    ensures { result ≡ three_terms constant x y z }
{
    Linear {
        constant: Fe::reduce(constant),
        terms: [
            (Fe::reduce(x.0), x.1),
            (Fe::reduce(y.0), y.1),
            (Fe::reduce(z.0), z.1),
        ],
    }
}

/// The difference of two wires.
fn difference(x: u32, y: u32) -> Linear
    ensures { result ≡ difference_let x y }
{
    sum(0, (1, x), (MINUS_ONE, y), (0, 0))
}

/// The sum of two wires.
fn total(x: u32, y: u32) -> Linear
    ensures { result ≡ sum_let x y }
{
    sum(0, (1, x), (1, y), (0, 0))
}

/// The sum of two wires less a third.
fn remainder(x: u32, y: u32, z: u32) -> Linear
    ensures { result ≡ rest_let x y z }
{
    sum(0, (1, x), (1, y), (MINUS_ONE, z))
}

/// A wire less a number.
fn less(wire: u32, n: u32) -> Linear
    requires { 1 ≤ n }
    ensures { result ≡ less_let wire n }
{
    sum(MINUS_ONE - (n - 1) as u128, (1, wire), (0, 0), (0, 0))
}

impl Walk {
    /// The wire of the result of a comparison that begins at a wire.
    fn result_wire(&self, first: u32) -> u32
        requires { first + 1000 < 2 ^ 32 }
        ensures { result ≡ result_wire (blocks_of self.now.gates) first }
    {
        first + compare_wires(self.gates) - 1
    }

    /// The wire of the greatest bid so far in a first selection, if this is the first free wire.
    fn best_wire(&self, free: u32) -> u32
        ensures { result ≡ best_wire self.now.best free }
    {
        match self.best {
            None => free,
            Some(wire) => wire,
        }
    }

    /// The first wire of the comparison of a first selection, if this is the first free wire: it comes after the let
    /// of the first bid, if that is still to be made.
    fn compared_from(&self, free: u32) -> u32
        requires { free + 1 < 2 ^ 32 }
        ensures wire { result ≡ free + length (best_lets self.now.best) }
        ensures few { result ≤ free + 1 }
    {
        match self.best {
            None => free + 1,
            Some(_) => free,
        }
    }

    /// How many batches the rest of a selection has that come before.
    fn tail_length(&self) -> u32
        ensures length { result ≡ length (tail_batches self.now.tail self.now) }
        ensures few { result < 100 }
    {
        match self.tail {
            None => 0,
            Some(_) => compare_rounds(self.gates) - 1,
        }
    }

    /// How many batches the stage has, after the rest of a selection that comes before.
    fn stage_length(&self) -> u32
        ensures length { plan_length (plan_at self.now) ≡ length (tail_batches self.now.tail self.now) + result }
        ensures few { result < 100 }
    {
        match &self.stage {
            Stage::First => {
                if self.left > 0 {
                    mask_rounds(self.gates, MASK_WORDS)
                } else {
                    1
                }
            }
            Stage::FirstMasked => 1,
            Stage::Second => mask_rounds(self.gates, MASK_WORDS),
            Stage::SecondMasked => 1,
            Stage::Price(_) => 1,
            Stage::Sold(_, _) => 0,
            Stage::Spent => 0,
        }
    }

    /// Makes a batch that of the rest of a first selection at this step.
    fn refill_after_first(&self, from: u32, mask: u32, c: Fe, step: u32, batch: &mut Batch)
        requires from { from + 1100 + mask < 2 ^ 32 }
        requires bid { self.now.bid ≤ MOST_SALE_BIDDERS }
        requires step { step + 1 < (blocks_of self.now.gates).compare_rounds }
        ensures { batch.new ≡ batch_at (tail_batches (Some (Tail.AfterFirst from mask c)) self.now) step }
    {
        refill_compare(
            self.gates,
            step + 1,
            CompareWires {
                first: from,
                mask,
                supply: 0,
                demand: 0,
            },
            c,
            batch,
        );
        if step + 2 == compare_rounds(self.gates) {
            let o = self.result_wire(from);
            let best = self.best_wire(0);
            let bid = self.bid;
            set_products(
                batch,
                &[self.who, difference(best, bid), less(o + 1, bid + 1)],
                &[(o, o + 2), (o, o + 3)],
            );
        }
    }

    /// Makes a batch that of the rest of a second selection at this step.
    fn refill_after_second(&self, free: u32, mask: u32, c: Fe, step: u32, batch: &mut Batch)
        requires free { free + 1100 + mask < 2 ^ 32 }
        requires step { step + 1 < (blocks_of self.now.gates).compare_rounds }
        ensures { batch.new ≡ batch_at (tail_batches (Some (Tail.AfterSecond free mask c)) self.now) step }
    {
        refill_compare(
            self.gates,
            step + 1,
            CompareWires {
                first: free + 3,
                mask,
                supply: 0,
                demand: 0,
            },
            c,
            batch,
        );
        if step + 2 == compare_rounds(self.gates) {
            let o = self.result_wire(free + 3);
            set_products(batch, &[difference(free, free + 2)], &[(o, o + 1)]);
        }
    }

    /// Makes a batch the masked difference of a first selection.
    fn refill_first(&self, batch: &mut Batch)
        requires fits { Fits self.now }
        requires stage { self.now.stage ≡ Stage.FirstMasked }
        ensures { batch.new ≡ plan_batch (stage_plan Stage.FirstMasked self.now) 0 [] }
    {
        let free = self.first + mask_wires(MASK_WORDS);
        let from = self.compared_from(free);
        let left = self.best_wire(free);
        let right = self.bid;
        refill_compare(
            self.gates,
            0,
            CompareWires {
                first: from,
                mask: self.first,
                supply: left,
                demand: right,
            },
            Fe::reduce(0),
            batch,
        );
        match self.best {
            None => put_before(batch, &[sum(0, (1, 0), (0, 0), (0, 0))]),
            Some(_) => {}
        }
    }

    /// Makes a batch the masked difference of a second selection.
    fn refill_second(&self, batch: &mut Batch)
        requires fits { Fits self.now }
        requires stage { self.now.stage ≡ Stage.SecondMasked }
        ensures { batch.new ≡ plan_batch (stage_plan Stage.SecondMasked self.now) 0 [] }
    {
        let free = self.first + mask_wires(MASK_WORDS);
        let (left, right) = (free, free + 2);
        refill_compare(
            self.gates,
            0,
            CompareWires {
                first: free + 3,
                mask: self.first,
                supply: left,
                demand: right,
            },
            Fe::reduce(0),
            batch,
        );
        let best = self.best_wire(0);
        put_before(
            batch,
            &[
                self.next,
                total(self.bid, self.product),
                remainder(best, self.bid, free + 1),
            ],
        );
    }

    /// Makes a batch the opening of the winner and the price.
    fn refill_opening(&self, batch: &mut Batch)
        requires { Fits self.now }
        ensures { batch.new ≡ reveal_batch (self.now.who ∷ self.now.next ∷ [])
            (self.now.first ∷ (self.now.first + 1) ∷ []) }
    {
        let (who, next) = (self.who, self.next);
        batch.lets.clear();
        batch.add_let(who.constant, who.terms);
        batch.add_let(next.constant, next.terms);
        batch.act = both_opened(self.first, self.first + 1);
    }

    /// Makes a batch that of the stage at this step.
    fn refill_stage(&self, step: u32, batch: &mut Batch)
        requires { Fits self.now }
        ensures { batch.new ≡ plan_batch (stage_plan self.now.stage self.now) step [] }
    {
        match &self.stage {
            Stage::First => {
                if self.left > 0 {
                    refill_mask(self.gates, MASK_WORDS, step, self.first, batch);
                } else if step == 0 {
                    self.refill_opening(batch);
                } else {
                    batch.set_end();
                }
            }
            Stage::FirstMasked => {
                if step == 0 {
                    self.refill_first(batch);
                } else {
                    batch.set_end();
                }
            }
            Stage::Second => refill_mask(self.gates, MASK_WORDS, step, self.first, batch),
            Stage::SecondMasked => {
                if step == 0 {
                    self.refill_second(batch);
                } else {
                    batch.set_end();
                }
            }
            Stage::Price(_) => batch.set_end(),
            Stage::Sold(_, _) => batch.set_end(),
            Stage::Spent => batch.set_end(),
        }
    }

    /// Makes a batch that of the rest of a selection at this step.
    fn refill_rest(&self, tail: &Tail, step: u32, batch: &mut Batch)
        requires wires { tail_end (Some tail.now) < 2 ^ 32 }
        requires bid { self.now.bid ≤ MOST_SALE_BIDDERS }
        requires step { step + 1 < (blocks_of self.now.gates).compare_rounds }
        ensures { batch.new ≡ batch_at (tail_batches (Some tail.now) self.now) step }
    {
        match tail {
            Tail::AfterFirst(from, mask, c) => {
                self.refill_after_first(*from, *mask, *c, step, batch);
            }
            Tail::AfterSecond(free, mask, c) => {
                self.refill_after_second(*free, *mask, *c, step, batch);
            }
        }
    }

    /// The place after the product of a mask's bits, where the masked difference comes next if the mask is accepted.
    fn after_product(self, product: Fe, masked: Stage) -> Walk
        requires fits { Fits self }
        requires open { 1 ≤ self.left }
        requires busy { busy masked ≤ 1 }
        requires masked { selections_left masked self.left ≡ selections_left self.stage self.left }
        ensures fits { Fits result }
        ensures after { result ≡ after_product self product masked }
    {
        let mut walk = self;
        walk.tail = None;
        if product.value() != 1 {
            walk.stage = masked;
        } else if self.spare == 0 {
            walk.stage = Stage::Spent;
        } else {
            walk.first = self.first + mask_wires(MASK_WORDS);
            walk.spare = self.spare - 1;
        }
        walk
    }

    /// The place after the masked difference of a first selection.
    fn after_first(self, c: Fe) -> Walk
        requires fits { Fits self }
        requires stage { self.stage ≡ Stage.FirstMasked }
        ensures fits { Fits result }
        ensures plan { plan_at result ≡ plan_after (plan_at self) c }
    {
        let free = self.first + mask_wires(MASK_WORDS);
        let from = self.compared_from(free);
        let product = self.result_wire(from) + 4;
        Walk {
            stage: Stage::Second,
            tail: Some(Tail::AfterFirst(from, self.first, c)),
            best: Some(self.best_wire(free)),
            product,
            first: product + 2,
            ..self
        }
    }

    /// The place after the masked difference of a second selection.
    fn after_second(self, c: Fe) -> Walk
        requires fits { Fits self }
        requires stage { self.stage ≡ Stage.SecondMasked }
        ensures fits { Fits result }
        ensures plan { plan_at result ≡ plan_after (plan_at self) c }
    {
        let free = self.first + mask_wires(MASK_WORDS);
        let product = self.result_wire(free + 3) + 2;
        let bidder = self.bid + 1;
        Walk {
            stage: Stage::First,
            tail: Some(Tail::AfterSecond(free, self.first, c)),
            left: self.left - 1,
            bid: self.bid + 1,
            first: product + 1,
            best: Some(free + 1),
            who: sum(bidder as u128, (1, self.product + 1), (0, 0), (0, 0)),
            next: total(free + 2, product),
            ..self
        }
    }

    /// How the script has ended here, or none if a block comes next.
    pub fn finish(&self) -> Option<SaleEnd>
        requires { IsSmallStage self.now.stage }
        ensures { result ≡ plan_finish (plan_at self.now) [] }
    {
        match &self.stage {
            Stage::First => None,
            Stage::FirstMasked => None,
            Stage::Second => None,
            Stage::SecondMasked => None,
            Stage::Price(_) => None,
            Stage::Sold(winner, price) => Some(SaleEnd::Sold {
                winner: winner.value() as u32,
                price: price.value(),
            }),
            Stage::Spent => Some(SaleEnd::MasksSpent),
        }
    }
}

impl PlanWalk for Walk {
    type Finish = SaleEnd;

    ghost plan_of = { plan_at };

    ghost fits = { Fits };

    fn length(&self) -> u32 {
        self.tail_length() + self.stage_length()
    }

    fn refill(&self, step: u32, batch: &mut Batch) {
        let before = self.tail_length();
        if step >= before {
            self.refill_stage(step - before, batch);
            return;
        }
        match &self.tail {
            None => unreachable!(),
            Some(tail) => self.refill_rest(tail, step, batch),
        }
    }

    fn after(self, number: Fe) -> Walk {
        match &self.stage {
            Stage::First => {
                if self.left > 0 {
                    self.after_product(number, Stage::FirstMasked)
                } else {
                    Walk {
                        tail: None,
                        stage: Stage::Price(number),
                        ..self
                    }
                }
            }
            Stage::FirstMasked => self.after_first(number),
            Stage::Second => self.after_product(number, Stage::SecondMasked),
            Stage::SecondMasked => self.after_second(number),
            Stage::Price(winner) => Walk {
                tail: None,
                stage: Stage::Sold(*winner, number),
                ..self
            },
            Stage::Sold(_, _) => Walk { tail: None, ..self },
            Stage::Spent => Walk { tail: None, ..self },
        }
    }
}
