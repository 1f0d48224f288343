//! A script that is walked: what is left of its plan is a small value, which the opened numbers lead on, and a run
//! keeps a place on that walk.
#![tactic(auto)]

ghost use Rattle.std.specs.Prelude.{◌≡◌, ◌∷◌, []};
ghost use Rattle.beet_gates.specs.Plans.{Plan, plan_batch};
ghost use Rattle.beet_gates.specs.declared.Act.TheVariants.{Reveal};
ghost use Rattle.beet_walk.specs.Places.{IsAt};

use arrayvec::ArrayVec;
use beet_field::Fe;
use beet_gates::{Act, Batch};

/// What is left of a plan.
pub trait PlanWalk: Copy {
    ghost use Rattle.beet_gates.specs.Plans.{plan_length, plan_after, plan_finish};

    /// How the plan ends.
    type Finish;

    /// The plan that is left.
    ghost plan_of: { Self → Plan Self.Finish };

    /// The walk stays within the bounds of its script.
    ghost fits: { Self → Type 0 };

    /// How many batches come before the next number.
    fn length(&self) -> u32
        requires { fits self.now }
        ensures { result ≡ plan_length (plan_of self.now) };

    /// Makes a batch that at this step, if no number is opened before.
    fn refill(&self, step: u32, batch: &mut Batch)
        requires { fits self.now }
        ensures { batch.new ≡ plan_batch (plan_of self.now) step [] };

    /// What is left after the number that comes next.
    fn after(self, number: Fe) -> Self
        requires { fits self }
        ensures fits { fits result }
        ensures plan { plan_of result ≡ plan_after (plan_of self) number };

    /// What is left after all these numbers.
    final fn after_all(self, opened: &[Fe]) -> Self
        requires { fits self }
        ensures fits { fits result }
        ensures finish { plan_finish (plan_of result) [] ≡ plan_finish (plan_of self) opened.now }
    {
        let mut walk = self;
        for number in opened {
            walk = walk.after(*number);
        }
        walk
    }

    /// The batch that comes after `done` batches, if these numbers are opened.
    final fn batch(self, done: u32, opened: &[Fe]) -> Batch
        requires { fits self }
        ensures { result ≡ plan_batch (plan_of self) done opened.now }
    {
        let mut place = Place::begin(self);
        let mut batch = Batch::end();
        place.refill(done, opened, &mut batch);
        batch
    }
}

/// How far a run has come on a walk.
#[derive(Clone, Copy)]
pub struct Place<W> {
    walk: W,
    /// How many batches come before those of the walk.
    before: u32,
    /// How many opened numbers led there.
    read: usize,
}

impl<W: PlanWalk> Place<W> {
    /// The place of a run that has done no batch.
    pub fn begin(walk: W) -> Place<W>
        requires { W.fits walk }
        ensures { IsAt W.fits W.plan_of (W.plan_of walk) 0 [] result }
    {
        Place {
            walk,
            before: 0,
            read: 0,
        }
    }

    /// Goes on from the place, and makes in `batch` the batch that comes after `done` batches, if these numbers were
    /// opened so far. It reads only the numbers that were opened since.
    pub fn refill(&mut self, done: u32, opened: &[Fe], batch: &mut Batch)
        requires { (whole : Plan W.Finish) × IsAt W.fits W.plan_of whole done opened.now self.old }
        ensures batch { (whole : Plan W.Finish) → IsAt W.fits W.plan_of whole done opened.now self.old →
            batch.new ≡ plan_batch whole done opened.now }
        ensures place { (whole : Plan W.Finish) → IsAt W.fits W.plan_of whole done opened.now self.old →
            IsAt W.fits W.plan_of whole done opened.now self.new }
    {
        while self.read < opened.len() {
            let length = self.walk.length();
            let step = done - self.before;
            if step < length {
                self.walk.refill(step, batch);
                return;
            }
            self.before += length;
            self.walk = self.walk.after(opened[self.read]);
            self.read += 1;
        }
        self.walk.refill(done - self.before, batch);
    }
}

/// The act that opens two wires.
pub fn both_opened(first: u32, second: u32) -> Act
    ensures { result ≡ Reveal (record { items = first ∷ second ∷ [] }) }
{
    let mut shown = ArrayVec::new();
    shown.push(first);
    shown.push(second);
    Act::Reveal(shown)
}
