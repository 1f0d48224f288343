//! A `World` for each lot.

ghost use Rattle.std.specs.Prelude.{◌≡◌, ◌<◌, ◌≤◌, All, IfOk, length, map, slice_get, Some, sum};
ghost use Rattle.beet_server.specs.Cores.{AreFresh};
ghost use Rattle.beet_world.specs.Worlds.{IsCoreOf, World as Seen};
ghost use Rattle.beet_lots.specs.LotWorlds.{HappensIn, PlaysIn, begun, lot_triples, undelivered_of};
ghost use Rattle.beet_lots.specs.declared.lots.TheConstants.{MOST_LOTS};

use beet_field::{Point, Trio};
use beet_gates::Script;
use beet_server::ServerCore;
use beet_world::{Delivery, Event, World};
use std::alloc::{AllocError, Global};
use std::marker::Model;

/// The most lots of a session.
pub const MOST_LOTS: u32 = 16;

/// The delivery of a message of a lot.
#[derive(Clone, Copy, PartialEq, Eq)]
pub struct LotDelivery {
    /// The lot, from 0.
    pub lot: u32,
    /// The message of this lot.
    pub delivery: Delivery,
}

/// A `World` of three servers for each lot, of 1 to 16 lots.
#[derive(Drop)]
pub struct LotWorld<S: Script<3>> {
    worlds: Vec<World<S>>,
}

impl<S: Script<3>> Model for LotWorld<S> {
    ghost use Rattle.std.specs.Prelude.{List, ◌≤◌, length as count};
    ghost use Rattle.beet_world.specs.Worlds.{World as Lot};
    ghost use Rattle.beet_lots.specs.declared.lots.TheConstants.{MOST_LOTS as most};

    ghost Value = { List (Lot S) };

    ghost view = { λ a. a.worlds.items };

    ghost invariant = { λ a. (1 ≤ count a.worlds.items) × (count a.worlds.items ≤ most) };
}

impl<S: Script<3>> LotWorld<S> {
    /// A `World` for each lot, of fresh servers, each of which has sent its messages of round 0. It takes the memory
    /// for all messages, and fails only if there is too little; no other call takes memory.
    pub fn of(alloc: Global, lots: Vec<Trio<ServerCore<S>>>) -> Result<LotWorld<S>, AllocError>
        requires some { 1 ≤ length lots.items }
        requires few { length lots.items ≤ MOST_LOTS }
        requires fresh { All (AreFresh S.batch_of S.inputs_of) lots.items }
        ensures { IfOk result (λ w. w ≡ map (begun S.rounds_of) lots.items) }
    {
        let mut worlds = Vec::with_capacity(alloc, lots.len())?;
        for cores in lots {
            worlds.push_reserved(World::of(alloc, cores)?);
        }
        Ok(LotWorld { worlds })
    }

    /// How many lots there are.
    pub fn lots(&self) -> u32
        ensures count { result ≡ length self.now }
        ensures few { result ≤ MOST_LOTS }
        ensures some { 1 ≤ result }
    {
        self.worlds.len() as u32
    }

    /// The core of a server of a lot, which is counted from 0.
    pub fn core(&self, lot: u32, at: Point) -> &ServerCore<S>
        requires { lot < length self.now }
        ensures { (w : Seen S) → slice_get self.now lot ≡ Some w →
            IsCoreOf S.batch_of S.inputs_of S.rounds_of w at result.now }
    {
        self.worlds[lot as usize].core(at)
    }

    /// Delivers the message of one server to another in a round of a lot, which is counted from 0, as `World::event`
    /// does in the `World` of that lot. Every other lot stays as it is.
    pub fn event(&mut self, lot: u32, from: Point, to: Point, round: u32) -> Event
        requires { lot < length self.old }
        ensures { HappensIn S.batch_of S.inputs_of S.rounds_of self.old self.new lot
            (record { from = from; to = to; round = round }) result }
    {
        self.worlds[lot as usize].event(from, to, round)
    }

    /// Delivers messages of the lots, one after another. One that is not sent when its turn comes is passed over.
    pub fn play(&mut self, schedule: &[LotDelivery])
        requires { All (λ delivery. delivery.lot < length self.old) schedule.now }
        ensures { PlaysIn S.batch_of S.inputs_of S.rounds_of self.old self.new (lot_triples schedule.now) }
    {
        for delivery in schedule {
            let Delivery { from, to, round } = delivery.delivery;
            self.event(delivery.lot, from, to, round);
        }
    }

    /// How many messages of all lots were sent that no event has delivered.
    pub fn undelivered(&self) -> u32
        ensures { result ≡ sum (map (undelivered_of S.batch_of S.inputs_of S.rounds_of) self.now) }
    {
        let mut missing = 0;
        for world in &self.worlds {
            missing += world.undelivered();
        }
        missing
    }
}
