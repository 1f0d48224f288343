//! Three servers, the messages that they have sent, and which of these were delivered.

ghost use Rattle.std.specs.Prelude.{◌≡◌, ◌≢◌, ◌↔◌, ◌<◌, ◌≤◌, ◌^◌, ◌*◌, ◌+◌, IfOk, IfSome, IsNone, Some, true, false};
ghost use Rattle.std.specs.Prelude.{List, [], ◌∷◌, ℕ, if◌then◌else◌, length, nat_lt, slice_get, vec_capacity};
ghost use Rattle.beet_field.specs.Trio.{member};
ghost use Rattle.beet_round.specs.Sides.{peer};
ghost use Rattle.beet_round.specs.declared.mailbox.Verdict.TheVariants.{Old, Repeat};
ghost use Rattle.beet_round.specs.declared.message.RoundMessage.{RoundMessage as Message};
ghost use Rattle.beet_round.specs.declared.sides.Side.{Side as SideOf};
ghost use Rattle.beet_server.specs.Cores.{AreFresh};
ghost use Rattle.beet_delivery.specs.Events.{Delivered, after_from, deliver, has, is_missing, passed, three};
ghost use Rattle.beet_delivery.specs.Events.{undelivered as undelivered_in};
ghost use Rattle.beet_delivery.specs.Networks.{of_round};
ghost use Rattle.beet_sharing.specs.Runs.{Setup};
ghost use Rattle.beet_world.specs.Happens.{HasHappened, HasTakenMessages, IsGiven, MayGive, MayTakeMessages, event_of};
ghost use Rattle.beet_world.specs.Happens.{of_side};
ghost use Rattle.beet_world.specs.Marks.{mark_at, unmarked};
ghost use Rattle.beet_world.specs.Missing.{one_if, to_side};
ghost use Rattle.beet_world.specs.Worlds.{IsCoreOf, delivered_in, named_in, rounds_in};
ghost use Rattle.beet_world.specs.declared.world.Event.TheVariants.{Delivered as DeliveredBy, NotSent};

use crate::giving::{give, hand_out};
use crate::schedule::Delivery;
use beet_field::{Point, Trio};
use beet_gates::Script;
use beet_round::{RoundMessage, Side, Verdict};
use beet_server::ServerCore;
use std::alloc::{AllocError, Global};
use std::marker::Model;
use std::snapshot::Snapshot;

/// What became of a message that was to be delivered.
#[derive(Clone, Copy, PartialEq, Eq)]
pub enum Event {
    /// The receiver got a copy, and this is its verdict.
    Delivered(Verdict),
    /// It was never sent.
    NotSent,
}

/// Three servers, the messages that each has sent, and a mark for each message that was delivered.
#[derive(Drop)]
pub struct World<S: Script<3>> {
    cores: Trio<ServerCore<S>>,
    sent: Trio<Vec<[RoundMessage; 2]>>,
    marks: Vec<bool>,
    start: Snapshot<Trio<ServerCore<S>>>,
}

impl<S: Script<3>> Model for World<S> {
    ghost use Rattle.beet_world.specs.Worlds.{World as Seen, HoldsWorld};

    ghost Value = { Seen S };

    ghost view = { λ w. record { start = w.start.value; marks = w.marks.items } };

    ghost invariant = { λ w. HoldsWorld S.batch_of S.inputs_of S.rounds_of
        (record { start = w.start.value; marks = w.marks.items }) w.cores w.sent };
}

/// The place of the mark of a message.
fn mark_place(from: Point, side: Side, round: usize) -> usize
    requires { 6 * round + 5 < 2 ^ 64 }
    ensures { result ≡ mark_at from side round }
{
    let side = match side {
        Side::Low => 0,
        Side::High => 1,
    };
    6 * round + (2 * (from.number() as usize - 1) + side)
}

/// The message to the peer of a side, from both messages of a round.
fn message_to(messages: &[RoundMessage; 2], side: Side) -> &RoundMessage
    ensures { (low high : Message) → messages.now ≡ low ∷ high ∷ []
        → result.now ≡ of_side side low high }
{
    let [low, high] = messages;
    match side {
        Side::Low => low,
        Side::High => high,
    }
}

/// A copy of the message of a server to its peer on a side in a round, or `None` if it was not
/// sent.
fn sent_message(
    sent: &Trio<Vec<[RoundMessage; 2]>>,
    from: Point,
    side: Side,
    round: u32,
) -> Option<RoundMessage>
    ensures none { IsNone result ↔ (length (member sent.now from).items ≤ round) }
    ensures message { IfSome result (λ m. (low high : Message)
        → slice_get (member sent.now from).items round ≡ Some (low ∷ high ∷ [])
        → m ≡ of_side side low high) }
{
    let messages = sent.get(from).get(round as usize)?;
    Some(message_to(messages, side).copy())
}

/// Gives a server a message, and takes what it then has to hand out.
fn give_to<S: Script<3>>(
    cores: &mut Trio<ServerCore<S>>,
    sent: &mut Trio<Vec<[RoundMessage; 2]>>,
    to: Point,
    message: &RoundMessage,
) -> Verdict
    requires { MayTakeMessages S.batch_of (S.rounds_of (member cores.old to).script)
        (member cores.old to) (member sent.old to) }
    ensures others { (s : Point) → s ≢ to → (member cores.new s ≡ member cores.old s)
        × (member sent.new s ≡ member sent.old s) }
    ensures took { HasTakenMessages S.batch_of (S.rounds_of (member cores.old to).script)
        (member cores.old to) (member cores.new to) (member sent.old to) (member sent.new to) }
    ensures given { (o : Setup) (x : Delivered) (rounds : ℕ) (s : SideOf) (t : ℕ)
        → MayGive S.batch_of o x rounds s t (member cores.old to) (member sent.old to).items
        message.now
        → IsGiven S.batch_of o x rounds s t (member cores.old to) (member cores.new to)
        (member sent.new to).items result }
{
    match to {
        Point::One => give(&mut cores.one, &mut sent.one, message),
        Point::Two => give(&mut cores.two, &mut sent.two, message),
        Point::Three => give(&mut cores.three, &mut sent.three, message),
    }
}

/// What a server that has passed so many rounds says of a message that it got before.
fn verdict_on_repeat(passed: u32, round: u32) -> Verdict
    ensures { result ≡ (if nat_lt round passed then Old else Repeat) }
{
    if round < passed {
        Verdict::Old
    } else {
        Verdict::Repeat
    }
}

/// Room for the messages of so many rounds of each server, and a mark for each message, none set.
fn room(alloc: Global, rounds: u32) -> Result<(Trio<Vec<[RoundMessage; 2]>>, Vec<bool>), AllocError>
    ensures none { IfOk result (λ room. (s : Point) → (member room.0 s).items ≡ []) }
    ensures capacity { IfOk result (λ room. (s : Point)
        → rounds ≤ vec_capacity (member room.0 s)) }
    ensures marks { IfOk result (λ room. room.1.items ≡ unmarked rounds) }
{
    let rounds = rounds as usize;
    let marks = vec![in alloc; false; 6 * rounds]?;
    let sent = Trio::try_of(|_| Vec::with_capacity(alloc, rounds))?;
    Ok((sent, marks))
}

impl<S: Script<3>> World<S> {
    /// A `World` of three fresh servers, of which each has sent its messages of round 0. It takes the
    /// memory for the messages of all rounds, and fails only if there is too little; no other
    /// call takes memory.
    pub fn of(alloc: Global, cores: Trio<ServerCore<S>>) -> Result<World<S>, AllocError>
        requires { AreFresh S.batch_of S.inputs_of cores }
        ensures { IfOk result (λ w. w ≡ record {
          start = cores;
          marks = unmarked (S.rounds_of cores.one.script);
        }) }
    {
        let start = Snapshot::of(&cores);
        let (mut sent, marks) = match room(alloc, cores.one.script().rounds()) {
            Ok(room) => room,
            Err(error) => {
                // One call lets them go: else the proof of this way out goes through each of their parts.
                drop(cores);
                return Err(error);
            }
        };
        let mut cores = cores;
        hand_out(&mut cores.one, &mut sent.one);
        hand_out(&mut cores.two, &mut sent.two);
        hand_out(&mut cores.three, &mut sent.three);
        Ok(World {
            cores,
            sent,
            marks,
            start,
        })
    }

    pub fn core(&self, at: Point) -> &ServerCore<S>
        ensures { IsCoreOf S.batch_of S.inputs_of S.rounds_of self.now at result.now }
    {
        self.cores.get(at)
    }

    /// The verdict of the receiver on a message that was delivered before, which changes nothing, or `None` if it
    /// was not.
    fn repeated(&self, from: Point, to: Point, side: Side, round: u32) -> Option<Verdict>
        requires side { to ≡ peer from side }
        ensures there { IfSome result (λ v.
            has (delivered_in self.now) (record { from = from; to = to; round = round }) ≡ true) }
        ensures event { IfSome result (λ v. DeliveredBy v
            ≡ event_of (rounds_in S.batch_of S.inputs_of S.rounds_of self.now)
            (delivered_in self.now) (record { from = from; to = to; round = round })) }
    {
        let delivered = *self.marks.get(mark_place(from, side, round as usize))?;
        if delivered {
            Some(verdict_on_repeat(self.cores.get(to).round(), round))
        } else {
            None
        }
    }

    /// Delivers the message of one server to another in a round, counted from 0. It may be delivered
    /// again. What the receiver then sends is sent. If the message was not sent yet, or no such
    /// message ever is, the answer is `NotSent`, and nothing changes.
    pub fn event(&mut self, from: Point, to: Point, round: u32) -> Event
        ensures delivered { delivered_in self.new
            ≡ deliver (rounds_in S.batch_of S.inputs_of S.rounds_of self.old)
            (delivered_in self.old) (record { from = from; to = to; round = round }) }
        ensures start { self.new.start ≡ self.old.start }
        ensures event { result
            ≡ event_of (rounds_in S.batch_of S.inputs_of S.rounds_of self.old)
            (delivered_in self.old) (record { from = from; to = to; round = round }) }
        ensures unchanged { result ≡ NotSent → self.new ≡ self.old }
    {
        let Some(side) = Side::of(from, to) else {
            return Event::NotSent;
        };
        if let Some(again) = self.repeated(from, to, side, round) {
            return Event::Delivered(again);
        }
        self.give_copy(from, to, side, round)
    }

    /// Delivers a copy of the message of a server to its peer of a side, as `event` says. The copy is
    /// large, so an event that repeats another has none.
    fn give_copy(&mut self, from: Point, to: Point, side: Side, round: u32) -> Event
        requires { to ≡ peer from side }
        ensures { HasHappened S.batch_of S.inputs_of S.rounds_of self.old
            (record { from = from; to = to; round = round }) result self.new }
    {
        let Some(message) = sent_message(&self.sent, from, side, round) else {
            return Event::NotSent;
        };
        let verdict = give_to(&mut self.cores, &mut self.sent, to, &message);
        self.marks[mark_place(from, side, round as usize)] = true;
        Event::Delivered(verdict)
    }

    /// Delivers the messages of a schedule, one after another. One that is not sent when its turn
    /// comes is passed over.
    pub fn play(&mut self, schedule: &[Delivery])
        ensures delivered { delivered_in self.new
            ≡ after_from (rounds_in S.batch_of S.inputs_of S.rounds_of self.old)
            (delivered_in self.old) (named_in schedule.now) }
        ensures start { self.new.start ≡ self.old.start }
    {
        for delivery in schedule {
            self.event(delivery.from, delivery.to, delivery.round);
        }
    }

    /// 1 for a message of a round that was sent and not delivered, and else 0.
    fn missing(&self, from: Point, side: Side, round: usize) -> u32
        ensures missing { result
            ≡ one_if (is_missing (rounds_in S.batch_of S.inputs_of S.rounds_of self.now)
            (delivered_in self.now) (to_side from side round)) }
        ensures few { result ≤ 1 }
    {
        if round >= self.sent.get(from).len() {
            return 0;
        }
        if self.marks[mark_place(from, side, round)] {
            return 0;
        }
        1
    }

    /// How many messages of a round were sent and not delivered.
    fn missing_of(&self, round: usize) -> u32
        ensures missing { result
            ≡ of_round three (is_missing (rounds_in S.batch_of S.inputs_of S.rounds_of self.now)
            (delivered_in self.now)) round }
        ensures few { result ≤ 6 }
    {
        self.missing(Point::One, Side::Low, round)
            + self.missing(Point::One, Side::High, round)
            + self.missing(Point::Two, Side::Low, round)
            + self.missing(Point::Two, Side::High, round)
            + self.missing(Point::Three, Side::Low, round)
            + self.missing(Point::Three, Side::High, round)
    }

    /// How many messages were sent that no event has delivered. They are of the round of the server
    /// that is behind, and of the next. If there are none, each server has ended.
    pub fn undelivered(&self) -> u32
        ensures count { result
            ≡ undelivered_in (rounds_in S.batch_of S.inputs_of S.rounds_of self.now)
            (delivered_in self.now) }
        ensures few { result ≤ 12 }
        ensures ended { result ≡ 0 → (s : Point)
            → passed (rounds_in S.batch_of S.inputs_of S.rounds_of self.now)
            (delivered_in self.now) s
            ≡ rounds_in S.batch_of S.inputs_of S.rounds_of self.now }
    {
        let behind = self
            .cores
            .one
            .round()
            .min(self.cores.two.round())
            .min(self.cores.three.round()) as usize;
        self.missing_of(behind) + self.missing_of(behind + 1)
    }
}
