//! Five servers and the events of a run.

ghost use Rattle.std.specs.Prelude.{◌≡◌, ◌↔◌, ◌≤◌, ◌<◌, ◌+◌, ◌-◌, ℕ, ◌≢◌, List, length, true, false, slice_get, Some};
ghost use Rattle.std.specs.Prelude.{All, MatchOption, IfOk, ◌^◌, ◌&&◌, not, count_by, if◌then◌else◌, map};
ghost use Rattle.beet_delivery.specs.Networks.{Delivered, after_from, is_missing, is_sent, nothing, of_round};
ghost use Rattle.beet_delivery.specs.Networks.{undelivered as undelivered_in};
ghost use Rattle.beet_weights.specs.Quadratics.{IsServer};
ghost use Rattle.beet_linear_sharing.specs.Runs.{Setup};
ghost use Rattle.beet_five_server.specs.Cores.{has_ended, is_quiet};
ghost use Rattle.beet_five_server.specs.Network.{five, peers, rank};
ghost use Rattle.beet_five_server.specs.Runs.{HasRounds, shared_at};
ghost use Rattle.beet_five_world.specs.Members.{AllBegin, AllFit, AreFresh, AreNear, GivesAt, IsAt, LeadAll, Leads};
ghost use Rattle.beet_five_world.specs.Members.{Seen, named_in, sent_in, triple, verdict_at};
ghost use Rattle.beet_five_world.specs.declared.world.FiveEvent.TheVariants.{Delivered as DeliveredBy, NotSent};
ghost use Rattle.beet_five_server.specs.declared.mail.FiveMessage.{FiveMessage as Message};

use crate::member::Member;
use beet_five_server::{FiveCore, FiveMessage, message_to};
use beet_gates::Script;
use beet_round::Verdict;
use std::alloc::{AllocError, Global};
use std::marker::Model;

/// What comes of an event.
#[derive(Clone, Copy, PartialEq, Eq, Debug)]
pub enum FiveEvent {
    /// The message was delivered, and the receiver says this of it.
    Delivered(Verdict),
    /// The message was never sent.
    NotSent,
}

/// The message that one server sends to another in a round is delivered.
#[derive(Clone, Copy, PartialEq, Eq, Debug)]
pub struct FiveDelivery {
    /// The sender, 1 to 5.
    pub from: u32,
    /// The receiver, 1 to 5. If it is the sender, there is no such message.
    pub to: u32,
    /// The round of the message, from 0.
    pub round: u32,
}

/// Gives the server at a place of the list a message.
fn give_at<S: Script<5>>(members: &mut Vec<Member<S>>, k: usize, m: FiveMessage) -> Verdict
    requires place { k < length members.old.items }
    requires quiet { (s : Seen S) → IsAt members.old.items k s → is_quiet S.batch_of s.core.work ≡ true }
    ensures gives { GivesAt S.batch_of members.old.items members.new.items k m }
    ensures verdict { (s : Seen S) → IsAt members.old.items k s → result ≡ verdict_at S.batch_of s.core m }
{
    let member = &mut members[k];
    member.give(m)
}

/// A copy of what a server sent another in a round, if it did.
fn copy_of<S: Script<5>>(member: &Member<S>, from: u32, to: u32, round: u32) -> Option<FiveMessage>
    requires from { IsServer from }
    requires to { IsServer to }
    requires other { from ≢ to }
    ensures { MatchOption result (length member.now.sent ≤ round)
        (λ m. (row : List Message) × (slice_get member.now.sent round ≡ Some row)
        × (slice_get row (rank from to) ≡ Some m)) }
{
    let row = member.sent().get(round as usize)?;
    Some(message_to(row, from, to).copy())
}

/// 1 for a message that was sent and has not come, and else 0.
fn one_if_missing(sent: bool, came: bool) -> u32
    ensures { result ≡ (if sent && not came then 1 else 0) }
{
    if sent && !came { 1 } else { 0 }
}

/// Five servers.
#[derive(Drop)]
pub struct FiveWorld<S: Script<5>> {
    members: Vec<Member<S>>,
}

impl<S: Script<5>> Model for FiveWorld<S> {
    ghost use Rattle.std.specs.Prelude.{List};
    ghost use Rattle.beet_five_world.specs.Members.{IsWorld, Seen};

    ghost Value = { List (Seen S) };

    ghost view = { λ w. w.members.items };

    ghost invariant = { λ w. IsWorld S.batch_of w.members.items };
}

impl<S: Script<5>> FiveWorld<S> {
    /// The servers 1 to 5 in order, from cores of one script that have handed out nothing. Each has then sent its
    /// messages of round 0. It takes the memory for all messages, and no other call takes memory. That it fails only if
    /// there is too little is no clause: a body that always fails meets the contract.
    pub fn of(alloc: Global, cores: Vec<FiveCore<S>>) -> Result<FiveWorld<S>, AllocError>
        requires { AreFresh S.batch_of S.rounds_of cores.items }
        ensures { IfOk result (λ w. (script : S) (o : Setup) (rounds : ℕ) → HasRounds o rounds →
            AllBegin S.batch_of script o cores.items → AllFit S.batch_of script o rounds nothing w) }
    {
        let mut members = Vec::with_capacity(alloc, cores.len())?;
        for core in cores {
            members.push_reserved(Member::begin(alloc, core)?);
        }
        Ok(FiveWorld { members })
    }

    /// The server of this number.
    fn member(&self, at: u32) -> &Member<S>
        requires { IsServer at }
        ensures { IsAt self.now (at - 1) result.now }
    {
        &self.members[at as usize - 1]
    }

    /// The core of a server.
    pub fn core(&self, at: u32) -> &FiveCore<S>
        requires { IsServer at }
        ensures { (s : Seen S) × IsAt self.now (at - 1) s × (result.now ≡ s.core) }
    {
        self.member(at).core()
    }

    /// Delivers the message of one server to another in a round, counted from 0. It may be delivered again. What the
    /// receiver then sends is sent. If the message was not sent yet, or no such message ever is, the answer is
    /// `NotSent`, and nothing changes.
    pub fn event(&mut self, from: u32, to: u32, round: u32) -> FiveEvent
        requires from { IsServer from }
        requires to { IsServer to }
        ensures fits { Leads S.batch_of self.old (triple from to round) self.new }
        ensures sent { (script : S) (o : Setup) (rounds : ℕ) (x : Delivered ℕ)
            → AllFit S.batch_of script o rounds x self.old
            → (result ≡ NotSent) ↔ (is_sent five rounds x (triple from to round) ≡ false) }
        ensures verdict { (sender receiver : Seen S) (row : List Message) (m : Message) → from ≢ to
            → IsAt self.old (from - 1) sender → IsAt self.old (to - 1) receiver
            → slice_get sender.sent round ≡ Some row → slice_get row (rank from to) ≡ Some m
            → result ≡ DeliveredBy (verdict_at S.batch_of receiver.core m) }
        ensures unchanged { result ≡ NotSent → self.new ≡ self.old }
    {
        if from == to {
            return FiveEvent::NotSent;
        }
        match copy_of(&self.members[from as usize - 1], from, to, round) {
            None => FiveEvent::NotSent,
            Some(m) => FiveEvent::Delivered(give_at(&mut self.members, to as usize - 1, m)),
        }
    }

    /// Delivers the messages of a schedule, one after another, as `event` does. One that is not sent when its turn
    /// comes is passed over.
    pub fn play(&mut self, schedule: &[FiveDelivery])
        requires from { All (λ delivery. IsServer delivery.from) schedule.now }
        requires to { All (λ delivery. IsServer delivery.to) schedule.now }
        ensures leads { LeadAll S.batch_of self.old (named_in schedule.now) self.new }
        ensures passed_over { (script : S) (o : Setup) (rounds : ℕ) (x : Delivered ℕ)
            → AllFit S.batch_of script o rounds x self.old
            → LeadAll S.batch_of self.old (sent_in rounds x (named_in schedule.now)) self.new }
        ensures fits { (script : S) (o : Setup) (rounds : ℕ) (x : Delivered ℕ)
            → AllFit S.batch_of script o rounds x self.old
            → AllFit S.batch_of script o rounds (after_from five rounds x (named_in schedule.now)) self.new }
    {
        for delivery in schedule {
            self.event(delivery.from, delivery.to, delivery.round);
        }
    }

    /// The fewest rounds that a server has passed.
    fn behind(&self) -> u32
        ensures least { (j : ℕ) (s : Seen S) → IsServer j → IsAt self.now (j - 1) s → result ≤ s.core.work.round }
        ensures passed { (j : ℕ) × (s : Seen S) × IsServer j × IsAt self.now (j - 1) s
            × (result ≡ s.core.work.round) }
        ensures few { result < 2 ^ 31 }
    {
        let mut least = self.core(1).round();
        for at in 2..6 {
            least = least.min(self.core(at).round());
        }
        least
    }

    /// 1 for a message of a round that was sent and not delivered, and else 0.
    fn missing(&self, from: u32, to: u32, round: u32) -> u32
        requires from { IsServer from }
        requires to { IsServer to }
        requires near { AreNear self.now round }
        ensures missing { (script : S) (o : Setup) (rounds : ℕ) (x : Delivered ℕ)
            → AllFit S.batch_of script o rounds x self.now
            → result ≡ (if is_missing five rounds x (triple from to round) then 1 else 0) }
        ensures own { from ≡ to → result ≡ 0 }
        ensures few { result ≤ 1 }
    {
        if from == to {
            return 0;
        }
        let was_sent = (round as usize) < self.member(from).sent().len();
        let came = self.core(to).holds(round, from);
        one_if_missing(was_sent, came)
    }

    /// How many messages of a server in a round were sent and not delivered.
    fn missing_from(&self, from: u32, round: u32) -> u32
        requires from { IsServer from }
        requires near { AreNear self.now round }
        ensures missing { (script : S) (o : Setup) (rounds : ℕ) (x : Delivered ℕ)
            → AllFit S.batch_of script o rounds x self.now
            → result ≡ count_by (is_missing five rounds x) (map (λ to. triple from to round) (peers from)) }
        ensures few { result ≤ 4 }
    {
        self.missing(from, 1, round)
            + self.missing(from, 2, round)
            + self.missing(from, 3, round)
            + self.missing(from, 4, round)
            + self.missing(from, 5, round)
    }

    /// How many messages of a round were sent and not delivered.
    fn missing_of(&self, round: u32) -> u32
        requires near { AreNear self.now round }
        ensures missing { (script : S) (o : Setup) (rounds : ℕ) (x : Delivered ℕ)
            → AllFit S.batch_of script o rounds x self.now
            → result ≡ of_round five (is_missing five rounds x) round }
        ensures few { result ≤ 20 }
    {
        self.missing_from(1, round)
            + self.missing_from(2, round)
            + self.missing_from(3, round)
            + self.missing_from(4, round)
            + self.missing_from(5, round)
    }

    /// How many messages were sent that no event has delivered, 40 at most. They are of the round of the server that is
    /// behind, and of the next. If there are none, each server has ended, with all rounds of the run passed and its
    /// numbers opened.
    pub fn undelivered(&self) -> u32
        ensures count { (script : S) (o : Setup) (rounds : ℕ) (x : Delivered ℕ)
            → AllFit S.batch_of script o rounds x self.now → result ≡ undelivered_in five rounds x }
        ensures few { result ≤ 40 }
        ensures ended { result ≡ 0 → (script : S) (o : Setup) (rounds : ℕ) (x : Delivered ℕ)
            → AllFit S.batch_of script o rounds x self.now
            → (j : ℕ) (s : Seen S) → IsServer j → IsAt self.now (j - 1) s
            → (has_ended S.batch_of s.core.work ≡ true) × (s.core.work.round ≡ rounds)
            × (s.core.work.opened ≡ (shared_at o rounds).opened) }
    {
        let behind = self.behind();
        self.missing_of(behind) + self.missing_of(behind + 1)
    }
}
