//! The box, and what it says of a message.

ghost use Rattle.std.specs.Prelude.{◌≡◌, Some, ◌↔◌, ◌<◌, ◌≤◌, ◌-◌, ◌^◌, length, IsTrue};
ghost use Rattle.beet_field.specs.declared.TheConstants.{MOST_NUMBERS};
ghost use Rattle.beet_round.specs.Sides.{peer};
ghost use Rattle.beet_round.specs.Boxes.{fresh_box, HasBoth, numbers_at, Judged, JudgedFrom, IsDue, IsWanted, place_at};
ghost use Rattle.beet_round.specs.Boxes.{turned};

use crate::message::RoundMessage;
use crate::places::{Places, advance};
use crate::sides::Side;
use beet_field::{Fe, Point};
use std::marker::Model;

/// What a box answers to a message: the first of these that stands, in the order `Stranger`, `Old`, `TooEarly`,
/// `Repeat`, `WrongLength`, `Ready`, `Stored`. Only `Ready` and `Stored` change the box.
#[derive(Clone, Copy, PartialEq, Eq, Debug)]
pub enum Verdict {
    /// The message was put in its place, and the round still wants a message or it was one of the next round.
    Stored,
    /// The message was put in its place, and both messages of the round are in.
    Ready,
    /// The sender's place of that round is filled; the first content stands.
    Repeat,
    /// The message is of an earlier round.
    Old,
    /// The message is of a round after the next one; the box is at this round.
    TooEarly(u32),
    /// The message is of the box's round and has this many numbers, which is not the wanted length.
    WrongLength(u32),
    /// The message is to another server, or from the box's own server.
    Stranger,
}

/// The box of a server.
#[derive(Drop)]
pub struct RoundBox {
    me: Point,
    round: u32,
    want: u32,
    current: Places,
    early: Places,
}

impl Model for RoundBox {
    ghost use Rattle.beet_round.specs.Boxes.{Mailbox, IsSound};

    ghost Value = { Mailbox };

    ghost view = { λ b. record { me = b.me; round = b.round; want = b.want; now = b.current; next = b.early } };

    ghost invariant = { λ b. IsSound
        (record { me = b.me; round = b.round; want = b.want; now = b.current; next = b.early }) };
}

impl RoundBox {
    /// An empty box of the server `me` at round 0, which wants messages of `want` numbers.
    pub fn new(me: Point, want: u32) -> RoundBox
        requires { want ≤ MOST_NUMBERS }
        ensures { result ≡ fresh_box me want }
    {
        RoundBox {
            me,
            round: 0,
            want,
            current: Places::none(me),
            early: Places::none(me),
        }
    }

    /// Puts a copy of the message in its place, or says why not. A message of the next round may have any length.
    pub fn offer(&mut self, m: &RoundMessage) -> Verdict
        ensures { Judged self.old self.new m.now result }
    {
        if m.to != self.me {
            return Verdict::Stranger;
        }
        match Side::of(self.me, m.from) {
            Some(side) => self.offer_from(side, m),
            None => Verdict::Stranger,
        }
    }

    fn offer_from(&mut self, side: Side, m: &RoundMessage) -> Verdict
        requires to { m.now.to ≡ self.old.me }
        requires from { m.now.from ≡ peer self.old.me side }
        ensures { JudgedFrom self.old self.new side m.now result }
    {
        if m.round < self.round {
            return Verdict::Old;
        }
        if m.round == self.round {
            return self.offer_now(side, m);
        }
        if m.round - self.round > 1 {
            return Verdict::TooEarly(self.round);
        }
        if self.early.is_filled(side) {
            return Verdict::Repeat;
        }
        self.early.put(side, m);
        Verdict::Stored
    }

    fn offer_now(&mut self, side: Side, m: &RoundMessage) -> Verdict
        requires to { m.now.to ≡ self.old.me }
        requires from { m.now.from ≡ peer self.old.me side }
        requires round { m.now.round ≡ self.old.round }
        ensures { JudgedFrom self.old self.new side m.now result }
    {
        if self.current.is_filled(side) {
            return Verdict::Repeat;
        }
        let length = m.numbers.len() as u32;
        if length != self.want {
            return Verdict::WrongLength(length);
        }
        self.current.put(side, m);
        if self.current.are_filled() {
            Verdict::Ready
        } else {
            Verdict::Stored
        }
    }

    /// Whether both messages of the round are in.
    pub fn ready(&self) -> bool
        ensures { IsTrue result ↔ HasBoth self.now.now }
    {
        self.current.are_filled()
    }

    /// The round's message from the server of this side. Both messages of the round are in.
    pub fn message(&self, side: Side) -> &RoundMessage
        requires { HasBoth self.now.now }
        ensures message { Some result.now ≡ place_at self.now.now side }
        ensures wanted { IsWanted self.now side result.now }
    {
        match side {
            Side::Low => self.current.low.message(),
            Side::High => self.current.high.message(),
        }
    }

    /// The numbers of that message.
    pub fn numbers(&self, side: Side) -> &[Fe]
        requires { HasBoth self.now.now }
        ensures numbers { result.now ≡ numbers_at self.now.now side }
        ensures length { length result.now ≡ self.now.want }
    {
        self.message(side).numbers.as_slice()
    }

    /// The round, from 0.
    pub fn round(&self) -> u32
        ensures { result ≡ self.now.round }
    {
        self.round
    }

    /// Drops both messages of the round, and moves to the next one, which wants messages of `want` numbers. An early
    /// message of another length is dropped.
    pub fn turn(&mut self, want: u32)
        requires both { HasBoth self.old.now }
        requires wanted { want ≤ MOST_NUMBERS }
        requires room { self.old.round < 2 ^ 32 - 1 }
        ensures { self.new ≡ turned self.old want }
    {
        advance(&mut self.early.low, &mut self.current.low, want);
        advance(&mut self.early.high, &mut self.current.high, want);
        self.want = want;
        self.round += 1;
    }
}
