//! Places for the messages of one round.

ghost use Rattle.std.specs.Prelude.{◌≡◌, ◌↔◌, Some, None, is_some, true, IsTrue, IfSome};
ghost use Rattle.arrayvec.specs.ArrayVec.{array_vec_len};
ghost use Rattle.beet_round.specs.Boxes.{place_at, with_place, no_places, HasBoth, kept};

use crate::message::RoundMessage;
use crate::sides::Side;
use beet_field::Point;
use std::marker::Model;

/// A place for a message, in memory that is used again: a message is put there by the numbers that it has. Contracts
/// see the message, if it is there.
#[derive(Drop)]
pub struct MessagePlace {
    filled: bool,
    message: RoundMessage,
}

impl Model for MessagePlace {
    ghost use Rattle.std.specs.Prelude.{Option, Some, None, if◌then◌else◌};
    ghost use Rattle.beet_round.specs.declared.message.RoundMessage.{RoundMessage};

    ghost Value = { Option RoundMessage };

    ghost view = { λ p. if p.filled then Some p.message else None };
}

impl MessagePlace {
    /// An empty place at this server.
    fn empty(me: Point) -> MessagePlace
        ensures { result ≡ None }
    {
        MessagePlace {
            filled: false,
            message: RoundMessage::blank(me, me),
        }
    }

    /// Whether the message is there.
    fn is_filled(&self) -> bool
        ensures { result ≡ is_some self.now }
    {
        self.filled
    }

    /// The message, which is there.
    pub fn message(&self) -> &RoundMessage
        requires { is_some self.now ≡ true }
        ensures { Some result.now ≡ self.now }
    {
        &self.message
    }

    /// Puts the message in the place.
    fn put(&mut self, m: &RoundMessage)
        ensures { self.new ≡ Some m.now }
    {
        self.message.fill(m);
        self.filled = true;
    }

    /// Empties the place.
    fn clear(&mut self)
        ensures { self.new ≡ None }
    {
        self.filled = false;
    }

    /// Puts the message of another place in this one, if it has so many numbers, and else empties it.
    fn keep(&mut self, other: &MessagePlace, want: u32)
        ensures value { self.new ≡ kept want other.now }
        ensures length { IfSome self.new (λ m. array_vec_len m.numbers ≡ want) }
    {
        if other.filled && other.message.numbers.len() == want as usize {
            self.put(&other.message);
        } else {
            self.clear();
        }
    }
}

/// For each of the other two servers its message of one round, if it is there.
#[derive(Drop)]
pub struct Places {
    pub low: MessagePlace,
    pub high: MessagePlace,
}

impl Places {
    /// No message, at this server.
    pub fn none(me: Point) -> Places
        ensures { result ≡ no_places }
    {
        Places {
            low: MessagePlace::empty(me),
            high: MessagePlace::empty(me),
        }
    }

    /// Whether the message of this side is there.
    pub fn is_filled(&self, side: Side) -> bool
        ensures { result ≡ is_some (place_at self.now side) }
    {
        match side {
            Side::Low => self.low.is_filled(),
            Side::High => self.high.is_filled(),
        }
    }

    /// Puts the message in the place of this side.
    pub fn put(&mut self, side: Side, m: &RoundMessage)
        ensures { self.new ≡ with_place self.old side m.now }
    {
        match side {
            Side::Low => self.low.put(m),
            Side::High => self.high.put(m),
        }
    }

    /// Whether both messages are there.
    pub fn are_filled(&self) -> bool
        ensures { IsTrue result ↔ HasBoth self.now }
    {
        self.low.is_filled() && self.high.is_filled()
    }
}

/// Moves the early message to the place of the current one, if it has so many numbers; else it is dropped, and no
/// message is there.
pub fn advance(early: &mut MessagePlace, current: &mut MessagePlace, want: u32)
    ensures early { early.new ≡ None }
    ensures current { current.new ≡ kept want early.old }
    ensures length { IfSome current.new (λ m. array_vec_len m.numbers ≡ want) }
{
    current.keep(early, want);
    early.clear();
}
