//! The messages of the rounds that a server has passed.

ghost use Rattle.std.specs.Prelude.{◌≡◌, ◌<◌, ◌≤◌, ◌+◌, ◌*◌, ◌^◌, ◌++◌, [], ◌∷◌, length, IfOk, Some, slice_get};
ghost use Rattle.beet_field.specs.declared.TheConstants.{MOST_NUMBERS};
ghost use Rattle.beet_round.specs.Boxes.{IsFrom};
ghost use Rattle.beet_round.specs.declared.sides.Side.TheVariants.{Low, High};
ghost use Rattle.beet_server.specs.Kept.{numbers_kept};

use crate::rows::Rows;
use beet_field::{Fe, MOST_NUMBERS, Point};
use beet_round::{RoundMessage, Side};
use std::alloc::{AllocError, Global};
use std::marker::Model;

/// The messages to a server of each round, by their numbers alone.
#[derive(Drop)]
pub struct KeptRounds {
    me: Point,
    low: Rows,
    high: Rows,
}

impl Model for KeptRounds {
    ghost use Rattle.beet_server.specs.Kept.{KeptMessages, messages_of, IsKept};

    ghost Value = { KeptMessages };

    ghost view = { λ k.
        record { me = k.me; messages = messages_of k.me 0 k.low.rows k.high.rows; room = k.low.ends_room } };

    ghost invariant = { λ k. IsKept k.low k.high };
}

impl KeptRounds {
    /// None, with room for those of so many rounds.
    pub fn new(alloc: Global, me: Point, rounds: u32) -> Result<KeptRounds, AllocError>
        ensures me { IfOk result (λ k. k.me ≡ me) }
        ensures none { IfOk result (λ k. k.messages ≡ []) }
        ensures room { IfOk result (λ k. k.room ≡ rounds) }
    {
        let low = Rows::new(alloc, rounds as usize, MOST_NUMBERS * rounds as usize)?;
        let high = Rows::new(alloc, rounds as usize, MOST_NUMBERS * rounds as usize)?;
        Ok(KeptRounds { me, low, high })
    }

    /// Appends the messages of the next round, the lower peer's first.
    pub fn push(&mut self, low: &RoundMessage, high: &RoundMessage)
        requires room { length self.old.messages < self.old.room }
        requires low { IsFrom self.old.me (length self.old.messages) Low low.now }
        requires high { IsFrom self.old.me (length self.old.messages) High high.now }
        ensures me { self.new.me ≡ self.old.me }
        ensures room { self.new.room ≡ self.old.room }
        ensures messages { self.new.messages ≡ self.old.messages ++ (low.now ∷ high.now ∷ []) ∷ [] }
    {
        self.low.push(low.numbers.as_slice());
        self.high.push(high.numbers.as_slice());
    }

    /// The numbers of the message of this round from the peer of this side.
    pub fn numbers(&self, round: usize, side: Side) -> &[Fe]
        requires { round < length self.now.messages }
        ensures numbers { Some result.now ≡ numbers_kept self.now.messages round side }
        ensures few { length result.now ≤ MOST_NUMBERS }
    {
        match side {
            Side::Low => self.low.row(round),
            Side::High => self.high.row(round),
        }
    }
}
