//! Messages of a round.

ghost use Rattle.std.specs.Prelude.{◌≡◌, ◌≤◌, [], length};
ghost use Rattle.beet_field.specs.declared.TheConstants.{MOST_NUMBERS};

use arrayvec::ArrayVec;
use beet_field::{Fe, MOST_NUMBERS, Point};

/// What one server sends to another in a round: at most `MOST_NUMBERS` numbers.
#[derive(Debug, Drop)]
pub struct RoundMessage {
    /// The sender.
    pub from: Point,
    /// The receiver.
    pub to: Point,
    /// The round, from 0.
    pub round: u32,
    /// The sender's numbers of that round for the receiver, in order.
    pub numbers: ArrayVec<Fe, MOST_NUMBERS>,
}

impl RoundMessage {
    /// A message of round 0 with no numbers.
    pub fn blank(from: Point, to: Point) -> RoundMessage
        ensures { result ≡ record { from = from; to = to; round = 0; numbers = record { items = [] } } }
    {
        RoundMessage {
            from,
            to,
            round: 0,
            numbers: ArrayVec::new(),
        }
    }

    /// Makes it the message of this sender, receiver and round with these numbers. No more is written
    /// than the numbers.
    pub fn write(&mut self, from: Point, to: Point, round: u32, numbers: &[Fe])
        requires { length numbers.now ≤ MOST_NUMBERS }
        ensures { self.new ≡ record {
          from = from;
          to = to;
          round = round;
          numbers = record { items = numbers.now };
        } }
    {
        self.from = from;
        self.to = to;
        self.round = round;
        self.numbers.clear();
        if self.numbers.try_extend_from_slice(numbers).is_err() {
            unreachable!();
        }
    }

    /// Makes it equal to another.
    pub fn fill(&mut self, other: &RoundMessage)
        ensures { self.new ≡ other.now }
    {
        self.write(other.from, other.to, other.round, other.numbers.as_slice());
    }

    /// An equal message.
    pub fn copy(&self) -> RoundMessage
        ensures { result ≡ self.now }
    {
        let mut copy = RoundMessage::blank(self.from, self.to);
        copy.fill(self);
        copy
    }
}

/// What a server sends in a round: to its lower and to its higher peer.
#[derive(Drop)]
pub struct ToPeers {
    /// To the server of the lower number.
    pub low: RoundMessage,
    /// To the server of the higher number.
    pub high: RoundMessage,
}

impl ToPeers {
    /// Two messages of round 0 with no numbers, from this server to itself.
    pub fn blank(me: Point) -> ToPeers
        ensures low { result.low ≡ record { from = me; to = me; round = 0; numbers = record { items = [] } } }
        ensures high { result.high ≡ record { from = me; to = me; round = 0; numbers = record { items = [] } } }
    {
        ToPeers {
            low: RoundMessage::blank(me, me),
            high: RoundMessage::blank(me, me),
        }
    }
}
