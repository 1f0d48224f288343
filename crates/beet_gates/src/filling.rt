//! Batches that are made in place.

ghost use Rattle.std.specs.Prelude.{◌≡◌, ◌<◌, ◌++◌, [], ◌∷◌, length};
ghost use Rattle.beet_gates.specs.Batches.{mul_batch, reveal_batch, end_batch};
ghost use Rattle.beet_gates.specs.declared.Act.TheVariants.{Deal, Mul, Reveal};
ghost use Rattle.beet_gates.specs.declared.TheConstants.{MOST_LETS};

use crate::{Act, Batch, Linear};
use arrayvec::ArrayVec;
use beet_field::Fe;

/// The act that multiplies two wires.
fn one_product(pair: (u32, u32)) -> Act
    ensures { result ≡ Mul (record { items = pair ∷ [] }) }
{
    let mut pairs = ArrayVec::new();
    pairs.push(pair);
    Act::Mul(pairs)
}

/// The act that opens one wire.
fn one_opening(wire: u32) -> Act
    ensures { result ≡ Reveal (record { items = wire ∷ [] }) }
{
    let mut shown = ArrayVec::new();
    shown.push(wire);
    Act::Reveal(shown)
}

impl Act {
    /// Multiplies two wires from now on.
    fn set_product(&mut self, pair: (u32, u32))
        ensures { self.new ≡ Mul (record { items = pair ∷ [] }) }
    {
        match self {
            Act::Mul(pairs) => {
                pairs.clear();
                pairs.push(pair);
            }
            _ => *self = one_product(pair),
        }
    }
}

impl Batch {
    /// The end, with no lets.
    pub fn end() -> Batch
        ensures { result ≡ end_batch }
    {
        Batch {
            lets: ArrayVec::new(),
            act: Act::End,
        }
    }

    /// Appends a let: a constant and three multiples of wires. There must be room.
    pub fn add_let(&mut self, constant: Fe, terms: [(Fe, u32); 3])
        requires { length self.old.lets.items < MOST_LETS }
        ensures { self.new ≡ record self.old {
          lets = record {
            items = self.old.lets.items ++ record { constant = constant; terms = terms } ∷ [];
          };
        } }
    {
        self.lets.push(Linear { constant, terms });
    }

    /// Makes it the end, with no lets.
    pub fn set_end(&mut self)
        ensures { self.new ≡ end_batch }
    {
        self.lets.clear();
        self.act = Act::End;
    }

    /// Deals, after the same lets.
    pub fn set_deal(&mut self)
        ensures { self.new ≡ record self.old { act = Deal } }
    {
        self.act = Act::Deal;
    }

    /// Multiplies two wires, after the same lets.
    pub fn set_product(&mut self, left: u32, right: u32)
        ensures { self.new ≡ mul_batch self.old.lets.items ((left, right) ∷ []) }
    {
        self.act.set_product((left, right));
    }

    /// Opens one wire, after the same lets.
    pub fn set_opening(&mut self, wire: u32)
        ensures { self.new ≡ reveal_batch self.old.lets.items (wire ∷ []) }
    {
        self.act = one_opening(wire);
    }
}
