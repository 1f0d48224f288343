//! Scripts of gates over shared numbers, the law that they keep, and their runs on plain values.
//!
//! The wires of a run are numbered from 0. The inputs come first. Each batch appends its lets in order, and then the
//! results of its act: 61 bits for each server for [`Act::Deal`] (those of server 1 from the lowest up, then those of
//! server 2, and so on), one product for each pair of [`Act::Mul`], and none for [`Act::Reveal`], which appends the
//! values of its wires to the opened numbers.
#![tactic(auto)]

ghost use Rattle.std.specs.Prelude.{◌≡◌, ◌<◌, ◌≤◌, ◌++◌, ◌^◌, ℕ, List, []};
ghost use Rattle.beet_field.specs.declared.TheConstants.{MOST_NUMBERS};
ghost use Rattle.beet_gates.specs.declared.Batch.{Batch};
ghost use Rattle.beet_gates.specs.Clear.{is_end};
ghost use Rattle.beet_gates.specs.Draws.{drawn_among};
ghost use Rattle.beet_gates.specs.Scripts.{LawFrom, start_among, bounds_of, size_of};

mod clear;
mod filling;
mod levels;
mod product;

use arrayvec::ArrayVec;
use beet_field::{Fe, MOST_NUMBERS};
pub use clear::{ClearRun, bit_of, clear_run, evaluate, multiply};
pub use levels::{LevelItems, level_law, level_pairs};
pub use product::Product;

/// The most lets of one batch.
pub const MOST_LETS: usize = 128;

/// The wires of the block of a mask.
pub const MASK_WIRES: u32 = 487;

/// The wires of the block of a mask that stand before the bits of its mask.
pub const WIRES_BEFORE_BITS: u32 = 366;

/// How the product of many bits, and a comparison, are built from products of two.
#[derive(Clone, Copy, PartialEq, Eq, Debug)]
pub enum Gates {
    /// One after another: a round for each bit.
    Chain,
    /// In pairs: a round for each level of a tree.
    Tree,
}

/// A let: a constant and three multiples of wires, added. A term is a factor and a wire; one that is not used is
/// factor 0 and wire 0.
#[derive(Clone, Copy, PartialEq, Eq, Debug, Default)]
pub struct Linear {
    pub constant: Fe,
    pub terms: [(Fe, u32); 3],
}

/// What the servers do together in one round.
#[derive(Drop)]
pub enum Act {
    /// Each server deals the 61 bits of its next mask word.
    Deal,
    /// The two wires of each pair are multiplied.
    Mul(ArrayVec<(u32, u32), MOST_NUMBERS>),
    /// The wires are opened.
    Reveal(ArrayVec<u32, MOST_NUMBERS>),
    /// The run is over.
    End,
}

impl Act {
    /// How many numbers a server sends another for it.
    pub fn size(&self) -> u32
        ensures size { result ≡ size_of self.now }
        ensures few { result ≤ MOST_NUMBERS }
    {
        match self {
            Act::Deal => 61,
            Act::Mul(pairs) => pairs.len() as u32,
            Act::Reveal(shown) => shown.len() as u32,
            Act::End => 0,
        }
    }

    pub fn is_end(&self) -> bool
        ensures { result ≡ is_end self.now }
    {
        matches!(self, Act::End)
    }
}

/// One batch of a script: the lets are appended, and then the act is done.
#[derive(Drop)]
pub struct Batch {
    pub lets: ArrayVec<Linear, MOST_LETS>,
    pub act: Act,
}

/// A program of batches for so many servers, each batch of which may depend on the numbers opened before it.
pub trait Script<const SERVERS: usize>: Copy {
    /// How far a run has come in the script. It is no part of what the run does: with it a batch reads only the numbers
    /// that were opened since the one before.
    type Place: Copy;

    ghost inputs_of: { Self → ℕ };

    ghost rounds_of: { Self → ℕ };

    ghost masks_of: { Self → ℕ };

    ghost secrets_of: { Self → ℕ };

    ghost wires_of: { Self → ℕ };

    /// The batch after so many, with these numbers opened so far.
    ghost batch_of: { Self → ℕ → List ℕ → Batch };

    /// A run that has done so many batches, and has opened these numbers, may go on from the place.
    ghost is_at: { Self → ℕ → List ℕ → Self.Place → Type 0 };

    /// The number of inputs.
    fn inputs(&self) -> u32
        ensures { result ≡ inputs_of self.now };

    /// The most batches that come before the end, below 2^31.
    fn rounds(&self) -> u32
        ensures value { result ≡ rounds_of self.now }
        ensures few { result < 2 ^ 31 };

    /// The most mask words that each server deals.
    fn masks(&self) -> u32
        ensures { result ≡ masks_of self.now };

    /// The most secrets that each server hides, below 2^31: 61 for a deal, and one for each product.
    fn secrets(&self) -> u32
        ensures value { result ≡ secrets_of self.now }
        ensures few { result < 2 ^ 31 };

    /// The most numbers that each server draws: two for each secret among five servers, and else one.
    final fn coefficients(&self) -> u32
        ensures { result ≡ drawn_among SERVERS (secrets_of self.now) }
    {
        if SERVERS == 5 {
            2 * self.secrets()
        } else {
            self.secrets()
        }
    }

    /// The most wires, with the inputs.
    fn wires(&self) -> u32
        ensures { result ≡ wires_of self.now };

    /// The batch that comes after `done` batches, if these numbers were opened so far.
    fn next(&self, done: u32, opened: &[Fe]) -> Batch
        ensures { result ≡ batch_of self.now done opened.now };

    /// The place of a run that has done no batch.
    fn begin(&self) -> Self::Place
        ensures { is_at self.now 0 [] result };

    /// Goes on from a place, and makes a batch what `next` answers. A script that runs for many rounds reads only the
    /// numbers that were opened since, and fills the batch in place.
    fn refill(&self, done: u32, opened: &[Fe], place: &mut Self::Place, batch: &mut Batch)
        requires { is_at self.now done opened.now place.old }
        ensures batch { batch.new ≡ batch_of self.now done opened.now }
        ensures place { is_at self.now done opened.now place.new }
    {
        *batch = self.next(done, opened);
    }

    /// A run may go on from the same place later, whatever numbers were opened since.
    ghost goes_on: { (s : Self) (done later : ℕ) (opened more : List ℕ) (place : Self.Place) →
        is_at s done opened place → done ≤ later → is_at s later (opened ++ more) place };

    /// Whatever numbers are opened, each batch names only wires that stand before it or earlier in its own lets, no
    /// product or opening is empty, no batch has more than `MOST_LETS` lets or `MOST_NUMBERS` pairs or wires, the end
    /// comes after at most `rounds` batches, and the wires, mask words and secrets stay within their bounds.
    ghost lawful: { (s : Self) →
        LawFrom (batch_of s) (bounds_of (wires_of s) (masks_of s) (secrets_of s)) (rounds_of s)
        (start_among SERVERS (inputs_of s)) [] };
}
