//! Small scripts for the tests of what runs scripts, three servers of one of them, and files of an auction.
#![tactic(auto)]

ghost use Rattle.std.specs.Prelude.{◌≡◌, ◌<◌, ◌^◌, IfErr, IfOk, length};
ghost use Rattle.std.specs.List.{range_with_len};
ghost use Rattle.beet_field.specs.declared.TheConstants.{MOST_NUMBERS};
ghost use Rattle.beet_server.specs.Cores.{AreFresh, IsFresh};
ghost use Rattle.beet_server.specs.declared.server.StartFault.TheVariants.{OutOfMemory};
ghost use Rattle.beet_samples.specs.Samples.{batch_of, inputs_of, needs};
ghost use Rattle.beet_samples.specs.declared.Sample.TheVariants.{Inputs};

mod files;

use arrayvec::ArrayVec;
use beet_field::{Fe, MOST_NUMBERS, Point, Trio};
use beet_gates::{Act, Batch, Script};
use beet_server::{ServerCore, StartFault};
use beet_words::{FeList, Tape, WordList};
pub use files::{AUCTION_FILES, FIVE_SEEDS};
use std::alloc::{AllocError, Global};

/// A script of one or two rounds.
#[derive(Clone, Copy, PartialEq, Eq, Debug)]
pub enum Sample {
    /// The product of its two inputs is opened.
    Product,
    /// Each server deals a word, and the second bits of the three words are opened.
    SecondBits,
    /// Its inputs are opened, as many as a message may have.
    Inputs,
}

/// What a script asks for.
#[derive(Clone, Copy)]
pub struct Sizes {
    pub inputs: u32,
    pub rounds: u32,
    pub masks: u32,
    pub secrets: u32,
    pub wires: u32,
}

/// The wires of the inputs that are opened.
fn all_wires() -> ArrayVec<u32, MOST_NUMBERS>
    ensures { result.items ≡ range_with_len 0 MOST_NUMBERS }
{
    let mut wires = ArrayVec::new();
    for k in 0..MOST_NUMBERS as u32 {
        wires.push(k);
    }
    wires
}

impl Sample {
    fn needs(self) -> Sizes
        ensures value { result ≡ needs self }
        ensures few { (result.rounds < 2 ^ 31) × (result.secrets < 2 ^ 31) }
    {
        match self {
            Sample::Product => Sizes {
                inputs: 2,
                rounds: 2,
                masks: 0,
                secrets: 1,
                wires: 3,
            },
            Sample::SecondBits => Sizes {
                inputs: 0,
                rounds: 2,
                masks: 1,
                secrets: 61,
                wires: 183,
            },
            Sample::Inputs => Sizes {
                inputs: MOST_NUMBERS as u32,
                rounds: 1,
                masks: 0,
                secrets: 0,
                wires: MOST_NUMBERS as u32,
            },
        }
    }
}

impl Script<3> for Sample {
    ghost use Rattle.std.specs.Prelude.{⊤};
    ghost use Rattle.beet_samples.specs.Samples.{batch_of, inputs_of, needs};
    ghost use Rattle.beet_samples.specs.SampleLaw.{sample-law};

    type Place = ();

    ghost inputs_of = { inputs_of };

    ghost rounds_of = { λ s. (needs s).rounds };

    ghost masks_of = { λ s. (needs s).masks };

    ghost secrets_of = { λ s. (needs s).secrets };

    ghost wires_of = { λ s. (needs s).wires };

    ghost batch_of = { batch_of };

    ghost is_at = { λ _ _ _ _. ⊤ };

    ghost goes_on = { λ _ _ _ _ _ _ there _. there };

    ghost lawful = { sample-law };

    fn inputs(&self) -> u32 {
        self.needs().inputs
    }

    fn rounds(&self) -> u32 {
        self.needs().rounds
    }

    fn masks(&self) -> u32 {
        self.needs().masks
    }

    fn secrets(&self) -> u32 {
        self.needs().secrets
    }

    fn wires(&self) -> u32 {
        self.needs().wires
    }

    fn next(&self, done: u32, _opened: &[Fe]) -> Batch {
        let act = match (*self, done) {
            (Sample::Product, 0) => {
                let mut pairs = ArrayVec::new();
                pairs.push((0, 1));
                Act::Mul(pairs)
            }
            (Sample::Product, 1) => {
                let mut wires = ArrayVec::new();
                wires.push(2);
                Act::Reveal(wires)
            }
            (Sample::SecondBits, 0) => Act::Deal,
            (Sample::SecondBits, 1) => {
                let mut wires = ArrayVec::new();
                wires.push(1);
                wires.push(62);
                wires.push(123);
                Act::Reveal(wires)
            }
            (Sample::Inputs, 0) => Act::Reveal(all_wires()),
            _ => Act::End,
        };
        Batch {
            lets: ArrayVec::new(),
            act,
        }
    }

    fn begin(&self) {}
}

/// The points of the inputs at a server, of which the first is this, and each is one more than the one before.
fn points_from(alloc: Global, first: u64) -> Result<FeList, AllocError>
    ensures { IfOk result (λ points. length points ≡ MOST_NUMBERS) }
{
    let mut points = Vec::new(alloc);
    for k in 0..MOST_NUMBERS as u64 {
        points.push(Fe::reduce(u128::from(first) + u128::from(k)))?;
    }
    Ok(FeList::of(points))
}

/// A server of the script that opens its inputs.
fn of_inputs(alloc: Global, me: Point, first: u64) -> Result<ServerCore<Sample>, StartFault>
    ensures me { IfOk result (λ core. core.me ≡ me) }
    ensures script { IfOk result (λ core. core.script ≡ Inputs) }
    ensures fresh { IfOk result (IsFresh batch_of inputs_of) }
    ensures memory { IfErr result (λ fault. fault ≡ OutOfMemory) }
{
    let inputs = points_from(alloc, first)?;
    let masks = Tape::of_words(WordList::new(alloc));
    let coefficients = Tape::of_words(WordList::new(alloc));
    ServerCore::start(alloc, me, Sample::Inputs, inputs, masks, coefficients)
}

/// Three fresh servers of the script that opens its inputs, which are those of the lines (3, 5), (4, 5) and so on.
pub fn three_of_inputs(alloc: Global) -> Result<Trio<ServerCore<Sample>>, StartFault>
    ensures fresh { IfOk result (AreFresh batch_of inputs_of) }
    ensures script { IfOk result (λ cores. cores.one.script ≡ Inputs) }
    ensures memory { IfErr result (λ fault. fault ≡ OutOfMemory) }
{
    Ok(Trio {
        one: of_inputs(alloc, Point::One, 8)?,
        two: of_inputs(alloc, Point::Two, 13)?,
        three: of_inputs(alloc, Point::Three, 18)?,
    })
}
