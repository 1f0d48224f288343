//! Three servers of the script that opens a product: of 3 and 4.

ghost use Rattle.std.specs.Prelude.{◌≡◌, IfOk};
ghost use Rattle.beet_server.specs.Cores.{AreFresh, IsFresh};
ghost use Rattle.beet_samples.specs.Samples.{batch_of, inputs_of};
ghost use Rattle.beet_samples.specs.declared.Sample.TheVariants.{Product};

use super::samples::tape;
use beet_field::{Fe, Point, Trio};
use beet_samples::Sample;
use beet_server::{ServerCore, StartFault};
use beet_words::{FeList, Tape, WordList};
use std::alloc::Global;
use std::process::Abort;

/// A server with its points of the two inputs and one coefficient word.
pub fn product(
    rt: &impl Abort,
    alloc: Global,
    me: Point,
    points: (u128, u128),
    word: u64,
) -> Result<ServerCore<Sample>, StartFault>
    ensures me { IfOk result (λ c. c.me ≡ me) }
    ensures script { IfOk result (λ c. c.script ≡ Product) }
    ensures fresh { IfOk result (IsFresh batch_of inputs_of) }
{
    let (first, second) = points;
    let inputs = Vec::from_slice(alloc, &[Fe::reduce(first), Fe::reduce(second)]);
    let inputs = FeList::of(inputs.expect(rt, "memory"));
    let coefficients = tape(rt, alloc, word);
    let masks = Tape::of_words(WordList::new(alloc));
    ServerCore::start(alloc, me, Sample::Product, inputs, masks, coefficients)
}

/// The servers of the lines (3, 5) and (4, 2), which draw 1, 2 and 4.
pub fn three_and_four(rt: &impl Abort, alloc: Global) -> Trio<ServerCore<Sample>>
    ensures { AreFresh batch_of inputs_of result }
{
    Trio {
        one: product(rt, alloc, Point::One, (8, 6), 1).expect(rt, "server 1"),
        two: product(rt, alloc, Point::Two, (13, 8), 2).expect(rt, "server 2"),
        three: product(rt, alloc, Point::Three, (18, 10), 4).expect(rt, "server 3"),
    }
}
