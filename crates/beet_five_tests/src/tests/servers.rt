//! Five servers of an auction at one price, with demand 35 and supply 40.

ghost use Rattle.std.specs.Prelude.{◌≡◌, ◌*◌, IfOk, length};
ghost use Rattle.beet_plan.specs.FivePlan.{FiveAuction, five_batch, most_rounds};
ghost use Rattle.beet_five_tests.specs.Fresh.{IsFresh};
ghost use Rattle.beet_five_world.specs.Members.{AreFresh};
ghost use Rattle.beet_weights.specs.Quadratics.{IsServer};

use beet_bids::Grid;
use beet_field::{Fe, P};
use beet_five_server::{FiveCore, FiveFault};
use beet_gates::{Gates, Script};
use beet_search::FiveScript;
use beet_weights::Quadratic;
use beet_words::{FeList, Tape, Word, WordList};
use std::alloc::Global;
use std::process::Abort;

/// The rounds of the auction: those of a mask of five words and of a comparison, and one for the volume.
pub const ROUNDS: u32 = 130;

/// The volume at the price.
pub const VOLUME: u128 = 35;

/// The word whose bits are all set.
pub const ONES: u64 = P;

/// More words than a server gets in these tests.
const TOO_MANY: usize = 10_000;

/// A value with the two numbers that hide it.
fn hidden(value: u128, first: u128, second: u128) -> Quadratic {
    Quadratic {
        value: Fe::reduce(value),
        first: Fe::reduce(first),
        second: Fe::reduce(second),
    }
}

/// The script of one price.
fn script(rt: &impl Abort) -> FiveScript {
    let grid = Grid::new(100, 5, 1, Gates::Chain).expect(rt, "a grid");
    FiveScript::new(&grid).expect(rt, "a script")
}

/// The points of a server: of the supply, and then of the demand.
fn points(rt: &impl Abort, alloc: Global, me: u32) -> FeList {
    let supply = hidden(40, 5, 7).at(me);
    let demand = hidden(VOLUME, 2, 9).at(me);
    FeList::of(Vec::from_slice(alloc, &[supply, demand]).expect(rt, "memory"))
}

/// The list of these words.
pub fn list(rt: &impl Abort, alloc: Global, numbers: &[u64]) -> WordList {
    let mut words = WordList::new(alloc);
    for number in numbers {
        let word = Word::of(*number).expect(rt, "a word");
        words.push(word).expect(rt, "memory");
    }
    words
}

/// So many words of a stream of the seed that has the number of a server in each byte.
pub fn seeded(rt: &impl Abort, alloc: Global, me: u8, stream: u64, count: u32) -> WordList {
    Tape::of_seed(alloc, &[me; 32], stream, count)
        .expect(rt, "memory")
        .into_words()
}

/// The tape of these words.
fn tape(rt: &impl Abort, words: WordList) -> Tape
    ensures { result.passed ≡ 0 }
{
    assert!(rt; words.len() < TOO_MANY);
    Tape::of_words(words)
}

/// A server of the script that begins with these words for masks and for numbers.
fn start(
    rt: &impl Abort,
    alloc: Global,
    script: FiveScript,
    me: u32,
    masks: WordList,
    coefficients: WordList,
) -> Result<FiveCore<FiveScript>, FiveFault>
    requires { IsServer me }
    ensures { IfOk result (IsFresh me script) }
{
    let masks = tape(rt, masks);
    let coefficients = tape(rt, coefficients);
    let inputs = points(rt, alloc, me);
    assert!(rt; inputs.as_slice().len() == script.inputs() as usize);
    FiveCore::start(alloc, me, script, inputs, masks, coefficients)
}

/// Server 1 with these words, or why it does not start.
pub fn first_server(
    rt: &impl Abort,
    alloc: Global,
    masks: WordList,
    coefficients: WordList,
) -> Result<FiveCore<FiveScript>, FiveFault> {
    start(rt, alloc, script(rt), 1, masks, coefficients)
}

/// A server that begins with these words for masks, and draws its numbers from the words of a seed of its number.
fn server(
    rt: &impl Abort,
    alloc: Global,
    script: FiveScript,
    me: u32,
    masks: WordList,
) -> FiveCore<FiveScript>
    requires { IsServer me }
    ensures { IsFresh me script result }
{
    let coefficients = seeded(rt, alloc, me as u8, 1, script.coefficients());
    start(rt, alloc, script, me, masks, coefficients).expect(rt, "a server")
}

/// The five servers with these words for masks.
pub fn servers_with(
    rt: &impl Abort,
    alloc: Global,
    masks: [WordList; 5],
) -> Vec<FiveCore<FiveScript>>
    ensures { AreFresh five_batch most_rounds result.items }
{
    let script = script(rt);
    let [one, two, three, four, five] = masks;
    let one = server(rt, alloc, script, 1, one);
    let two = server(rt, alloc, script, 2, two);
    let three = server(rt, alloc, script, 3, three);
    let four = server(rt, alloc, script, 4, four);
    let five = server(rt, alloc, script, 5, five);
    Vec::from_array(alloc, [one, two, three, four, five]).expect(rt, "memory")
}

/// The five servers, each with the words of a seed of its number.
pub fn servers(rt: &impl Abort, alloc: Global) -> Vec<FiveCore<FiveScript>>
    ensures { AreFresh five_batch most_rounds result.items }
{
    let masks = [
        seeded(rt, alloc, 1, 0, 3),
        seeded(rt, alloc, 2, 0, 3),
        seeded(rt, alloc, 3, 0, 3),
        seeded(rt, alloc, 4, 0, 3),
        seeded(rt, alloc, 5, 0, 3),
    ];
    servers_with(rt, alloc, masks)
}
