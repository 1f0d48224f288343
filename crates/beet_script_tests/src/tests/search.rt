use super::samples::{ONES, are, lists};
use beet_bids::Policy;
use beet_field::{Fe, Trio};
use beet_gates::{ClearRun, Gates, Script, clear_run};
use beet_search::{AuctionScript, Finish};
use beet_words::WordList;
use std::alloc::Global;
use std::array;
use std::process::Abort;

/// So many times the first word, and then the other, sixteen in all.
fn words(rejected: usize, first: u64, other: u64) -> [u64; 16] {
    array::from_fn(|place| if place < rejected { first } else { other })
}

/// The words of three servers, of which so many masks are all ones and all others are 100.
fn masks(rt: &impl Abort, alloc: Global, rejected: usize) -> Trio<WordList> {
    let one = words(rejected, ONES, 100 ^ 7 ^ 9);
    let two = words(rejected, 0, 7);
    let three = words(rejected, 0, 9);
    lists(rt, alloc, [&one, &two, &three])
}

fn numbers(rt: &impl Abort, alloc: Global, sums: &[u64]) -> Vec<Fe> {
    let mut numbers = Vec::new(alloc);
    for sum in sums {
        numbers.push(Fe::reduce(*sum as u128)).expect(rt, "memory");
    }
    numbers
}

/// The run of the script on inputs of its number, with masks that are enough.
fn run(
    rt: &impl Abort,
    alloc: Global,
    script: &AuctionScript,
    inputs: &[Fe],
    masks: &Trio<WordList>,
) -> ClearRun {
    let wanted = script.masks() as usize;
    assert!(rt; masks.one.len() >= wanted);
    assert!(rt; masks.two.len() >= wanted);
    assert!(rt; masks.three.len() >= wanted);
    assert!(rt; inputs.len() == script.inputs() as usize);
    clear_run(alloc, script, inputs, masks).expect(rt, "memory")
}

/// How a run is to end: with a price at a place and what is opened there of the demand and of the supply, or else.
type Ending = Result<(u32, Option<u64>, Option<u64>), Finish>;

/// An opened number, if it is opened.
fn opened(number: Option<u64>) -> Option<Fe> {
    number.map(|n| Fe::reduce(n as u128))
}

/// The end as the script has it.
fn finish_of(ending: Ending) -> Finish {
    match ending {
        Ok((place, volume, supply)) => Finish::Price {
            place,
            volume: opened(volume),
            supply: opened(supply),
        },
        Err(finish) => finish,
    }
}

/// The rounds with chains of gates, and those with trees.
type Rounds = (u32, u32);

/// The rounds with this kind of gates.
fn rounds_with(gates: Gates, (chain, tree): Rounds) -> u32 {
    match gates {
        Gates::Chain => chain,
        Gates::Tree => tree,
    }
}

/// Compares how a run ends, and its rounds.
fn expect_end(
    rt: &impl Abort,
    script: &AuctionScript,
    run: &ClearRun,
    ending: Ending,
    rounds: u32,
) {
    assert!(rt; script.finish(run.opened.as_slice()) == Some(finish_of(ending)));
    assert!(rt; run.rounds == rounds);
}

/// The run of the script on these sums, supply first, if so many masks are rejected.
fn run_on(
    rt: &impl Abort,
    alloc: Global,
    script: &AuctionScript,
    sums: &[u64],
    rejected: usize,
) -> ClearRun {
    let masks = masks(rt, alloc, rejected);
    let inputs = numbers(rt, alloc, sums);
    run(rt, alloc, script, &inputs, &masks)
}

/// The script of a number of prices, which opens what the policy says.
fn script_of(rt: &impl Abort, prices: u32, gates: Gates, policy: Policy) -> AuctionScript {
    AuctionScript::new(prices, gates)
        .expect(rt, "a script")
        .with_policy(policy)
}

/// Compares the numbers that a run opened, if some are wanted.
fn expect_opened(rt: &impl Abort, run: &ClearRun, wanted: Option<&[u64]>) {
    if let Some(numbers) = wanted {
        assert!(rt; are(run.opened.as_slice(), numbers));
    }
}

/// A number of prices, what is opened, sums, how many masks are rejected, the numbers that are opened if these are
/// compared, the end and the rounds.
type Worked = (
    u32,
    Policy,
    &'static [u64],
    usize,
    Option<&'static [u64]>,
    Ending,
    Rounds,
);

/// Runs the book of a case with this kind of gates.
fn expect_book(rt: &impl Abort, alloc: Global, gates: Gates, case: &Worked) {
    let (prices, policy, sums, rejected, wanted, ending, rounds) = case;
    let script = script_of(rt, *prices, gates, *policy);
    let run = run_on(rt, alloc, &script, sums, *rejected);
    expect_end(rt, &script, &run, *ending, rounds_with(gates, *rounds));
    expect_opened(rt, &run, *wanted);
}

/// Runs the book of each case with chains of gates, and with trees.
fn expect_books(rt: &impl Abort, alloc: Global, cases: &[Worked]) {
    for case in cases {
        expect_book(rt, alloc, Gates::Chain, case);
        expect_book(rt, alloc, Gates::Tree, case);
    }
}

/// Books of one price, with the numbers that are opened.
const OPENINGS: [Worked; 6] = [
    (
        1,
        Policy::Volume,
        &[20, 50],
        0,
        Some(&[0, 40, 0]),
        Err(Finish::NoPrice),
        (127, 19),
    ),
    (
        1,
        Policy::Full,
        &[20, 50],
        0,
        Some(&[0, 40, 0]),
        Err(Finish::NoPrice),
        (127, 19),
    ),
    (
        1,
        Policy::Price,
        &[40, 35],
        0,
        Some(&[0, 110, 1]),
        Ok((0, None, None)),
        (127, 19),
    ),
    (
        1,
        Policy::Volume,
        &[40, 35],
        0,
        Some(&[0, 110, 1, 35]),
        Ok((0, Some(35), None)),
        (128, 20),
    ),
    (
        1,
        Policy::Full,
        &[40, 35],
        0,
        Some(&[0, 110, 1, 35, 40]),
        Ok((0, Some(35), Some(40))),
        (128, 20),
    ),
    (
        1,
        Policy::Volume,
        &[40, 35],
        3,
        Some(&[1, 1, 1]),
        Err(Finish::MasksSpent),
        (192, 30),
    ),
];

#[test]
fn opened_numbers_of_one_price(rt: HostRuntime) {
    expect_books(&rt, rt.alloc(), &OPENINGS);
}

/// The most that all bidders can buy at a price.
const MOST: u64 = 562_949_953_421_310_000;

/// The sums of a worked book.
const WORKED: &[u64] = &[0, 20, 40, 60, 50, 50, 35, 10];

const BOOKS: [Worked; 15] = [
    (
        4,
        Policy::Price,
        WORKED,
        0,
        None,
        Ok((2, None, None)),
        (254, 38),
    ),
    (
        4,
        Policy::Price,
        WORKED,
        1,
        None,
        Ok((2, None, None)),
        (318, 48),
    ),
    (
        4,
        Policy::Full,
        WORKED,
        0,
        None,
        Ok((2, Some(35), Some(40))),
        (255, 39),
    ),
    (
        4,
        Policy::Full,
        WORKED,
        3,
        None,
        Err(Finish::MasksSpent),
        (192, 30),
    ),
    (
        4,
        Policy::Volume,
        WORKED,
        0,
        None,
        Ok((2, Some(35), None)),
        (255, 39),
    ),
    (
        4,
        Policy::Volume,
        WORKED,
        1,
        None,
        Ok((2, Some(35), None)),
        (319, 49),
    ),
    (
        4,
        Policy::Volume,
        WORKED,
        3,
        None,
        Err(Finish::MasksSpent),
        (192, 30),
    ),
    (
        4,
        Policy::Volume,
        &[0, 0, 0, 0, 0, 0, 0, 0],
        0,
        None,
        Ok((0, Some(0), None)),
        (382, 58),
    ),
    (
        4,
        Policy::Volume,
        &[0, 30, 40, 50, 50, 30, 20, 10],
        0,
        None,
        Ok((1, Some(30), None)),
        (382, 58),
    ),
    (
        4,
        Policy::Volume,
        &[0, 10, 20, 49, 50, 50, 50, 50],
        0,
        None,
        Err(Finish::NoPrice),
        (254, 38),
    ),
    (
        1,
        Policy::Volume,
        &[0, 0],
        0,
        None,
        Ok((0, Some(0), None)),
        (128, 20),
    ),
    (
        1,
        Policy::Volume,
        &[0, 1],
        0,
        None,
        Err(Finish::NoPrice),
        (127, 19),
    ),
    (
        1,
        Policy::Volume,
        &[0, MOST],
        0,
        None,
        Err(Finish::NoPrice),
        (127, 19),
    ),
    (
        1,
        Policy::Volume,
        &[MOST, MOST],
        0,
        None,
        Ok((0, Some(MOST), None)),
        (128, 20),
    ),
    (
        1,
        Policy::Volume,
        &[MOST, MOST],
        2,
        None,
        Ok((0, Some(MOST), None)),
        (256, 40),
    ),
];

#[test]
fn worked_books(rt: HostRuntime) {
    expect_books(&rt, rt.alloc(), &BOOKS);
}

/// The numbers of rounds, masks, coefficients and wires of a script.
fn bounds_of(script: &AuctionScript) -> (u32, u32, u32, u32) {
    (
        script.rounds(),
        script.masks(),
        script.coefficients(),
        script.wires(),
    )
}

/// Makes the script of the most prices with this kind of gates, and none beyond the limits. Compares its bounds.
fn expect_limits(rt: &impl Abort, gates: Gates, rounds: u32) {
    assert!(rt; AuctionScript::new(0, gates).is_none());
    assert!(rt; AuctionScript::new(4_097, gates).is_none());
    let script = AuctionScript::new(4_096, gates).expect(rt, "a script");
    assert!(rt; bounds_of(&script) == (rounds, 15, 7_680, 20_255));
}

#[test]
fn limits_of_the_prices(rt: HostRuntime) {
    expect_limits(&rt, Gates::Chain, 1_780);
    expect_limits(&rt, Gates::Tree, 268);
}
