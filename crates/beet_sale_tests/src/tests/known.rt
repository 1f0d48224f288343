//! Sales whose winner, price and rounds are known.

use super::runs::{run, sold};
use beet_field::Trio;
use beet_gates::{ClearRun, Gates};
use beet_words::{Word, WordList};
use std::alloc::Global;
use std::process::Abort;

/// A kind of gates, bids, how many masks are rejected, the winner with the price, and the rounds.
type Case = (Gates, &'static [u64], usize, (u64, u64), u32);

const CASES: [Case; 5] = [
    (Gates::Chain, &[700, 900, 800], 0, (2, 800), 509),
    (Gates::Tree, &[700, 900, 800], 0, (2, 800), 77),
    (Gates::Chain, &[900, 900], 0, (1, 900), 255),
    (Gates::Chain, &[900, 900], 2, (1, 900), 383),
    (Gates::Tree, &SIXTEEN, 1, (3, 281_474_976_710_655), 581),
];

/// Bids of which two are the greatest.
const SIXTEEN: [u64; 16] = [
    5,
    0,
    281_474_976_710_655,
    7,
    7,
    1,
    2,
    3,
    281_474_976_710_654,
    9,
    8,
    7,
    6,
    5,
    281_474_976_710_655,
    4,
];

/// So many times the first word, and then the other, 32 in all.
fn list(rt: &impl Abort, alloc: Global, rejected: usize, first: u64, other: u64) -> WordList {
    let mut words = Vec::new(alloc);
    for place in 0..32 {
        let number = if place < rejected { first } else { other };
        let word = Word::of(number).expect(rt, "a word");
        words.push(word).expect(rt, "memory");
    }
    WordList::of(words)
}

/// The run on these bids, if so many masks are all ones and all others are 100.
fn run_after(
    rt: &impl Abort,
    alloc: Global,
    gates: Gates,
    bids: &[u64],
    rejected: usize,
) -> ClearRun {
    let masks = Trio {
        one: list(rt, alloc, rejected, (1 << 61) - 1, 100 ^ 7 ^ 9),
        two: list(rt, alloc, rejected, 0, 7),
        three: list(rt, alloc, rejected, 0, 9),
    };
    run(rt, alloc, gates, bids, masks)
}

/// Runs the sale of a case.
fn expect_case(rt: &impl Abort, alloc: Global, (gates, bids, rejected, wanted, rounds): Case) {
    let run = run_after(rt, alloc, gates, bids, rejected);
    assert!(rt; sold(rt, &run) == wanted);
    assert!(rt; run.rounds == rounds);
}

#[test]
fn known_bids_sell_so(rt: HostRuntime) {
    for case in &CASES {
        expect_case(&rt, rt.alloc(), *case);
    }
}

#[test]
fn a_third_rejected_mask_ends_the_run(rt: HostRuntime) {
    let run = run_after(&rt, rt.alloc(), Gates::Chain, &[900, 900], 3);
    assert!(&rt; run.rounds == 192);
}
