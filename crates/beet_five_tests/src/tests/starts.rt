//! Servers that do not start, since they have too few words.

use super::servers::{ONES, first_server, list, seeded};
use beet_five_server::FiveFault;
use beet_words::{Word, WordList};
use std::alloc::Global;
use std::process::Abort;

/// How many words a server has for masks and for numbers, and why it does not start. It wants three masks, and two
/// numbers for each of the 512 secrets of each mask.
type Case = (u32, u32, Option<FiveFault>);

const CASES: [Case; 6] = [
    (3, 3_072, None),
    (3, 3_071, Some(FiveFault::TooFewWords(3_071))),
    (2, 3_072, Some(FiveFault::TooFewMasks(2))),
    (0, 3_072, Some(FiveFault::TooFewMasks(0))),
    (2, 3_071, Some(FiveFault::TooFewWords(3_071))),
    (0, 0, Some(FiveFault::TooFewWords(0))),
];

/// Why server 1 does not start with these words for masks and for numbers.
fn fault(
    rt: &impl Abort,
    alloc: Global,
    masks: WordList,
    coefficients: WordList,
) -> Option<FiveFault> {
    first_server(rt, alloc, masks, coefficients).err()
}

#[test]
fn too_few_words(rt: HostRuntime) {
    for (masks, coefficients, wanted) in &CASES {
        let masks = seeded(&rt, rt.alloc(), 1, 0, *masks);
        let coefficients = seeded(&rt, rt.alloc(), 1, 1, *coefficients);
        assert!(&rt; fault(&rt, rt.alloc(), masks, coefficients) == *wanted);
    }
}

/// So many words of a seed, and then one of ones and these.
fn with_ones(rt: &impl Abort, alloc: Global, count: u32, more: &[u64]) -> WordList {
    let mut words = seeded(rt, alloc, 1, 1, count);
    let ones = Word::of(ONES).expect(rt, "a word");
    words.push(ones).expect(rt, "memory");
    for number in more {
        let word = Word::of(*number).expect(rt, "a word");
        words.push(word).expect(rt, "memory");
    }
    words
}

#[test]
fn a_word_of_ones_is_a_mask_and_no_number(rt: HostRuntime) {
    let alloc = rt.alloc();
    let few = with_ones(&rt, alloc, 3_071, &[]);
    let found = fault(&rt, alloc, list(&rt, alloc, &[ONES; 3]), few);
    assert!(&rt; found == Some(FiveFault::TooFewWords(3_071)));
    let enough = with_ones(&rt, alloc, 3_071, &[6]);
    let none = fault(&rt, alloc, list(&rt, alloc, &[ONES; 3]), enough);
    assert!(&rt; none.is_none());
}
