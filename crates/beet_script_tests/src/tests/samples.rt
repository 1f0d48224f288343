//! What the tests of several crates share.

ghost use Rattle.std.specs.Prelude.{◌≡◌};

use beet_field::{Fe, P, Trio};
use beet_words::{Tape, Word, WordList};
use std::alloc::Global;
use std::process::Abort;

/// The word whose bits are all set.
pub const ONES: u64 = P;

pub fn are(numbers: &[Fe], wanted: &[u64]) -> bool {
    numbers
        .iter()
        .map(|number| number.value())
        .eq(wanted.iter().copied())
}

/// The list of these words.
pub fn list(rt: &impl Abort, alloc: Global, numbers: &[u64]) -> WordList {
    let mut words = Vec::new(alloc);
    for number in numbers {
        let word = Word::of(*number).expect(rt, "a word");
        words.push(word).expect(rt, "memory");
    }
    WordList::of(words)
}

/// A list of these words for each server.
pub fn lists(rt: &impl Abort, alloc: Global, [one, two, three]: [&[u64]; 3]) -> Trio<WordList> {
    Trio {
        one: list(rt, alloc, one),
        two: list(rt, alloc, two),
        three: list(rt, alloc, three),
    }
}

/// A number that is no word.
pub const NO_WORD: u64 = u64::MAX;

/// The tape of one word, or of none if the number is no word.
pub fn tape(rt: &impl Abort, alloc: Global, number: u64) -> Tape
    ensures { result.passed ≡ 0 }
{
    let mut words = WordList::new(alloc);
    if let Some(word) = Word::of(number) {
        words.push(word).expect(rt, "memory");
    }
    Tape::of_words(words)
}
