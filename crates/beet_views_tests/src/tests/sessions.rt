//! Two sessions of lots of one bidder each, before server 2.

use super::worlds::{
    BUYS_LESS, KNOWN, KNOWN_SELLS_MORE, Only, SELLS_LESS, SELLS_MORE, UNKNOWN, VOLUME, book,
    words_of_one,
};
use beet_bids::{Book, Outcome, Policy};
use beet_field::{Point, Trio};
use beet_lot_map::{SessionFault, enough_each, session_map};
use beet_words::{Word, WordList, Words};
use std::alloc::Global;
use std::process::Abort;

/// A lot: what its auction opens, and its one bidder.
type Lot = (Policy, Only);

fn books(rt: &impl Abort, alloc: Global, lots: &[Lot]) -> Vec<Book> {
    let mut books = Vec::new(alloc);
    for (policy, bidder) in lots {
        let book = book(rt, alloc, *policy, *bidder);
        books.push(book).expect(rt, "memory");
    }
    books
}

/// Words for as many lots.
fn words(rt: &impl Abort, alloc: Global, lots: &[Lot]) -> Vec<Words> {
    let mut words = Vec::new(alloc);
    for _ in lots {
        words.push(words_of_one(rt, alloc)).expect(rt, "memory");
    }
    words
}

/// The words of the second session, which are mapped from those of the first, or why none is.
fn mapped(
    rt: &impl Abort,
    alloc: Global,
    first: &[Book],
    second: &[Book],
    words: &[Words],
) -> Result<Vec<Words>, SessionFault> {
    assert!(rt; first.len() <= 16 && second.len() <= 16 && words.len() == first.len());
    assert!(rt; enough_each(first, words));
    session_map(alloc, Point::Two, first, second, words)
}

/// How many lots are mapped from a session of these lots to another.
fn mapped_lots(
    rt: &impl Abort,
    alloc: Global,
    first: &[Lot],
    second: &[Lot],
) -> Result<usize, SessionFault> {
    let words = words(rt, alloc, first);
    let first = books(rt, alloc, first);
    let second = books(rt, alloc, second);
    let mapped = mapped(rt, alloc, &first, &second, &words);
    drop((first, second, words));
    Ok(mapped?.len())
}

/// Lots by their bidders, if an auction opens the price and the volume.
const NONE_KNOWN: Lot = (Policy::Volume, UNKNOWN);

const MORE_SOLD: Lot = (Policy::Volume, SELLS_MORE);

const LESS_SOLD: Lot = (Policy::Volume, SELLS_LESS);

const ONE_KNOWN: Lot = (Policy::Volume, KNOWN);

const KNOWN_MORE_SOLD: Lot = (Policy::Volume, KNOWN_SELLS_MORE);

/// A lot if it opens the price alone.
const PRICE_ALONE: Lot = (Policy::Price, UNKNOWN);

/// The same if it buys less.
const FEWER_BOUGHT: Lot = (Policy::Price, BUYS_LESS);

/// Two sessions, and how many lots are mapped or why none is.
type Sessions = (&'static [Lot], &'static [Lot], Result<usize, SessionFault>);

const SESSIONS: [Sessions; 8] = [
    (&[], &[], Ok(0)),
    (&[NONE_KNOWN], &[MORE_SOLD], Ok(1)),
    (&[NONE_KNOWN, ONE_KNOWN], &[MORE_SOLD, ONE_KNOWN], Ok(2)),
    (
        &[NONE_KNOWN, NONE_KNOWN],
        &[LESS_SOLD],
        Err(SessionFault::LotsDiffer(2, 1)),
    ),
    (
        &[NONE_KNOWN, NONE_KNOWN, NONE_KNOWN],
        &[MORE_SOLD, PRICE_ALONE, LESS_SOLD],
        Err(SessionFault::GridDiffers(2)),
    ),
    (
        &[NONE_KNOWN, ONE_KNOWN],
        &[ONE_KNOWN, KNOWN_MORE_SOLD],
        Err(SessionFault::ShapeDiffers(1, 1)),
    ),
    (
        &[NONE_KNOWN, ONE_KNOWN],
        &[NONE_KNOWN, KNOWN_MORE_SOLD],
        Err(SessionFault::OwnBidsDiffer(2, 1)),
    ),
    (
        &[NONE_KNOWN, NONE_KNOWN],
        &[MORE_SOLD, LESS_SOLD],
        Err(SessionFault::OutcomesDiffer(2, VOLUME, Outcome::No)),
    ),
];

/// Maps the sessions of each case.
fn expect_sessions(rt: &impl Abort, alloc: Global, cases: &[Sessions]) {
    for (first, second, lots) in cases {
        assert!(rt; mapped_lots(rt, alloc, first, second) == *lots);
    }
}

#[test]
fn sessions_lot_by_lot(rt: HostRuntime) {
    expect_sessions(&rt, rt.alloc(), &SESSIONS);
}

/// Words of a rule that scatters them: each comes from 64 bits of which the lowest three are dropped.
#[derive(Drop)]
struct Scattered {
    bits: u64,
}

impl Scattered {
    fn next(&mut self) -> u64 {
        self.bits = self
            .bits
            .wrapping_mul(6_364_136_223_846_793_005)
            .wrapping_add(1_442_695_040_888_963_407);
        self.bits >> 3
    }

    /// A list of so many words.
    fn list(&mut self, rt: &impl Abort, alloc: Global, count: usize) -> WordList {
        let mut words = WordList::new(alloc);
        for _ in 0..count {
            let word = Word::of(self.next()).expect(rt, "a word");
            words.push(word).expect(rt, "memory");
        }
        words
    }

    /// A list of so many words for each server.
    fn each(&mut self, rt: &impl Abort, alloc: Global, count: usize) -> Trio<WordList> {
        Trio {
            one: self.list(rt, alloc, count),
            two: self.list(rt, alloc, count),
            three: self.list(rt, alloc, count),
        }
    }

    /// Words for a lot of one bidder: three masks and 1,536 coefficients for each server, and two for the bidder.
    fn words(&mut self, rt: &impl Abort, alloc: Global) -> Words {
        Words {
            masks: self.each(rt, alloc, 3),
            coefficients: self.each(rt, alloc, 1_536),
            bidders: vec![in alloc; self.list(rt, alloc, 2)].expect(rt, "memory"),
        }
    }
}

/// Whether two lists hold the same words.
fn are_same(one: &WordList, other: &WordList) -> bool {
    let other = other.as_slice().iter().map(|word| word.value());
    one.as_slice().iter().map(|word| word.value()).eq(other)
}

/// Whether the lists of three servers do.
fn same_lists(one: &Trio<WordList>, other: &Trio<WordList>) -> bool {
    are_same(&one.one, &other.one)
        && are_same(&one.two, &other.two)
        && are_same(&one.three, &other.three)
}

/// Whether two lots have the same words.
fn same_words(one: &Words, other: &Words) -> bool {
    let mut bidders = one.bidders.len() == other.bidders.len();
    for (list, other) in one.bidders.iter().zip(other.bidders.iter()) {
        bidders = bidders && are_same(list, other);
    }
    bidders
        && same_lists(&one.masks, &other.masks)
        && same_lists(&one.coefficients, &other.coefficients)
}

/// How many lots have the same words as the lot at their place in another session.
fn count_same(one: &[Words], other: &[Words]) -> usize {
    one.iter()
        .zip(other.iter())
        .filter(|(one, other)| same_words(one, other))
        .count()
}

/// Scattered words of a session go to another and back again: there those of the lots that differ are others, and back
/// all are as they were.
#[test]
fn words_of_sessions_go_back(rt: HostRuntime) {
    let alloc = rt.alloc();
    let mut scattered = Scattered { bits: 7 };
    let mut words = Vec::new(alloc);
    for _ in 0..3 {
        let lot = scattered.words(&rt, alloc);
        words.push(lot).expect(&rt, "memory");
    }
    let first = books(&rt, alloc, &[NONE_KNOWN, ONE_KNOWN, PRICE_ALONE]);
    let second = books(&rt, alloc, &[MORE_SOLD, ONE_KNOWN, FEWER_BOUGHT]);
    let there = mapped(&rt, alloc, &first, &second, &words).expect(&rt, "a map");
    assert!(&rt; there.len() == 3 && count_same(&there, &words) == 1);
    let back = mapped(&rt, alloc, &second, &first, &there).expect(&rt, "a map");
    assert!(&rt; back.len() == 3 && count_same(&back, &words) == 3);
}
