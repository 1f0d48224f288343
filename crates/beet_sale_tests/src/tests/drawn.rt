//! Sales of bids that are drawn, by the script and by the plain rule.

use super::runs::{run, sold};
use beet_field::Trio;
use beet_gates::Gates;
use beet_words::{Tape, Word, WordList};
use std::alloc::Global;
use std::process::Abort;

/// How many sales are drawn.
const SALES: u64 = 500;

/// The seed of all words.
const SEED: [u8; 32] = [0x5a; 32];

/// How many streams of the seed a sale uses: one for its bids, and one for the masks of each server.
const STREAMS: u64 = 4;

fn words_of(rt: &impl Abort, alloc: Global, stream: u64, count: u32) -> Tape {
    Tape::of_seed(alloc, &SEED, stream, count).expect(rt, "memory")
}

/// As many mask words as a sale of 16 bidders wants.
fn masks_of(rt: &impl Abort, alloc: Global, stream: u64) -> WordList {
    words_of(rt, alloc, stream, 32).into_words()
}

fn word_at(rt: &impl Abort, words: &[Word], place: u64) -> u64 {
    words.get(place as usize).expect(rt, "a word").value()
}

/// How many different bids there may be. The fewer, the more bids are equal.
fn kinds_of(word: u64) -> u64 {
    match word % 4 {
        0 => 2,
        1 => 5,
        2 => 1_000,
        _ => 281_474_976_710_656,
    }
}

/// From 2 to 16 bids.
fn draw_bids(rt: &impl Abort, alloc: Global, stream: u64) -> Vec<u64> {
    let tape = words_of(rt, alloc, stream, 18);
    let words = tape.words();
    let count = word_at(rt, words, 0) % 15 + 2;
    let kinds = kinds_of(word_at(rt, words, 1));
    let mut bids = Vec::new(alloc);
    for place in 2..count + 2 {
        let bid = word_at(rt, words, place).checked_rem(kinds);
        bids.push(bid.expect(rt, "a bid")).expect(rt, "memory");
    }
    bids
}

/// The first place of the greatest bid, and the greatest bid of the others.
fn plain_rule(bids: &[u64]) -> (usize, u64) {
    let mut place = 0;
    let mut best = 0;
    let mut price = 0;
    for (i, bid) in bids.iter().enumerate() {
        if *bid > best {
            place = i;
            best = *bid;
        }
    }
    for (i, bid) in bids.iter().enumerate() {
        if i != place && *bid > price {
            price = *bid;
        }
    }
    (place, price)
}

/// Mask words for each server, of the streams behind this one.
fn masks_behind(rt: &impl Abort, alloc: Global, stream: u64) -> Trio<WordList> {
    Trio {
        one: masks_of(rt, alloc, stream.saturating_add(1)),
        two: masks_of(rt, alloc, stream.saturating_add(2)),
        three: masks_of(rt, alloc, stream.saturating_add(3)),
    }
}

/// Runs a sale, and compares the last two opened numbers with the plain rule.
fn expect_plain(rt: &impl Abort, alloc: Global, gates: Gates, stream: u64) {
    let bids = draw_bids(rt, alloc, stream);
    let (place, price) = plain_rule(bids.as_slice());
    let masks = masks_behind(rt, alloc, stream);
    let (winner, paid) = sold(rt, &run(rt, alloc, gates, bids.as_slice(), masks));
    assert!(rt;
        winner == (place as u64).saturating_add(1),
        "winner of stream {stream}"
    );
    assert!(rt; paid == price, "price of stream {stream}");
}

/// Runs all sales, in turn with chains and with trees.
fn expect_all(rt: &impl Abort, alloc: Global) {
    for sale in 0..SALES {
        let gates = if sale % 2 == 0 {
            Gates::Chain
        } else {
            Gates::Tree
        };
        expect_plain(rt, alloc, gates, sale * STREAMS);
    }
}

#[test]
fn drawn_bids_sell_by_the_plain_rule(rt: HostRuntime) {
    expect_all(&rt, rt.alloc());
}
