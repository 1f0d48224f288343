use beet_auction_map::{
    MapFault, agreement, enough, input_lines, map_bidders, map_masks, world_map,
};
use beet_bids::{Bidder, Book, Curve, Grid, Outcome, Policy};
use beet_field::{Fe, P, Point, Trio};
use beet_gates::Gates;
use beet_turned::turn;
use beet_words::{Word, WordList, Words, count_accepted};
use std::alloc::Global;
use std::process::Abort;

/// The word of ones.
const ONES: u64 = P;

/// A half in the field.
const HALF: u64 = 1_152_921_504_606_846_976;

/// The turned mask, as numbers.
fn turned(mask: u64, lost: u64) -> Option<u64> {
    let r = Word::of(mask)?;
    let d = Fe::of(lost)?;
    Some(turn(r, d).value())
}

#[test]
fn turned_masks(rt: HostRuntime) {
    assert!(rt; turned(5, ONES - 3) == Some(2));
    assert!(rt; turned(ONES - 1, 1) == Some(0));
    assert!(rt; turned(ONES, 9) == Some(ONES));
}

/// A bidder: the server that knows it, and what it sells and buys at the one price.
pub(crate) type Only = (Option<Point>, u64, u64);

/// A bidder that no server knows, and the same if it sells one more.
pub(crate) const UNKNOWN: Only = (None, 40, 35);

pub(crate) const SELLS_MORE: Only = (None, 41, 35);

/// The first if there is too little supply for a price.
pub(crate) const SELLS_LESS: Only = (None, 34, 35);

/// The first if it buys one less.
pub(crate) const BUYS_LESS: Only = (None, 40, 34);

/// The same bidders if server 2 knows them.
pub(crate) const KNOWN: Only = (Some(Point::Two), 40, 35);

pub(crate) const KNOWN_SELLS_MORE: Only = (Some(Point::Two), 41, 35);

/// A book of one bidder over a grid of one price with this policy.
pub(crate) fn book(
    rt: &impl Abort,
    alloc: Global,
    policy: Policy,
    (known, sell, buy): Only,
) -> Book {
    let grid = Grid::new(100, 5, 1, Gates::Chain).expect(rt, "a grid");
    let grid = grid.with_policy(policy);
    let buy = vec![in alloc; buy].expect(rt, "memory");
    let sell = vec![in alloc; sell].expect(rt, "memory");
    let curve = Curve::of(&grid, buy, sell).expect(rt, "a curve");
    let bidders = vec![in alloc; Bidder { known, curve }].expect(rt, "memory");
    Book::new(grid, bidders).expect(rt, "a book")
}

fn words(rt: &impl Abort, alloc: Global, numbers: &[u64]) -> WordList {
    let mut words = Vec::new(alloc);
    for number in numbers {
        let word = Word::of(*number).expect(rt, "a word");
        words.push(word).expect(rt, "memory");
    }
    WordList::of(words)
}

/// Whether the list holds these words.
fn holds(list: &WordList, numbers: &[u64]) -> bool {
    list.as_slice()
        .iter()
        .map(|word| word.value())
        .eq(numbers.iter().copied())
}

/// A list of these words for each server.
fn lists(rt: &impl Abort, alloc: Global, [one, two, three]: [&[u64]; 3]) -> Trio<WordList> {
    Trio {
        one: words(rt, alloc, one),
        two: words(rt, alloc, two),
        three: words(rt, alloc, three),
    }
}

/// Four words for server `at`; the other two servers' words are 0.
fn masks_of(rt: &impl Abort, alloc: Global, at: Point, numbers: &[u64]) -> Trio<WordList> {
    let zeros = [0; 4];
    match at {
        Point::One => lists(rt, alloc, [numbers, &zeros, &zeros]),
        Point::Two => lists(rt, alloc, [&zeros, numbers, &zeros]),
        Point::Three => lists(rt, alloc, [&zeros, &zeros, numbers]),
    }
}

/// The mapped masks for server `me`.
fn mapped_masks(
    rt: &impl Abort,
    alloc: Global,
    me: Point,
    first: &Book,
    second: &Book,
    masks: &Trio<WordList>,
) -> Trio<WordList> {
    assert!(rt; first.grid().prices() == second.grid().prices());
    map_masks(alloc, me, first, second, masks).expect(rt, "memory")
}

/// Whether the words of server `at` become these for server `me`, if supply is one more in the second world.
fn becomes(
    rt: &impl Abort,
    alloc: Global,
    me: Point,
    at: Point,
    before: &[u64],
    after: &[u64],
) -> bool {
    let first = book(rt, alloc, Policy::Volume, UNKNOWN);
    let second = book(rt, alloc, Policy::Volume, SELLS_MORE);
    let masks = masks_of(rt, alloc, at, before);
    let mapped = mapped_masks(rt, alloc, me, &first, &second, &masks);
    let becomes = holds(mapped.get(at), after);
    drop((first, second, masks, mapped));
    becomes
}

/// For a server the words of another, and what becomes of them.
type Masked = (Point, Point, [u64; 4], [u64; 4]);

const MASKS: [Masked; 5] = [
    (Point::Three, Point::One, [7, 9, 11, 13], [5, 9, 11, 13]),
    (Point::One, Point::Two, [7, 9, 11, 13], [5, 9, 11, 13]),
    (Point::One, Point::Three, [7, 9, 11, 13], [7, 9, 11, 13]),
    (Point::Two, Point::One, [ONES, 7, 9, 11], [ONES, 5, 9, 11]),
    (
        Point::Two,
        Point::One,
        [ONES, ONES, ONES, 7],
        [ONES, ONES, ONES, 7],
    ),
];

/// Maps the words of each case.
fn expect_masks(rt: &impl Abort, alloc: Global, cases: &[Masked]) {
    for (me, at, before, after) in cases {
        assert!(rt; becomes(rt, alloc, *me, *at, before, after));
    }
}

#[test]
fn masks_of_the_second_world(rt: HostRuntime) {
    expect_masks(&rt, rt.alloc(), &MASKS);
}

/// What tells the books of two bidders apart for server 2, by itself and if words are to be mapped.
fn differences(
    rt: &impl Abort,
    alloc: Global,
    policy: Policy,
    first: Only,
    second: Only,
) -> [Option<MapFault>; 2] {
    let first = book(rt, alloc, policy, first);
    let second = book(rt, alloc, policy, second);
    assert!(rt; first.grid() == second.grid());
    let alone = agreement(Point::Two, &first, &second).err();
    let words = words_of_one(rt, alloc);
    let mapped = mapped_words(rt, alloc, &first, &second, &words).err();
    drop((first, second, words));
    [alone, mapped]
}

/// Outcomes with the one price: the volume of 35 is that of the first bidder's book, and of 34 that of one that buys
/// less.
pub(crate) const VOLUME: Outcome = Outcome::Price {
    place: 0,
    price: 100,
    volume: Some(35),
    supply: None,
};

const LESS_VOLUME: Outcome = Outcome::Price {
    place: 0,
    price: 100,
    volume: Some(34),
    supply: None,
};

/// The same with the supply, and that of a book that sells more.
const FULL: Outcome = Outcome::Price {
    place: 0,
    price: 100,
    volume: Some(35),
    supply: Some(40),
};

const LESS_VOLUME_FULL: Outcome = Outcome::Price {
    place: 0,
    price: 100,
    volume: Some(34),
    supply: Some(40),
};

const MORE_SUPPLY: Outcome = Outcome::Price {
    place: 0,
    price: 100,
    volume: Some(35),
    supply: Some(41),
};

/// A policy and two books, and what tells them apart.
type Differing = (Policy, Only, Only, Option<MapFault>);

const BOOKS: [Differing; 5] = [
    (Policy::Volume, UNKNOWN, SELLS_MORE, None),
    (Policy::Volume, KNOWN, KNOWN, None),
    (
        Policy::Volume,
        KNOWN,
        UNKNOWN,
        Some(MapFault::ShapeDiffers(1)),
    ),
    (
        Policy::Volume,
        KNOWN,
        KNOWN_SELLS_MORE,
        Some(MapFault::OwnBidsDiffer(1)),
    ),
    (
        Policy::Volume,
        UNKNOWN,
        SELLS_LESS,
        Some(MapFault::OutcomesDiffer(VOLUME, Outcome::No)),
    ),
];

/// Compares what tells the books of each case apart.
fn expect_differences(rt: &impl Abort, alloc: Global, cases: &[Differing]) {
    for (policy, first, second, fault) in cases {
        let found = differences(rt, alloc, *policy, *first, *second);
        assert!(rt; found == [*fault, *fault]);
    }
}

#[test]
fn differences_of_books(rt: HostRuntime) {
    expect_differences(&rt, rt.alloc(), &BOOKS);
}

/// Books with the same price, of which only what is opened beside it may tell them apart.
const OPENED: [Differing; 6] = [
    (Policy::Price, UNKNOWN, BUYS_LESS, None),
    (
        Policy::Volume,
        UNKNOWN,
        BUYS_LESS,
        Some(MapFault::OutcomesDiffer(VOLUME, LESS_VOLUME)),
    ),
    (
        Policy::Full,
        UNKNOWN,
        BUYS_LESS,
        Some(MapFault::OutcomesDiffer(FULL, LESS_VOLUME_FULL)),
    ),
    (Policy::Price, UNKNOWN, SELLS_MORE, None),
    (Policy::Volume, UNKNOWN, SELLS_MORE, None),
    (
        Policy::Full,
        UNKNOWN,
        SELLS_MORE,
        Some(MapFault::OutcomesDiffer(FULL, MORE_SUPPLY)),
    ),
];

#[test]
fn differences_that_are_opened(rt: HostRuntime) {
    expect_differences(&rt, rt.alloc(), &OPENED);
}

/// The mapped words of the one bidder of two books, for server `me`.
fn mapped_bidders(
    rt: &impl Abort,
    alloc: Global,
    me: Point,
    first: &Book,
    second: &Book,
    lists: &[WordList],
) -> Vec<WordList> {
    assert!(rt; first.grid() == second.grid());
    assert!(rt; first.grid().prices() == 1);
    if let Err(MapFault::ShapeDiffers(_)) = agreement(me, first, second) {
        panic!(rt; "two shapes");
    }
    assert!(rt; lists.len() == 1);
    assert!(rt; lists.len() == first.bidders().len());
    assert!(rt; count_accepted(lists[0].as_slice()) >= 2);
    map_bidders(alloc, me, first, second, lists).expect(rt, "memory")
}

/// Whether these words of a bidder become those, for server `me`, if the bidder has another mark and curve in the
/// second world.
fn bidder_becomes(
    rt: &impl Abort,
    alloc: Global,
    me: Point,
    (first, second): (Only, Only),
    before: &[u64],
    after: &[u64],
) -> bool {
    let first = book(rt, alloc, Policy::Volume, first);
    let second = book(rt, alloc, Policy::Volume, second);
    let lists = vec![in alloc; words(rt, alloc, before)].expect(rt, "memory");
    let mapped = mapped_bidders(rt, alloc, me, &first, &second, &lists);
    mapped.len() == 1 && holds(&mapped[0], after)
}

/// For a server the bidder in both worlds, its words, and what becomes of them.
type Moved = (Point, Only, Only, &'static [u64], &'static [u64]);

/// Maps the words of the bidder of each case.
fn expect_moved(rt: &impl Abort, alloc: Global, cases: &[Moved]) {
    for (me, first, second, before, after) in cases {
        assert!(rt; bidder_becomes(rt, alloc, *me, (*first, *second), before, after));
    }
}

/// The slope 1 of 45 becomes 1 + 45/2 for server 2, with which 0 has the same point, 47.
const SLOPE: [Moved; 1] = [(
    Point::Two,
    (None, 60, 45),
    (None, 60, 0),
    &[1, 9],
    &[HALF + 23, 9],
)];

#[test]
fn slope_of_another_quantity(rt: HostRuntime) {
    expect_moved(&rt, rt.alloc(), &SLOPE);
}

/// The bidder that no server knows if it buys and sells one more, and the same if server 2 knows it.
const MORE: Only = (None, 41, 36);

const KNOWN_MORE: Only = (Some(Point::Two), 41, 36);

const BIDDERS: [Moved; 4] = [
    (Point::One, UNKNOWN, MORE, &[3, 4, 5], &[2, 3, 5]),
    (
        Point::One,
        KNOWN,
        KNOWN_MORE,
        &[0, ONES, 4, ONES, 5],
        &[ONES - 1, ONES, 3, ONES, 5],
    ),
    (Point::Two, UNKNOWN, MORE, &[3, 4], &[HALF + 2, HALF + 3]),
    (Point::Two, KNOWN, KNOWN_MORE, &[3, 4], &[3, 4]),
];

#[test]
fn bidders_of_the_second_world(rt: HostRuntime) {
    expect_moved(&rt, rt.alloc(), &BIDDERS);
}

/// Compares the two lines of a book of one bidder with these words.
fn expect_lines(rt: &impl Abort, alloc: Global, book: &Book, lists: &[WordList]) {
    assert!(rt; lists.len() == book.bidders().len());
    let lines = input_lines(alloc, book, lists).expect(rt, "memory");
    assert!(rt; lines.len() == 2);
    assert!(rt; lines[0].value.value() == 40 && lines[0].slope.value() == 4);
    assert!(rt; lines[1].value.value() == 35 && lines[1].slope.value() == 3);
}

#[test]
fn lines_of_the_inputs(rt: HostRuntime) {
    let book = book(&rt, rt.alloc(), Policy::Volume, UNKNOWN);
    let words = words(&rt, rt.alloc(), &[ONES, 3, 4, 5]);
    let lists = vec![in rt.alloc(); words].expect(&rt, "memory");
    expect_lines(&rt, rt.alloc(), &book, &lists);
}

/// Appends a word so many times.
fn push_many(rt: &impl Abort, words: &mut WordList, number: u64, count: usize) {
    let word = Word::of(number).expect(rt, "a word");
    for _ in 0..count {
        words.push(word).expect(rt, "memory");
    }
}

/// So many all-ones words, and then so many others.
fn many(rt: &impl Abort, alloc: Global, (rejected, other): (usize, usize)) -> WordList {
    let mut words = WordList::new(alloc);
    push_many(rt, &mut words, ONES, rejected);
    push_many(rt, &mut words, 1, other);
    words
}

/// Lists for the three servers, of so many all-ones words and so many others.
fn many_each(
    rt: &impl Abort,
    alloc: Global,
    [one, two, three]: [(usize, usize); 3],
) -> Trio<WordList> {
    Trio {
        one: many(rt, alloc, one),
        two: many(rt, alloc, two),
        three: many(rt, alloc, three),
    }
}

/// How many words there are: masks of server 1, coefficients of server 2 that are all ones and others, and words of the
/// one bidder.
type Counts = (usize, usize, usize, usize);

/// Words of these numbers; there are more than enough of the others.
fn words_of_counts(
    rt: &impl Abort,
    alloc: Global,
    (masks, rejected, coefficients, bidder): Counts,
) -> Words {
    Words {
        masks: many_each(rt, alloc, [(0, masks), (3, 0), (0, 9)]),
        coefficients: many_each(
            rt,
            alloc,
            [(0, 1_536), (rejected, coefficients), (0, 2_000)],
        ),
        bidders: vec![in alloc; many(rt, alloc, (0, bidder))].expect(rt, "memory"),
    }
}

/// Whether so many words are enough for a book of one price.
fn are_enough(rt: &impl Abort, alloc: Global, counts: Counts) -> bool {
    let book = book(rt, alloc, Policy::Volume, UNKNOWN);
    let words = words_of_counts(rt, alloc, counts);
    let enough = enough(&book, &words);
    drop((book, words));
    enough
}

/// Numbers of words, and whether they are enough.
const COUNTS: [(Counts, bool); 6] = [
    ((3, 0, 1_536, 2), true),
    ((3, 8, 1_536, 2), true),
    ((3, 9, 1_536, 2), false),
    ((3, 0, 1_535, 2), false),
    ((2, 0, 1_536, 2), false),
    ((3, 0, 1_536, 1), false),
];

/// Compares whether the words of each case are enough.
fn expect_counts(rt: &impl Abort, alloc: Global, cases: &[(Counts, bool)]) {
    for (counts, expected) in cases {
        assert!(rt; are_enough(rt, alloc, *counts) == *expected);
    }
}

#[test]
fn words_that_are_enough(rt: HostRuntime) {
    expect_counts(&rt, rt.alloc(), &COUNTS);
}

/// Words for a book of one price and one bidder: masks 7, 9, 11 of server 1, and the bidder's words 3 and 4.
pub(crate) fn words_of_one(rt: &impl Abort, alloc: Global) -> Words {
    Words {
        masks: lists(rt, alloc, [&[7, 9, 11], &[0, 0, 0], &[0, 0, 0]]),
        coefficients: many_each(rt, alloc, [(2, 1_536), (0, 1_536), (1, 1_540)]),
        bidders: vec![in alloc; words(rt, alloc, &[3, 4])].expect(rt, "memory"),
    }
}

/// The words for server 2 in the second world of two books.
fn mapped_words(
    rt: &impl Abort,
    alloc: Global,
    first: &Book,
    second: &Book,
    words: &Words,
) -> Result<Words, MapFault> {
    assert!(rt; first.grid() == second.grid());
    assert!(rt; enough(first, words));
    world_map(alloc, Point::Two, first, second, words)
}

/// The same of the books of the first bidder and of this one.
fn mapped(rt: &impl Abort, alloc: Global, policy: Policy, second: Only) -> Words {
    let first = book(rt, alloc, policy, UNKNOWN);
    let second = book(rt, alloc, policy, second);
    let words = words_of_one(rt, alloc);
    let mapped = mapped_words(rt, alloc, &first, &second, &words);
    drop((first, second, words));
    mapped.expect(rt, "a map")
}

/// Compares the masks of a mapped world, and the one bidder's words.
fn expect_moved_words(rt: &impl Abort, mapped: &Words, bidder: &[u64]) {
    assert!(rt; holds(&mapped.masks.one, &[5, 9, 11]));
    assert!(rt; holds(&mapped.masks.two, &[0, 0, 0]));
    assert!(rt; mapped.bidders.len() == 1);
    assert!(rt; holds(&mapped.bidders[0], bidder));
}

/// Compares the coefficients of a mapped world, if supply exceeds demand by one more than in the first.
fn expect_moved_coefficients(rt: &impl Abort, mapped: &Trio<WordList>) {
    assert!(rt; mapped.one.as_slice().len() == 1_538);
    let mut own = mapped.two.as_slice().iter();
    assert!(rt; own.all(|word| word.value() == 1));
    let mut moved = mapped.three.as_slice().iter();
    assert!(rt; !moved.all(|word| word.value() == 1 || word.is_ones()));
}

/// What is opened, the second book, and the one bidder's words in the second world.
type Mapped = (Policy, Only, [u64; 2]);

const MAPPED: [Mapped; 3] = [
    (Policy::Price, SELLS_MORE, [3, HALF + 3]),
    (Policy::Price, BUYS_LESS, [HALF + 3, 4]),
    (Policy::Volume, SELLS_MORE, [3, HALF + 3]),
];

/// Maps the world of each case.
fn expect_mapped(rt: &impl Abort, alloc: Global, cases: &[Mapped]) {
    for (policy, second, bidder) in cases {
        let mapped = mapped(rt, alloc, *policy, *second);
        expect_moved_words(rt, &mapped, bidder);
        expect_moved_coefficients(rt, &mapped.coefficients);
        drop(mapped);
    }
}

#[test]
fn words_of_the_second_world(rt: HostRuntime) {
    expect_mapped(&rt, rt.alloc(), &MAPPED);
}
