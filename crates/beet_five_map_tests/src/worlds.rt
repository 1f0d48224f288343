use beet_bids::{Bidder, Book, Curve, Grid, outcome};
use beet_coalition_map::Watchers;
use beet_field::{P, Point};
use beet_five_dealing::FiveWords;
use beet_five_map::{FiveMapFault, enough, five_map};
use beet_gates::Gates;
use beet_plan::{most_coefficients, most_masks};
use beet_words::{Tape, Word, WordList};
use std::alloc::Global;
use std::process::Abort;

/// How many prices there are.
const PRICES: u32 = 3;

/// How many pairs of books are drawn for each pair of servers.
const DRAWN: u64 = 6;

/// The marks of the bidders.
const MARKS: [Option<Point>; 6] = [
    None,
    Some(Point::One),
    Some(Point::Two),
    Some(Point::Three),
    None,
    Some(Point::One),
];

/// The same, but for the third bidder.
const OTHER_MARKS: [Option<Point>; 6] = [
    None,
    Some(Point::One),
    None,
    Some(Point::Three),
    None,
    Some(Point::One),
];

/// The next number of a sequence that looks like chance, below 2^31.
fn next(number: u64) -> u64 {
    ((number % (1 << 31)) * 1_103_515_245 + 12_345) % (1 << 31)
}

/// A curve that is drawn from a seed: steps of one height, down and up.
fn curve(rt: &impl Abort, alloc: Global, grid: &Grid, seed: u64) -> Curve {
    let one = next(next(seed));
    let two = next(one);
    let mut buy = Vec::new(alloc);
    let mut sell = Vec::new(alloc);
    for place in 0..PRICES as u64 {
        let down = PRICES as u64 - place;
        buy.push((one >> 8) % 40 + (one >> 16) % 9 * down)
            .expect(rt, "memory");
        sell.push((two >> 8) % 40 + (two >> 16) % 9 * place)
            .expect(rt, "memory");
    }
    Curve::of(grid, buy, sell).expect(rt, "a curve")
}

/// Whether a bidder with this mark is known to one of the two.
fn is_own(two: Watchers, known: Option<Point>) -> bool {
    match known {
        Some(server) => server.number() == two.a as u64 || server.number() == two.b as u64,
        None => false,
    }
}

/// A book whose bidders are drawn from a seed, and those that one of the two knows from another.
fn book(
    rt: &impl Abort,
    alloc: Global,
    marks: &[Option<Point>],
    two: Watchers,
    own: u64,
    seed: u64,
) -> Book {
    let grid = Grid::new(100, 5, PRICES, Gates::Chain).expect(rt, "a grid");
    let mut bidders = Vec::new(alloc);
    for (i, known) in marks.iter().enumerate() {
        let drawn = if is_own(two, *known) { own } else { seed };
        let curve = curve(rt, alloc, &grid, drawn % 1_000 * 8 + i as u64 % 8);
        let known = *known;
        bidders.push(Bidder { known, curve }).expect(rt, "memory");
    }
    Book::new(grid, bidders).expect(rt, "a book")
}

/// So many lists of words, drawn from a seed.
fn lists(rt: &impl Abort, alloc: Global, count: u64, stream: u64, length: u32) -> Vec<WordList> {
    let mut lists = Vec::new(alloc);
    for k in 0..count {
        let tape = Tape::of_seed(alloc, &[7; 32], stream % 8 * 8 + k % 8, length).expect(
            rt, "memory",
        );
        lists.push(tape.into_words()).expect(rt, "memory");
    }
    lists
}

/// The word whose bits are all set.
const ONES: u64 = P;

/// The words of server 1 for the four masks that three prices may want, if those of all others are 0. One mask is
/// rejected, or two, or three, so that the masks are spent.
const MASKS: [[u64; 4]; 4] = [
    [ONES, 0, 0, 0],
    [0, ONES, 5, 0],
    [ONES, 6, ONES, 7],
    [ONES, ONES, 8, ONES],
];

/// The list of these words.
fn list(rt: &impl Abort, alloc: Global, numbers: &[u64]) -> WordList {
    let mut words = WordList::new(alloc);
    for number in numbers {
        let word = Word::of(*number).expect(rt, "a word");
        words.push(word).expect(rt, "memory");
    }
    words
}

/// Words for a book, of which server 1 has these for masks, and all others 0.
fn words_with(rt: &impl Abort, alloc: Global, masks: &[u64; 4]) -> FiveWords {
    let mut words = words(rt, alloc);
    let mut lists = Vec::new(alloc);
    lists.push(list(rt, alloc, masks)).expect(rt, "memory");
    for _ in 1..5 {
        lists.push(list(rt, alloc, &[0; 4])).expect(rt, "memory");
    }
    words.masks = lists;
    words
}

/// Words for a book.
fn words(rt: &impl Abort, alloc: Global) -> FiveWords {
    FiveWords {
        masks: lists(rt, alloc, 5, 1, most_masks(PRICES)),
        coefficients: lists(rt, alloc, 5, 2, 2 * most_coefficients(PRICES)),
        bidders: lists(rt, alloc, 6, 3, 4 * PRICES),
    }
}

/// Whether two lists hold the same words.
fn same(one: &[WordList], other: &[WordList]) -> bool {
    one.len() == other.len()
        && one
            .iter()
            .zip(other.iter())
            .all(|(one, other)| one.as_slice() == other.as_slice())
}

/// The words for the two in the world of the second book.
fn mapped(
    rt: &impl Abort,
    alloc: Global,
    two: Watchers,
    first: &Book,
    second: &Book,
    words: &FiveWords,
) -> Result<FiveWords, FiveMapFault> {
    assert!(rt; first.grid() == second.grid());
    assert!(rt; first.grid().gates() == Gates::Chain);
    assert!(rt; enough(first, words));
    five_map(alloc, two, first, second, words)
}

/// The word at a place of a list.
fn word(rt: &impl Abort, list: &WordList, place: usize) -> Word {
    *list.as_slice().get(place).expect(rt, "a word")
}

/// Whether the exclusive or of the words at a place is all ones.
fn is_rejected(rt: &impl Abort, lists: &[WordList], place: usize) -> bool {
    let mut mask = Word::of(0).expect(rt, "a word");
    for list in lists {
        mask = mask.xor(word(rt, list, place));
    }
    mask.is_ones()
}

/// The same masks are rejected in both worlds, and their words are the same.
fn expect_rejected(rt: &impl Abort, words: &FiveWords, there: &FiveWords) {
    for place in 0..most_masks(PRICES) as usize {
        let rejected = is_rejected(rt, &words.masks, place);
        assert!(rt; is_rejected(rt, &there.masks, place) == rejected);
        for (one, other) in words.masks.iter().zip(there.masks.iter()) {
            assert!(rt; !rejected || word(rt, one, place) == word(rt, other, place));
        }
    }
}

/// Maps the words, and back. The answer is whether the books have the same outcome.
fn there_and_back(
    rt: &impl Abort,
    alloc: Global,
    two: Watchers,
    first: &Book,
    second: &Book,
    words: &FiveWords,
) -> bool {
    match mapped(rt, alloc, two, first, second, words) {
        Ok(there) => {
            expect_rejected(rt, words, &there);
            let back = mapped(rt, alloc, two, second, first, &there).expect(rt, "a map");
            assert!(rt; same(&back.masks, &words.masks));
            assert!(rt; same(&back.coefficients, &words.coefficients));
            assert!(rt; same(&back.bidders, &words.bidders));
            assert!(rt; !same(&there.bidders, &words.bidders));
            drop((there, back));
            true
        }
        Err(fault) => {
            assert!(rt; fault == FiveMapFault::OutcomesDiffer(outcome(first), outcome(second)));
            false
        }
    }
}

/// Whether some of the pairs of books that are drawn for two servers have the same outcome.
fn some_agree(rt: &impl Abort, alloc: Global, two: Watchers, words: &FiveWords) -> bool {
    let mut agree = false;
    for seed in 0..DRAWN {
        let first = book(rt, alloc, &MARKS, two, seed, seed);
        let second = book(rt, alloc, &MARKS, two, seed, seed + 100);
        if there_and_back(rt, alloc, two, &first, &second, words) {
            agree = true;
        }
        drop((first, second));
    }
    agree
}

#[test]
fn words_go_there_and_back(rt: HostRuntime) {
    let words = words(&rt, rt.alloc());
    for a in 1..5 {
        for b in a + 1..6 {
            let two = Watchers::of(a, b).expect(&rt, "two servers");
            assert!(rt; some_agree(&rt, rt.alloc(), two, &words));
        }
    }
    drop(words);
}

/// Pairs of servers for which the words of server 3, of 2 and of 1 turn masks.
const PAIRS: [(u32, u32); 3] = [(1, 2), (1, 4), (3, 5)];

#[test]
fn rejected_masks_stay(rt: HostRuntime) {
    for masks in &MASKS {
        let words = words_with(&rt, rt.alloc(), masks);
        for (a, b) in PAIRS {
            let two = Watchers::of(a, b).expect(&rt, "two servers");
            assert!(rt; some_agree(&rt, rt.alloc(), two, &words));
        }
        drop(words);
    }
}

/// Why words are not mapped between two books, of which the second has these marks, and its own bidders from this seed.
fn fault(
    rt: &impl Abort,
    alloc: Global,
    two: Watchers,
    marks: &[Option<Point>],
    own: u64,
) -> Option<FiveMapFault> {
    let first = book(rt, alloc, &MARKS, two, 0, 0);
    let second = book(rt, alloc, marks, two, own, 0);
    let words = words(rt, alloc);
    let fault = mapped(rt, alloc, two, &first, &second, &words).err();
    drop((first, second, words));
    fault
}

#[test]
fn books_that_differ(rt: HostRuntime) {
    let alloc = rt.alloc();
    let two = Watchers::of(2, 4).expect(&rt, "two servers");
    let shape = fault(&rt, alloc, two, &OTHER_MARKS, 0);
    assert!(rt; shape == Some(FiveMapFault::ShapeDiffers(3)));
    let own = fault(&rt, alloc, two, &MARKS, 1);
    assert!(rt; own == Some(FiveMapFault::OwnBidsDiffer(3)));
    let lowest = Watchers::of(1, 2).expect(&rt, "two servers");
    let own = fault(&rt, alloc, lowest, &MARKS, 1);
    assert!(rt; own == Some(FiveMapFault::OwnBidsDiffer(2)));
    let highest = Watchers::of(4, 5).expect(&rt, "two servers");
    let none = fault(&rt, alloc, highest, &MARKS, 1);
    assert!(rt; none.is_none());
}
