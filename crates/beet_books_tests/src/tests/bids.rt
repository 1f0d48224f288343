use super::samples::{Kind, Refused, expect_refusals, grid_of};
use beet_bids::{Bidder, Book, Curve, Grid, Outcome, Policy, outcome, read_auction, read_bid};
use beet_gates::Gates;
use std::alloc::Global;
use std::process::Abort;

/// The sizes of grids, and how many comparisons find a price of theirs.
const COMPARISONS: [(u32, u32); 7] = [
    (1, 1),
    (2, 2),
    (3, 2),
    (4, 3),
    (250, 8),
    (4_095, 12),
    (4_096, 13),
];

/// Makes the grid of each case.
fn expect_comparisons(rt: &impl Abort, cases: &[(u32, u32)]) {
    for (prices, wanted) in cases {
        assert!(rt;
            grid_of(rt, *prices).comparisons() == *wanted,
            "of {prices}"
        );
    }
}

/// Prices that the grid of 100, 105, 110 and 115 has not.
const NO_PRICES: [u64; 5] = [95, 99, 114, 116, 120];

/// Expects that the grid has none of the prices.
fn expect_no_places(rt: &impl Abort, grid: &Grid, prices: &[u64]) {
    for price in prices {
        assert!(rt; grid.place(*price).is_none(), "at {price}");
    }
}

#[test]
fn grids(rt: HostRuntime) {
    let grid = grid_of(&rt, 4);
    assert!(rt; (grid.base(), grid.tick(), grid.prices()) == (100, 5, 4));
    assert!(rt; grid.gates() == Gates::Chain);
    assert!(rt; grid.place(115) == Some(3));
    expect_no_places(&rt, &grid, &NO_PRICES);
    expect_comparisons(&rt, &COMPARISONS);
}

/// An auction of four prices with chains of gates.
const CHAIN: &str = "beet-auction,1\nbase,100\ntick,5\nprices,4\ngates,chain\n";

/// The same with trees of gates.
const TREE: &str = "beet-auction,1\nbase,100\ntick,5\nprices,4\ngates,tree\n";

/// The same auction in version 2, which says what is opened.
const PRICE: &str = "beet-auction,2\nbase,100\ntick,5\nprices,4\ngates,chain\nopens,price\n";

const VOLUME: &str = "beet-auction,2\nbase,100\ntick,5\nprices,4\ngates,chain\nopens,volume\n";

const FULL: &str = "beet-auction,2\nbase,100\ntick,5\nprices,4\ngates,tree\nopens,full\n";

/// Auction files, and how they are refused.
const AUCTIONS: [Refused; 12] = [
    (Some((1, 1)), &["beet-auction,1,2\n", "", "beet-bid,1\n"]),
    (Some((1, 4)), &["beet-auction,3\n", "beet-auction,\n"]),
    (
        Some((2, 2)),
        &["beet-auction,2\n", "beet-auction,1\ntick,5\n"],
    ),
    (
        Some((2, 3)),
        &[
            "beet-auction,2\nbase,x\n",
            "beet-auction,1\nbase,1000000000001\n",
        ],
    ),
    (Some((3, 3)), &["beet-auction,1\nbase,100\ntick,0\n"]),
    (
        Some((4, 3)),
        &["beet-auction,1\nbase,100\ntick,5\nprices,4097\n"],
    ),
    (
        Some((5, 2)),
        &["beet-auction,1\nbase,100\ntick,5\nprices,4\n"],
    ),
    (
        Some((5, 3)),
        &[
            "beet-auction,1\nbase,100\ntick,5\nprices,4\ngates,trees\n",
            "beet-auction,1\nbase,100\ntick,5\nprices,4\ngates,\n",
        ],
    ),
    (
        Some((6, 2)),
        &[
            "beet-auction,2\nbase,100\ntick,5\nprices,4\ngates,chain\n",
            "beet-auction,2\nbase,100\ntick,5\nprices,4\ngates,chain\nopen,price\n",
            "beet-auction,2\nbase,100\ntick,5\nprices,4\ngates,chain\nopens\n",
            "beet-auction,1\nbase,100\ntick,5\nprices,4\ngates,chain\nopens,price\n",
            "beet-auction,1\nbase,100\ntick,5\nprices,4\ngates,chain\nmore,1\n",
        ],
    ),
    (
        Some((6, 3)),
        &["beet-auction,2\nbase,100\ntick,5\nprices,4\ngates,chain\nopens,all\n"],
    ),
    (
        Some((7, 2)),
        &["beet-auction,2\nbase,100\ntick,5\nprices,4\ngates,chain\nopens,full\nmore,1\n"],
    ),
    (None, &[CHAIN, TREE, PRICE, VOLUME, FULL]),
];

#[test]
fn auctions(rt: HostRuntime) {
    expect_refusals(&rt, rt.alloc(), Kind::Auction, &AUCTIONS);
}

/// Auction files, with their kinds of gates and what is opened.
type Told = (&'static str, Gates, Policy);

const KINDS: [Told; 5] = [
    (CHAIN, Gates::Chain, Policy::Volume),
    (TREE, Gates::Tree, Policy::Volume),
    (PRICE, Gates::Chain, Policy::Price),
    (VOLUME, Gates::Chain, Policy::Volume),
    (FULL, Gates::Tree, Policy::Full),
];

/// The kind of gates of an auction file and what is opened, if it is read.
fn kinds_in(rt: &impl Abort, alloc: Global, text: &str) -> Option<(Gates, Policy)> {
    assert!(rt; text.len() <= 1_000);
    let grid = read_auction(alloc, text.as_bytes()).ok()?;
    Some((grid.gates(), grid.policy()))
}

/// Reads the auction file of each case.
fn expect_kinds(rt: &impl Abort, alloc: Global, cases: &[Told]) {
    for (text, gates, policy) in cases {
        assert!(rt;
            kinds_in(rt, alloc, text) == Some((*gates, *policy)),
            "of {text}"
        );
    }
}

#[test]
fn kinds_of_auctions(rt: HostRuntime) {
    expect_kinds(&rt, rt.alloc(), &KINDS);
}

/// Bid files at four prices, and how they are refused.
const BIDS: [Refused; 9] = [
    (Some((1, 1)), &["", "beet-bid,2"]),
    (Some((2, 2)), &["beet-bid,1\n100,5", "beet-bid,1\n100,05,0"]),
    (
        Some((2, 3)),
        &[
            "beet-bid,1\n107,1,0",
            "beet-bid,1\n999999999999999999999999999999,1,0",
        ],
    ),
    (Some((2, 7)), &["beet-bid,1\n100,281474976710656,0"]),
    (Some((2, 8)), &["beet-bid,1", "beet-bid,1\n105,1,0"]),
    (Some((3, 4)), &["beet-bid,1\n100,5,0\n100,4,0"]),
    (Some((3, 5)), &["beet-bid,1\n100,5,0\n105,6,0"]),
    (Some((4, 6)), &["beet-bid,1\n100,0,20\n105,0,20\n110,0,19"]),
    (
        None,
        &[
            "beet-bid,1\n100,281474976710655,0",
            "beet-bid,1\n100,0,20\n105,0,20\n110,0,20",
        ],
    ),
];

/// The curve of a bid file that is read.
fn curve_in(rt: &impl Abort, alloc: Global, grid: &Grid, text: &str) -> Curve {
    assert!(rt; text.len() <= 1_000);
    read_bid(alloc, grid, text.as_bytes()).expect(rt, "a curve")
}

/// What is bought and sold at each price of a curve.
const QUANTITIES: [(u64, u64); 4] = [(45, 0), (45, 0), (30, 7), (30, 7)];

/// Compares the quantities of a curve from this place on.
fn expect_curve(rt: &impl Abort, grid: &Grid, curve: &Curve, wanted: &[(u64, u64)]) {
    assert!(rt; curve.is_of(grid));
    assert!(rt; grid.prices() as usize == wanted.len());
    for place in 0..grid.prices() {
        let found = (curve.buy(place), curve.sell(place));
        assert!(rt; found == wanted[place as usize], "at {place}");
    }
}

#[test]
fn bids(rt: HostRuntime) {
    expect_refusals(&rt, rt.alloc(), Kind::Bid, &BIDS);
    let grid = grid_of(&rt, 4);
    let text = "beet-bid,1\n100,45,0\n110,30,7\n";
    let curve = curve_in(&rt, rt.alloc(), &grid, text);
    let copy = curve.copy(rt.alloc()).expect(&rt, "memory");
    expect_curve(&rt, &grid, &copy, &QUANTITIES);
}

/// Bids, each as a file.
const ANNA: &str = "beet-bid,1\n100,45,0\n110,30,0\n115,10,0";

const BO: &str = "beet-bid,1\n100,0,0\n105,0,20\n110,0,40\n115,0,60";

const CARL: &str = "beet-bid,1\n100,5,0\n115,0,0";

const TIE: &str = "beet-bid,1\n100,50,0\n105,30,30\n110,20,40\n115,10,50";

const SHORT: &str = "beet-bid,1\n100,50,0\n105,50,10\n110,50,20\n115,50,49";

/// A place, its price, and what is opened there: the demand, and then the supply; or none if there is no price.
type Cleared = Option<(u32, u64, &'static [u64])>;

/// The outcome as it is answered.
fn outcome_of(cleared: Cleared) -> Outcome {
    match cleared {
        Some((place, price, shown)) => Outcome::Price {
            place,
            price,
            volume: shown.first().copied(),
            supply: shown.get(1).copied(),
        },
        None => Outcome::No,
    }
}

/// Numbers of prices, what is opened, the bids of a book, and its outcome.
type Case = (u32, Policy, &'static [&'static str], Cleared);

const BOOKS: [Case; 9] = [
    (4, Policy::Price, &[ANNA, BO, CARL], Some((2, 110, &[]))),
    (4, Policy::Volume, &[ANNA, BO, CARL], Some((2, 110, &[35]))),
    (
        4,
        Policy::Full,
        &[ANNA, BO, CARL],
        Some((2, 110, &[35, 40])),
    ),
    (4, Policy::Volume, &[], Some((0, 100, &[0]))),
    (4, Policy::Volume, &[TIE], Some((1, 105, &[30]))),
    (4, Policy::Volume, &[SHORT], None),
    (4, Policy::Full, &[SHORT], None),
    (
        1,
        Policy::Volume,
        &["beet-bid,1\n100,0,0"],
        Some((0, 100, &[0])),
    ),
    (1, Policy::Volume, &["beet-bid,1\n100,1,0"], None),
];

/// Appends a bidder with this curve.
fn push_bidder(rt: &impl Abort, bidders: &mut Vec<Bidder>, curve: Curve) {
    bidders
        .push(Bidder { known: None, curve })
        .expect(rt, "memory");
}

fn bidders_of(rt: &impl Abort, alloc: Global, grid: &Grid, bids: &[&str]) -> Vec<Bidder> {
    let mut bidders = Vec::new(alloc);
    for bid in bids {
        push_bidder(rt, &mut bidders, curve_in(rt, alloc, grid, bid));
    }
    bidders
}

/// The outcome of the book of these bidders.
fn outcome_with(rt: &impl Abort, grid: Grid, bidders: Vec<Bidder>) -> Outcome {
    outcome(&Book::new(grid, bidders).expect(rt, "a book"))
}

/// Clears the book of each case.
fn expect_outcomes(rt: &impl Abort, alloc: Global, cases: &[Case]) {
    for (prices, policy, bids, wanted) in cases {
        let grid = grid_of(rt, *prices).with_policy(*policy);
        let bidders = bidders_of(rt, alloc, &grid, bids);
        assert!(rt; outcome_with(rt, grid, bidders) == outcome_of(*wanted));
    }
}

#[test]
fn outcomes(rt: HostRuntime) {
    expect_outcomes(&rt, rt.alloc(), &BOOKS);
}

/// How many bidders a book has at most.
const MOST: usize = 2_000;

/// The most bidders with this curve.
fn many_of(rt: &impl Abort, alloc: Global, curve: &Curve) -> Vec<Bidder> {
    let mut bidders = Vec::new(alloc);
    for _ in 0..MOST {
        push_bidder(rt, &mut bidders, curve.copy(alloc).expect(rt, "memory"));
    }
    bidders
}

/// The largest book at one price, if all bids are this one.
fn largest(rt: &impl Abort, alloc: Global, bid: &str) -> Book {
    let grid = grid_of(rt, 1);
    let curve = curve_in(rt, alloc, &grid, bid);
    let bidders = many_of(rt, alloc, &curve);
    Book::new(grid, bidders).expect(rt, "a book")
}

/// Compares how many bidders the largest book has if all bids are this one, and its outcome.
fn expect_largest(rt: &impl Abort, alloc: Global, bid: &str, wanted: Cleared) {
    let book = largest(rt, alloc, bid);
    assert!(rt; book.bidders().len() == MOST);
    assert!(rt; outcome(&book) == outcome_of(wanted));
}

#[test]
fn largest_book(rt: HostRuntime) {
    let alloc = rt.alloc();
    expect_largest(&rt, alloc, "beet-bid,1\n100,281474976710655,0", None);
    let both = "beet-bid,1\n100,281474976710655,281474976710655";
    expect_largest(&rt, alloc, both, Some((0, 100, &[562_949_953_421_310_000])));
}
