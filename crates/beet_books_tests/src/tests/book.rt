ghost use Rattle.std.specs.Prelude.{◌*◌, All};
ghost use Rattle.beet_bids.specs.Curves.{IsOfGrid};
ghost use Rattle.beet_book.specs.Dealing.{HasLengths};

use super::parts::deal_all;
use super::samples::{Kind, POINTS, Refused, are, expect_refusals, grid_of, tape_of_eight};
use beet_bids::{Curve, Grid, read_bid};
use beet_book::{
    BidderSource, Dealt, Entry, Servers, Totals, deal_bidder, read_book, read_servers,
};
use beet_field::{Point, Trio};
use beet_forms::ReadFault;
use beet_shamir::recombine;
use beet_words::{FeList, Tape};
use std::alloc::Global;
use std::marker::Sync;
use std::process::Abort;
use std::thread::Threads;

/// Servers files, and how they are refused.
const SERVERS: [Refused; 7] = [
    (Some((1, 1)), &["beet-book,1\n"]),
    (
        Some((2, 2)),
        &["beet-servers,1\n", "beet-servers,1\n2,seed,zz\n"],
    ),
    (
        Some((2, 3)),
        &[
            "beet-servers,1\n1,seed,zz\n",
            "beet-servers,1\n1,tape,c\n",
            "beet-servers,1\nbundle\n",
        ],
    ),
    (Some((3, 2)), &["beet-servers,1\n1,tape,c,m\n"]),
    (Some((3, 5)), &["beet-servers,1\nbundle,w\nbundle,w\n"]),
    (
        Some((5, 5)),
        &["beet-servers,1\n1,tape,c,m\n2,tape,c,m\n3,tape,c,m\n4\n"],
    ),
    (None, &[THREE, BUNDLE]),
];

/// The servers file of a seed and four tapes, and that of a bundle.
const THREE: &str =
    "beet-servers,1\n1,seed,0a0A0a0a0a0a0a0a0a0a0a0a0a0a0a0a0a0a0a0a0a0a0a0a0a0a0a0a0a0a0a0a\n2,tape,c,m\n3,tape,d,n\n";

const BUNDLE: &str = "beet-servers,1\nbundle,w\n";

/// Whether a servers file names a bundle, or else the words of each server.
fn names_bundle(rt: &impl Abort, alloc: Global, text: &str) -> bool {
    assert!(rt; text.len() <= 1_000);
    let servers = read_servers(alloc, text.as_bytes()).expect(rt, "a servers file");
    matches!(&servers, Servers::Bundle(_))
}

#[test]
fn servers(rt: HostRuntime) {
    expect_refusals(&rt, rt.alloc(), Kind::Servers, &SERVERS);
    assert!(rt; !names_bundle(&rt, rt.alloc(), THREE));
    assert!(rt; names_bundle(&rt, rt.alloc(), BUNDLE));
}

/// Books, and how they are refused.
const BOOKS: [Refused; 4] = [
    (
        Some((3, 2)),
        &[
            "beet-book,1\nanna,0,anna.bid,tape,anna.tape\nbo,0,bo.bid,tape\n",
            "beet-book,1\nanna,0,anna.bid,tape,anna.tape\nbo,4,bo.bid,cup,w\n",
        ],
    ),
    (
        Some((3, 3)),
        &[
            "beet-book,1\nanna,0,anna.bid,tape,anna.tape\nbo,0,bo.bid,cup,w\n",
            "beet-book,1\nanna,0,anna.bid,tape,anna.tape\nanna,0,bo.bid,seed,0a\n",
        ],
    ),
    (
        Some((3, 4)),
        &["beet-book,1\nanna,0,anna.bid,tape,anna.tape\nanna,0,anna.bid,tape,anna.tape\n"],
    ),
    (None, &[ANNA_AND_BO]),
];

/// A book of two bidders.
const ANNA_AND_BO: &str = "beet-book,1\nanna,0,anna.bid,tape,anna.tape\n\
    bo,3,bo.bid,seed,0a0A0a0a0a0a0a0a0a0a0a0a0a0a0a0a0a0a0a0a0a0a0a0a0a0a0a0a0a0a0a0a\n";

/// The entries of a book.
fn entries_of(rt: &impl Abort, alloc: Global, text: &str) -> Result<Vec<Entry>, ReadFault> {
    assert!(rt; text.len() <= 4_194_304);
    read_book(alloc, text.as_bytes())
}

/// Compares the entries of the two bidders.
fn expect_two(rt: &impl Abort, entries: &[Entry]) {
    assert!(rt; entries.len() == 2);
    assert!(rt; entries[0].name.as_str() == "anna");
    assert!(rt; entries[0].known.is_none());
    assert!(rt; entries[1].known == Some(Point::Three));
    assert!(rt; matches!(&entries[1].source, BidderSource::Seed(_)));
}

#[test]
fn books(rt: HostRuntime) {
    expect_refusals(&rt, rt.alloc(), Kind::Book, &BOOKS);
    let entries = entries_of(&rt, rt.alloc(), ANNA_AND_BO).expect(&rt, "a book");
    expect_two(&rt, &entries);
}

/// What is bought at four prices, or sold.
const BOUGHT: [u64; 4] = [45, 45, 30, 10];

const SOLD: [u64; 4] = [0, 20, 40, 60];

/// The curve of these quantities.
fn curve_of(rt: &impl Abort, alloc: Global, grid: &Grid, buy: &[u64], sell: &[u64]) -> Curve {
    let buy = Vec::from_slice(alloc, buy).expect(rt, "memory");
    let sell = Vec::from_slice(alloc, sell).expect(rt, "memory");
    Curve::of(grid, buy, sell).expect(rt, "a curve")
}

/// A curve that buys at four prices, and one that sells there.
fn two_curves(rt: &impl Abort, alloc: Global, grid: &Grid) -> Vec<Curve> {
    let buyer = curve_of(rt, alloc, grid, &BOUGHT, &[0; 4]);
    let seller = curve_of(rt, alloc, grid, &[0; 4], &SOLD);
    vec![in alloc; buyer, seller].expect(rt, "memory")
}

/// The tapes by which they are dealt.
fn two_tapes(rt: &impl Abort, alloc: Global) -> Vec<Tape> {
    let (buyer, seller) = (tape_of_eight(rt, alloc), tape_of_eight(rt, alloc));
    vec![in alloc; buyer, seller].expect(rt, "memory")
}

/// Compares the points of the buyer at each server.
fn expect_points(rt: &impl Abort, dealt: &Dealt) {
    assert!(rt; are(dealt.points(Point::One), POINTS.one));
    assert!(rt; are(dealt.points(Point::Two), POINTS.two));
    assert!(rt; are(dealt.points(Point::Three), POINTS.three));
}

/// The value of a wire, of its three points.
fn value_at(wires: &Trio<FeList>, wire: usize) -> Option<u64> {
    let points = Trio {
        one: *wires.one.as_slice().get(wire)?,
        two: *wires.two.as_slice().get(wire)?,
        three: *wires.three.as_slice().get(wire)?,
    };
    Some(recombine(points).value())
}

/// Compares the values of wires.
fn expect_values(rt: &impl Abort, wires: &Trio<FeList>, cases: &[(usize, u64)]) {
    for (wire, wanted) in cases {
        assert!(rt; value_at(wires, *wire) == Some(*wanted), "at {wire}");
    }
}

/// Compares the points of the first of two bidders, and answers the sums of both.
fn sums_of(rt: &impl Abort, alloc: Global, grid: &Grid, dealt: &[Dealt]) -> Trio<FeList>
    requires { All (λ points. HasLengths points (2 * grid.now.prices)) dealt.now }
{
    assert!(rt; dealt.len() == 2);
    expect_points(rt, &dealt[0]);
    let mut totals = Totals::new(alloc, grid).expect(rt, "memory");
    totals.add(&dealt[0]);
    totals.add(&dealt[1]);
    totals.inputs()
}

/// Deals two curves by tapes, which are used up, and answers the sums of both.
fn deal_two<R: Abort + Threads + Sync>(
    rt: &R,
    alloc: Global,
    grid: &Grid,
    curves: &[Curve],
    tapes: &mut [Tape],
) -> Trio<FeList> {
    let dealt = deal_all(rt, alloc, grid, curves, tapes);
    assert!(rt; tapes.iter().all(|tape| tape.masks_left() == 0));
    sums_of(rt, alloc, grid, &dealt)
}

/// The sums of supply and of demand at each price.
const SUMS: [(usize, u64); 8] = [
    (0, 0),
    (1, 20),
    (2, 40),
    (3, 60),
    (4, 45),
    (5, 45),
    (6, 30),
    (7, 10),
];

/// Deals two curves, and compares their sums.
fn expect_sums<R: Abort + Threads + Sync>(rt: &R, alloc: Global, grid: &Grid, curves: &[Curve]) {
    let mut tapes = two_tapes(rt, alloc);
    let wires = deal_two(rt, alloc, grid, curves, &mut tapes);
    expect_values(rt, &wires, &SUMS);
}

#[test]
fn dealing(rt: HostRuntime) {
    let grid = grid_of(&rt, 4);
    let curves = two_curves(&rt, rt.alloc(), &grid);
    expect_sums(&rt, rt.alloc(), &grid, &curves);
}

/// A bid at 250 prices, which buys less and sells more from price to price.
fn long_bid(rt: &impl Abort, alloc: Global) -> String {
    let mut text = String::from_str(alloc, "beet-bid,1\n").expect(rt, "memory");
    for place in 0..250u32 {
        let (price, buy, sell) = (100 + 5 * place, 1_000 - place, 2 * place);
        let row = format!(in alloc; "{price},{buy},{sell}\n").expect(rt, "memory");
        text.push_str(row.as_str()).expect(rt, "memory");
    }
    text
}

/// The curve of that bid.
fn long_curve(rt: &impl Abort, alloc: Global, grid: &Grid) -> Curve
    ensures { IsOfGrid grid.now result }
{
    let bid = long_bid(rt, alloc);
    assert!(rt; bid.len() <= 65_536);
    read_bid(alloc, grid, bid.as_bytes()).expect(rt, "a curve")
}

/// The points of the bidder of this number, who has this curve.
fn deal_curve(rt: &impl Abort, alloc: Global, grid: &Grid, curve: &Curve, number: u64) -> Dealt
    requires { IsOfGrid grid.now curve.now }
    ensures { HasLengths result (2 * grid.now.prices) }
{
    let mut tape = Tape::of_seed(alloc, &[7; 32], number, 508).expect(rt, "memory");
    assert!(rt; tape.accepted_left() >= 2 * grid.prices());
    deal_bidder(alloc, grid, curve, &mut tape).expect(rt, "memory")
}

/// The inputs of 2,000 bidders with this curve.
fn inputs_of_many(rt: &impl Abort, alloc: Global, grid: &Grid, curve: &Curve) -> Trio<FeList>
    requires { IsOfGrid grid.now curve.now }
{
    let mut totals = Totals::new(alloc, grid).expect(rt, "memory");
    for number in 0..2_000u64 {
        let dealt = deal_curve(rt, alloc, grid, curve, number);
        totals.add(&dealt);
    }
    totals.inputs()
}

/// Sums of 2,000 bids.
const MANY_SUMS: [(usize, u64); 6] = [
    (0, 0),
    (125, 2_000 * 250),
    (249, 2_000 * 498),
    (250, 2_000 * 1_000),
    (375, 2_000 * 875),
    (499, 2_000 * 751),
];

#[test]
fn full_book(rt: HostRuntime) {
    let grid = grid_of(&rt, 250);
    let curve = long_curve(&rt, rt.alloc(), &grid);
    let wires = inputs_of_many(&rt, rt.alloc(), &grid, &curve);
    expect_values(&rt, &wires, &MANY_SUMS);
}
