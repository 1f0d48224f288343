//! The servers of an auction over four prices: demand 50, 50, 35, 10 and supply 0, 20, 40, 60.

ghost use Rattle.std.specs.Prelude.{◌≡◌, ◌*◌, length, true};
ghost use Rattle.beet_field.specs.Trio.{member};
ghost use Rattle.beet_field.specs.declared.point.Point.{Point};
ghost use Rattle.beet_bids.specs.Curves.{IsOfGrid};
ghost use Rattle.beet_bids.specs.Grids.{IsGrid};
ghost use Rattle.beet_run.specs.Runs.{Starts};
ghost use Rattle.beet_threads_tests.specs.Words.{words_from};

use beet_bids::{Curve, Grid};
use beet_book::Totals;
use beet_field::Trio;
use beet_gates::Gates;
use beet_load::{ServerWords, auction_wants, check_three, seed_words};
use beet_plan::words_kept;
use beet_run::start_servers;
use beet_search::AuctionScript;
use beet_server::ServerCore;
use beet_words::{FeList, Tape};
use std::alloc::Global;
use std::process::Abort;

/// What a bidder buys and sells at each price, and the seed of its words.
struct Bidder {
    buy: [u64; 4],
    sell: [u64; 4],
    seed: [u8; 32],
}

const FIRST: Bidder = Bidder {
    buy: [45, 45, 30, 10],
    sell: [0, 0, 0, 0],
    seed: [10; 32],
};

const SECOND: Bidder = Bidder {
    buy: [0, 0, 0, 0],
    sell: [0, 20, 40, 60],
    seed: [11; 32],
};

const THIRD: Bidder = Bidder {
    buy: [5, 5, 5, 0],
    sell: [0, 0, 0, 0],
    seed: [12; 32],
};

/// The rounds of the auction.
pub const ROUNDS: u32 = 255;

/// The grid of the auction.
pub fn grid(rt: &impl Abort) -> Grid
    ensures { IsGrid result }
{
    Grid::new(100, 5, 4, Gates::Chain).expect(rt, "a grid")
}

fn curve_of(rt: &impl Abort, alloc: Global, grid: &Grid, bidder: &Bidder) -> Curve
    ensures { IsOfGrid grid.now result }
{
    let buy = Vec::from_slice(alloc, &bidder.buy).expect(rt, "memory");
    let sell = Vec::from_slice(alloc, &bidder.sell).expect(rt, "memory");
    Curve::of(grid, buy, sell).expect(rt, "a curve")
}

/// Adds the points of a bidder.
fn add(rt: &impl Abort, alloc: Global, grid: &Grid, bidder: &Bidder, totals: &mut Totals)
    requires { totals.old.prices ≡ grid.now.prices }
    ensures { totals.new.prices ≡ grid.now.prices }
{
    let curve = curve_of(rt, alloc, grid, bidder);
    let mut tape = Tape::of_seed(alloc, &bidder.seed, 0, words_kept(grid)).expect(rt, "memory");
    assert!(rt; tape.accepted_left() >= 2 * grid.prices());
    totals.deal(&curve, &mut tape);
}

/// The points of the servers.
pub fn points(rt: &impl Abort, alloc: Global, grid: &Grid) -> Trio<FeList> {
    let mut totals = Totals::new(alloc, grid).expect(rt, "memory");
    add(rt, alloc, grid, &FIRST, &mut totals);
    add(rt, alloc, grid, &SECOND, &mut totals);
    add(rt, alloc, grid, &THIRD, &mut totals);
    totals.inputs()
}

/// Whether each server has two points at each price.
fn are_whole(grid: &Grid, points: &Trio<FeList>) -> bool
    ensures { result ≡ true → (i : Point) → length (member points.now i) ≡ 2 * grid.now.prices }
{
    let wanted = 2 * grid.prices() as usize;
    let one = points.one.as_slice().len() == wanted;
    let two = points.two.as_slice().len() == wanted;
    let three = points.three.as_slice().len() == wanted;
    one && two && three
}

/// The seeds of the servers.
pub const SEEDS: Trio<[u8; 32]> = Trio {
    one: [1; 32],
    two: [2; 32],
    three: [3; 32],
};

fn words(rt: &impl Abort, alloc: Global, grid: &Grid, seeds: &Trio<[u8; 32]>) -> Trio<ServerWords>
    requires { IsGrid grid.now }
    ensures { result ≡ words_from grid.now seeds.now }
{
    let wanted = auction_wants(None, grid);
    Trio {
        one: seed_words(alloc, &wanted, &seeds.one).expect(rt, "memory"),
        two: seed_words(alloc, &wanted, &seeds.two).expect(rt, "memory"),
        three: seed_words(alloc, &wanted, &seeds.three).expect(rt, "memory"),
    }
}

/// The same points, in memory of their own.
fn copied(rt: &impl Abort, alloc: Global, points: &Trio<FeList>) -> Trio<FeList>
    ensures { result ≡ points.now }
{
    Trio {
        one: points.one.copy(alloc).expect(rt, "memory"),
        two: points.two.copy(alloc).expect(rt, "memory"),
        three: points.three.copy(alloc).expect(rt, "memory"),
    }
}

/// The servers that begin with these points and the words of these seeds.
pub fn servers(
    rt: &impl Abort,
    alloc: Global,
    grid: &Grid,
    points: &Trio<FeList>,
    seeds: &Trio<[u8; 32]>,
) -> Trio<ServerCore<AuctionScript>>
    requires { IsGrid grid.now }
    ensures { Starts grid.now points.now (words_from grid.now seeds.now) result }
{
    assert!(rt; are_whole(grid, points));
    let words = words(rt, alloc, grid, seeds);
    check_three(alloc, &auction_wants(None, grid), &words).expect(rt, "enough words");
    let inputs = copied(rt, alloc, points);
    start_servers(alloc, grid, inputs, words).expect(rt, "three servers")
}
