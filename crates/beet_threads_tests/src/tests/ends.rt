//! Three servers of an auction in threads, also while the desk watches.

ghost use Rattle.beet_bids.specs.Grids.{IsGrid};

use super::auction::{ROUNDS, SEEDS, grid, points, servers};
use beet_bids::Grid;
use beet_desk::{NoteCount, WatchedServers, run_watched};
use beet_field::{Point, Trio};
use beet_gates::Script;
use beet_link::FreeGate;
use beet_search::AuctionScript;
use beet_server::ServerCore;
use beet_threads::run_three;
use beet_words::{FeList, Tape};
use beet_world::lockstep;
use std::alloc::Global;
use std::process::Abort;
use std::sync::Wait;
use std::thread::Threads;
use std::time::Clock;

/// How often the auction is run.
const RUNS: u32 = 20;

const SENDERS: [Point; 3] = [Point::One, Point::Two, Point::Three];

type Core = ServerCore<AuctionScript>;

/// Whether two tapes have the same words and are passed as far.
fn are_same_tapes(one: &Tape, two: &Tape) -> bool {
    one.words() == two.words() && one.masks_left() == two.masks_left()
}

/// Whether both servers received the same of each sender in a round.
fn received_same(one: &Core, two: &Core, round: u32) -> bool {
    SENDERS.iter().all(|sender| one.received(round, *sender) == two.received(round, *sender))
}

/// Compares two servers after the auction: the rounds, the opened numbers, the numbers received, and the tapes.
fn expect_same(rt: &impl Abort, one: &Core, two: &Core) {
    assert!(rt; one.ended() && two.ended());
    assert_eq!(rt; one.round(), ROUNDS);
    assert_eq!(rt; two.round(), ROUNDS);
    assert!(rt; one.opened() == two.opened());
    assert!(rt; (0..ROUNDS).all(|round| received_same(one, two, round)));
    assert!(rt; are_same_tapes(one.masks(), two.masks()));
    assert!(rt; are_same_tapes(one.coefficients(), two.coefficients()));
}

/// Compares the servers after the auction.
fn expect_all_same(rt: &impl Abort, ended: &Trio<Core>, wanted: &Trio<Core>) {
    expect_same(rt, &ended.one, &wanted.one);
    expect_same(rt, &ended.two, &wanted.two);
    expect_same(rt, &ended.three, &wanted.three);
}

/// What is counted of a server: two masks and two comparisons open six numbers, and the volume is one more.
const COUNT: NoteCount = NoteCount {
    notes: ROUNDS,
    opened: 7,
};

/// Where the servers run.
#[derive(Clone, Copy)]
enum Runner {
    OneThread,
    ThreeThreads,
    /// In three threads, while the desk watches from a fourth.
    Watched,
}

/// The ended servers of the auction.
fn ended<R: Abort + Threads + Wait + Clock + Sync>(
    rt: &R,
    alloc: Global,
    runner: Runner,
    grid: &Grid,
    points: &Trio<FeList>,
) -> Trio<Core>
    requires { IsGrid grid.now }
{
    let cores = servers(rt, alloc, grid, points, &SEEDS);
    match runner {
        Runner::OneThread => lockstep(cores),
        Runner::ThreeThreads => run_three(rt, alloc, cores, &FreeGate),
        Runner::Watched => {
            assert!(rt; cores.one.script().rounds() < 10_000);
            let WatchedServers { cores, counts } = run_watched(rt, alloc, cores).expect(
                rt, "memory",
            );
            assert!(rt; counts.one == COUNT && counts.two == COUNT && counts.three == COUNT);
            cores
        }
    }
}

/// Runs the auction, and compares the servers after it with those that ran on one thread.
fn expect_runs<R: Abort + Threads + Wait + Clock + Sync>(rt: &R, alloc: Global, runner: Runner) {
    let grid = grid(rt);
    let points = points(rt, alloc, &grid);
    let wanted = ended(rt, alloc, Runner::OneThread, &grid, &points);
    for _ in 0..RUNS {
        let ended = ended(rt, alloc, runner, &grid, &points);
        expect_all_same(rt, &ended, &wanted);
        drop(ended);
    }
    drop(wanted);
}

#[test]
fn twenty_runs_end_as_lockstep(rt: HostRuntime) {
    expect_runs(&rt, rt.alloc(), Runner::ThreeThreads);
}

#[test]
fn twenty_watched_runs_end_as_lockstep(rt: HostRuntime) {
    expect_runs(&rt, rt.alloc(), Runner::Watched);
}
