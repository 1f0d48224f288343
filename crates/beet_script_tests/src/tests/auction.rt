//! A server in the middle of an auction is offered messages that are not those of its round.

use super::round::message;
use super::server::{give_all, pass_round, says, send_all};
use beet_field::{Fe, Point, Trio};
use beet_gates::{Gates, Script};
use beet_round::Verdict;
use beet_search::AuctionScript;
use beet_server::ServerCore;
use beet_words::{FeList, Tape};
use std::alloc::Global;
use std::process::Abort;

type Core = ServerCore<AuctionScript>;

/// What is supplied at each of four prices, and then what is demanded.
const SUMS: [u64; 8] = [0, 20, 40, 60, 50, 50, 35, 10];

/// The rounds of the auction, and the round in which the messages are offered.
const ROUNDS: u32 = 255;

const ROUND: u32 = 3;

/// The points of a server on lines of the sums.
fn points(rt: &impl Abort, alloc: Global, me: Point) -> FeList {
    let mut points = Vec::new(alloc);
    for sum in SUMS {
        let point = Fe::reduce(sum as u128 + 7 * me.number() as u128);
        points.push(point).expect(rt, "memory");
    }
    FeList::of(points)
}

/// A server that begins with its points and the words of a seed.
fn server(rt: &impl Abort, alloc: Global, me: Point, seed: &[u8; 32]) -> Core {
    let script = AuctionScript::new(4, Gates::Chain).expect(rt, "a script");
    let inputs = points(rt, alloc, me);
    assert!(rt; inputs.as_slice().len() == script.inputs() as usize);
    let masks = Tape::of_seed(alloc, seed, 1, script.masks()).expect(rt, "memory");
    let coefficients = Tape::of_seed(alloc, seed, 0, script.coefficients()).expect(rt, "memory");
    ServerCore::start(alloc, me, script, inputs, masks, coefficients).expect(rt, "a server")
}

/// The three servers.
fn servers(rt: &impl Abort, alloc: Global) -> Trio<Core> {
    Trio {
        one: server(rt, alloc, Point::One, &[1; 32]),
        two: server(rt, alloc, Point::Two, &[2; 32]),
        three: server(rt, alloc, Point::Three, &[3; 32]),
    }
}

/// The sender and the receiver of a message, its round and how many numbers it has, and what server 1 says of it in
/// round 3.
type Offer = (Point, Point, u32, u64, Verdict);

const OFFERS: [Offer; 5] = [
    (Point::One, Point::One, 3, 61, Verdict::Stranger),
    (Point::Three, Point::Two, 3, 61, Verdict::Stranger),
    (Point::Two, Point::One, 2, 61, Verdict::Old),
    (Point::Two, Point::One, 5, 61, Verdict::TooEarly(3)),
    (Point::Two, Point::One, 3, 60, Verdict::WrongLength(60)),
];

/// Offers the messages to a server, and compares what it says.
fn expect_offers(rt: &impl Abort, core: &mut Core, offers: &[Offer]) {
    for (from, to, round, count, verdict) in offers {
        let offered = message(*from, *to, *round, 1, *count);
        assert!(rt; says(core, offered, *verdict), "of {round} and {count}");
    }
}

/// Passes so many rounds.
fn pass_rounds(rt: &impl Abort, cores: &mut Trio<Core>, rounds: u32) {
    for _ in 0..rounds {
        pass_round(rt, cores);
    }
}

/// Passes a round in which the messages are offered to server 1 before its own are given to it.
fn pass_with_offers(rt: &impl Abort, cores: &mut Trio<Core>) {
    let sent = send_all(rt, cores);
    expect_offers(rt, &mut cores.one, &OFFERS);
    assert!(rt; cores.one.round() == ROUND);
    assert!(rt; give_all(cores, sent));
}

/// The auction has ended as it does without offers.
fn expect_end(rt: &impl Abort, core: &Core) {
    assert!(rt; core.ended());
    assert!(rt; core.round() == ROUNDS);
    assert!(rt; core.opened().last() == Some(&Fe::reduce(35)));
}

/// The auction with the offers.
fn expect_auction(rt: &impl Abort, cores: &mut Trio<Core>) {
    pass_rounds(rt, cores, ROUND);
    pass_with_offers(rt, cores);
    pass_rounds(rt, cores, ROUNDS - ROUND - 1);
    expect_end(rt, &cores.one);
    assert!(rt; cores.one.opened() == cores.two.opened());
}

#[test]
fn what_is_offered_in_the_middle_changes_nothing(rt: HostRuntime) {
    let mut cores = servers(&rt, rt.alloc());
    expect_auction(&rt, &mut cores);
    drop(cores);
}
