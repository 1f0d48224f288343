//! Two lots, each of the three servers of 3 and 4.

use super::product::three_and_four;
use super::world::{READY, STORED};
use beet_field::{Fe, Point};
use beet_lots::LotWorld;
use beet_round::Verdict;
use beet_samples::Sample;
use beet_world::Event;
use std::alloc::Global;
use std::process::Abort;

/// The two lots, in which nothing is delivered.
fn two_lots(rt: &impl Abort, alloc: Global) -> LotWorld<Sample> {
    let lots = vec![in alloc; three_and_four(rt, alloc), three_and_four(rt, alloc)];
    LotWorld::of(alloc, lots.expect(rt, "memory")).expect(rt, "memory")
}

/// Whether a server of a lot has passed so many rounds and, if these are all, opened 12.
fn stands(rt: &impl Abort, world: &LotWorld<Sample>, lot: u32, at: Point, rounds: u32) -> bool {
    assert!(rt; lot < world.lots());
    let core = world.core(lot, at);
    let opened = core.opened() == [Fe::reduce(12)].as_slice();
    core.round() == rounds && core.ended() == (rounds == 2) && opened == (rounds == 2)
}

/// Compares how many rounds the servers of a lot have passed.
fn expect_rounds(rt: &impl Abort, world: &LotWorld<Sample>, lot: u32, rounds: u32) {
    assert!(rt; stands(rt, world, lot, Point::One, rounds));
    assert!(rt; stands(rt, world, lot, Point::Two, rounds));
    assert!(rt; stands(rt, world, lot, Point::Three, rounds));
}

/// A message of a lot, by its sender and its receiver, and what becomes of it.
type Told = (Point, Point, Event);

/// Delivers messages of a round of a lot, and compares what becomes of each.
fn expect_told(
    rt: &impl Abort,
    world: &mut LotWorld<Sample>,
    lot: u32,
    round: u32,
    messages: &[Told],
) {
    for (from, to, told) in messages {
        assert!(rt; lot < world.lots());
        assert!(rt; world.event(lot, *from, *to, round) == *told);
    }
}

/// The messages of a round.
const ROUND: [Told; 6] = [
    (Point::Two, Point::One, STORED),
    (Point::Three, Point::One, READY),
    (Point::One, Point::Two, STORED),
    (Point::Three, Point::Two, READY),
    (Point::One, Point::Three, STORED),
    (Point::Two, Point::Three, READY),
];

/// One message, and what becomes of it if its round is not passed, and if it was delivered before.
const FIRST: [Told; 1] = [(Point::One, Point::Two, STORED)];

const AGAIN: [Told; 1] = [(Point::One, Point::Two, Event::Delivered(Verdict::Repeat))];

const NOT_SENT: [Told; 1] = [(Point::One, Point::Two, Event::NotSent)];

/// Compares how many rounds the servers of both lots have passed, and how many messages are undelivered.
fn expect_both(rt: &impl Abort, world: &LotWorld<Sample>, rounds: (u32, u32), undelivered: u32) {
    assert!(rt; world.lots() == 2);
    expect_rounds(rt, world, 0, rounds.0);
    expect_rounds(rt, world, 1, rounds.1);
    assert!(rt; world.undelivered() == undelivered);
}

#[test]
fn lots_go_on_by_their_own_messages(rt: HostRuntime) {
    let mut world = two_lots(&rt, rt.alloc());
    expect_both(&rt, &world, (0, 0), 12);
    expect_told(&rt, &mut world, 1, 0, &FIRST);
    expect_told(&rt, &mut world, 1, 0, &AGAIN);
    expect_told(&rt, &mut world, 1, 1, &NOT_SENT);
    expect_both(&rt, &world, (0, 0), 11);
    expect_told(&rt, &mut world, 0, 0, &ROUND);
    expect_both(&rt, &world, (1, 0), 11);
    expect_told(&rt, &mut world, 0, 1, &ROUND);
    expect_both(&rt, &world, (2, 0), 5);
    drop(world);
}
