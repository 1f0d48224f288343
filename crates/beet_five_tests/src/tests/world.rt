//! A world of the five servers, in any order of the messages, with repeats, and with a server that hears late.

ghost use Rattle.std.specs.Prelude.{◌≤◌, ◌<◌, All};
ghost use Rattle.beet_weights.specs.Quadratics.{IsServer};

use super::servers::{ROUNDS, VOLUME, servers};
use beet_field::Fe;
use beet_five_auction::finish_at;
use beet_five_server::FiveCore;
use beet_five_world::{FiveDelivery, FiveEvent, FiveWorld};
use beet_plan::Finish;
use beet_round::Verdict;
use beet_search::FiveScript;
use std::alloc::Global;
use std::process::Abort;

/// The most events of a test.
const MOST_EVENTS: u32 = 1_000_000;

/// How many events come before the server that is held back gets its messages.
const HELD_EVENTS: u32 = 200;

fn world(rt: &impl Abort, alloc: Global) -> FiveWorld<FiveScript> {
    FiveWorld::of(alloc, servers(rt, alloc)).expect(rt, "memory")
}

/// A choice of the next event.
#[derive(Clone, Copy)]
struct Choice {
    from: u32,
    to: u32,
    /// How many rounds above the one before the receiver's.
    ahead: u32,
}

/// Numbers that follow each other by a fixed rule.
#[derive(Drop)]
struct Draws {
    last: u64,
}

impl Draws {
    /// A number below the limit.
    fn below(&mut self, limit: u32) -> u32
        requires { 1 ≤ limit }
        ensures { result < limit }
    {
        self.last = self
            .last
            .wrapping_mul(6_364_136_223_846_793_005)
            .wrapping_add(1_442_695_040_888_963_407);
        (self.last >> 33) as u32 % limit
    }

    /// Any server to any other, of a round near the receiver's.
    fn choice(&mut self) -> Choice
        ensures from { IsServer result.from }
        ensures to { IsServer result.to }
        ensures ahead { result.ahead ≤ 2 }
    {
        Choice {
            from: 1 + self.below(5),
            to: 1 + self.below(5),
            ahead: self.below(3),
        }
    }
}

/// Delivers a message of a round near the receiver's, if it was sent.
fn deliver(world: &mut FiveWorld<FiveScript>, choice: Choice)
    requires from { IsServer choice.from }
    requires to { IsServer choice.to }
    requires ahead { choice.ahead ≤ 2 }
{
    let near = world.core(choice.to).round() + choice.ahead;
    if near > 0 {
        world.event(choice.from, choice.to, near - 1);
    }
}

/// Delivers all that a server may get of its round, the last sender first, if it is one of the five.
fn feed(world: &mut FiveWorld<FiveScript>, to: u32)
    requires { to ≤ 5 }
{
    if to == 0 {
        return;
    }
    let round = world.core(to).round();
    for place in 0..5 {
        world.event(5 - place, to, round);
    }
}

/// Delivers messages in an order of this number until none is undelivered. Only now and then the server that is held
/// back gets messages; 0 is none.
pub fn play(world: &mut FiveWorld<FiveScript>, order: u64, held: u32)
    requires { held ≤ 5 }
{
    let mut draws = Draws { last: order };
    for event in 0..MOST_EVENTS {
        if world.undelivered() == 0 {
            return;
        }
        let choice = draws.choice();
        if choice.to != held {
            deliver(world, choice);
        }
        if event % HELD_EVENTS == 0 {
            feed(world, held);
        }
    }
}

/// Compares how a server has ended.
fn expect_end(rt: &impl Abort, core: &FiveCore<FiveScript>) {
    let finish = Finish::Price {
        place: 0,
        volume: Some(Fe::reduce(VOLUME)),
        supply: None,
    };
    assert!(rt; core.ended());
    assert!(rt; core.round() == ROUNDS);
    assert!(rt; finish_at(core) == Some(finish));
}

/// All five have ended alike, and nothing is undelivered.
fn expect_all_ended(rt: &impl Abort, world: &FiveWorld<FiveScript>) {
    assert!(rt; world.undelivered() == 0);
    for at in 1..=5 {
        expect_end(rt, world.core(at));
        assert!(rt; world.core(at).opened() == world.core(1).opened());
    }
}

/// Plays a new world.
fn expect_played(rt: &impl Abort, alloc: Global, order: u64, held: u32)
    requires { held ≤ 5 }
{
    let mut world = world(rt, alloc);
    play(&mut world, order, held);
    expect_all_ended(rt, &world);
    drop(world);
}

const STORED: FiveEvent = FiveEvent::Delivered(Verdict::Stored);

const REPEAT: FiveEvent = FiveEvent::Delivered(Verdict::Repeat);

#[test]
fn without_events(rt: HostRuntime) {
    let world = world(&rt, rt.alloc());
    assert!(&rt; world.undelivered() == 20);
    assert!(&rt; world.core(1).round() == 0);
    assert!(&rt; finish_at(world.core(1)).is_none());
    drop(world);
}

#[test]
fn a_message_comes_twice(rt: HostRuntime) {
    let mut world = world(&rt, rt.alloc());
    assert!(&rt; world.event(1, 2, 0) == STORED);
    assert!(&rt; world.undelivered() == 19);
    assert!(&rt; world.event(1, 2, 0) == REPEAT);
    assert!(&rt; world.undelivered() == 19);
    assert!(&rt; world.event(1, 2, 1) == FiveEvent::NotSent);
    assert!(&rt; world.event(3, 3, 0) == FiveEvent::NotSent);
    assert!(&rt; world.undelivered() == 19);
    drop(world);
}

#[test]
fn any_order(rt: HostRuntime) {
    for order in 0..3 {
        expect_played(&rt, rt.alloc(), order, 0);
    }
}

#[test]
fn a_server_hears_late(rt: HostRuntime) {
    for held in 1..=5 {
        expect_played(&rt, rt.alloc(), 61, held);
    }
}

/// A message comes twice, one is not sent yet, and one is of a server to itself. Server 2 passes its round, its last
/// message comes again, and what it sends by then comes to a server that is behind.
const SCHEDULE: [FiveDelivery; 9] = [
    FiveDelivery {
        from: 1,
        to: 2,
        round: 0,
    },
    FiveDelivery {
        from: 1,
        to: 2,
        round: 0,
    },
    FiveDelivery {
        from: 1,
        to: 2,
        round: 1,
    },
    FiveDelivery {
        from: 3,
        to: 3,
        round: 0,
    },
    FiveDelivery {
        from: 3,
        to: 2,
        round: 0,
    },
    FiveDelivery {
        from: 4,
        to: 2,
        round: 0,
    },
    FiveDelivery {
        from: 5,
        to: 2,
        round: 0,
    },
    FiveDelivery {
        from: 5,
        to: 2,
        round: 0,
    },
    FiveDelivery {
        from: 2,
        to: 1,
        round: 1,
    },
];

/// Delivers messages one by one.
fn deliver_each(world: &mut FiveWorld<FiveScript>, schedule: &[FiveDelivery])
    requires from { All (λ delivery. IsServer delivery.from) schedule.now }
    requires to { All (λ delivery. IsServer delivery.to) schedule.now }
{
    for delivery in schedule {
        world.event(delivery.from, delivery.to, delivery.round);
    }
}

/// Compares how many messages are undelivered, and the rounds of the servers.
fn expect_stand(
    rt: &impl Abort,
    world: &FiveWorld<FiveScript>,
    undelivered: u32,
    rounds: &[u32; 5],
) {
    assert!(rt; world.undelivered() == undelivered);
    let [one, two, three, four, five] = rounds;
    assert!(rt; world.core(1).round() == *one);
    assert!(rt; world.core(2).round() == *two);
    assert!(rt; world.core(3).round() == *three);
    assert!(rt; world.core(4).round() == *four);
    assert!(rt; world.core(5).round() == *five);
}

#[test]
fn a_schedule_is_played(rt: HostRuntime) {
    let mut played = world(&rt, rt.alloc());
    let mut told = world(&rt, rt.alloc());
    played.play(&[]);
    expect_stand(&rt, &played, 20, &[0; 5]);
    played.play(&SCHEDULE);
    deliver_each(&mut told, &SCHEDULE);
    expect_stand(&rt, &played, 19, &[0, 1, 0, 0, 0]);
    expect_stand(&rt, &told, 19, &[0, 1, 0, 0, 0]);
    drop(played);
    drop(told);
}
