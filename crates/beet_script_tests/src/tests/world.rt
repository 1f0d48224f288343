use super::product::three_and_four;
use beet_field::{Fe, Point, Trio};
use beet_round::Verdict;
use beet_samples::Sample;
use beet_server::ServerCore;
use beet_world::{Event, World, lockstep, read_schedule};
use std::alloc::Global;
use std::process::Abort;

/// How the servers stand, and how many messages are undelivered.
#[derive(Clone, Copy)]
struct Stand {
    /// How many rounds each server has passed.
    rounds: [u32; 3],
    /// Whether each has ended after two rounds, with 12 opened.
    ended: [bool; 3],
    undelivered: u32,
}

const AT_THE_BEGINNING: Stand = Stand {
    rounds: [0; 3],
    ended: [false; 3],
    undelivered: 6,
};

const AT_THE_END: Stand = Stand {
    rounds: [2; 3],
    ended: [true; 3],
    undelivered: 0,
};

/// Where each server has passed the first round, and nothing of the second was delivered.
const AFTER_A_ROUND: Stand = Stand {
    rounds: [1; 3],
    ended: [false; 3],
    undelivered: 6,
};

/// After the schedule that has nothing for server 3.
const STARVED: Stand = Stand {
    rounds: [1, 1, 0],
    ended: [false; 3],
    undelivered: 4,
};

/// After the schedule that has all for server 3.
const FED: Stand = Stand {
    rounds: [1, 1, 2],
    ended: [false, false, true],
    undelivered: 2,
};

/// After the schedule that has nothing from server 1 to server 2.
const HELD: Stand = Stand {
    rounds: [1, 0, 1],
    ended: [false; 3],
    undelivered: 2,
};

/// Each message of the two rounds once, as lockstep delivers them.
const PLAIN: &[u8] = b"beet-schedule,1
2,1,0\n3,1,0\n1,2,0\n3,2,0\n1,3,0\n2,3,0
2,1,1\n3,1,1\n1,2,1\n3,2,1\n1,3,1\n2,3,1\n";

/// The same in the order of their senders, backwards.
const BACKWARDS: &[u8] = b"beet-schedule,1
3,2,1\n3,1,1\n2,3,1\n2,1,1\n1,3,1\n1,2,1
3,2,0\n3,1,0\n2,3,0\n2,1,0\n1,3,0\n1,2,0\n";

/// The messages of each round backwards, the first round first.
const ROUNDS_BACKWARDS: &[u8] = b"beet-schedule,1
3,2,0\n3,1,0\n2,3,0\n2,1,0\n1,3,0\n1,2,0
3,2,1\n3,1,1\n2,3,1\n2,1,1\n1,3,1\n1,2,1\n";

/// What server 1 sends to server 2 comes a round later than all else.
const A_ROUND_LATE: &[u8] = b"beet-schedule,1
2,1,0\n3,1,0\n3,2,0\n1,3,0\n2,3,0\n3,1,1\n3,2,1\n1,3,1
1,2,0\n2,1,1\n2,3,1\n1,2,1\n";

/// Each message three times, as lockstep delivers them.
const THRICE: &[u8] = b"beet-schedule,1
2,1,0\n2,1,0\n2,1,0\n3,1,0\n3,1,0\n3,1,0\n1,2,0\n1,2,0\n1,2,0
3,2,0\n3,2,0\n3,2,0\n1,3,0\n1,3,0\n1,3,0\n2,3,0\n2,3,0\n2,3,0
2,1,1\n2,1,1\n2,1,1\n3,1,1\n3,1,1\n3,1,1\n1,2,1\n1,2,1\n1,2,1
3,2,1\n3,2,1\n3,2,1\n1,3,1\n1,3,1\n1,3,1\n2,3,1\n2,3,1\n2,3,1\n";

/// Nothing for server 3.
const STARVING: &[u8] = b"beet-schedule,1
2,1,0\n3,1,0\n1,2,0\n3,2,0\n2,1,1\n1,2,1\n";

/// All for server 3, the second round first.
const FEEDING: &[u8] = b"beet-schedule,1\n1,3,1\n2,3,1\n1,3,0\n2,3,0\n";

/// All but what server 1 sends to server 2.
const HOLDING: &[u8] = b"beet-schedule,1
2,1,0\n3,1,0\n3,2,0\n1,3,0\n2,3,0\n3,1,1\n3,2,1\n1,3,1\n";

/// A `World` of the servers of 3 and 4.
fn world(rt: &impl Abort, alloc: Global) -> World<Sample> {
    World::of(alloc, three_and_four(rt, alloc)).expect(rt, "memory")
}

/// Whether the server has ended after two rounds, with 12 opened.
fn has_twelve(core: &ServerCore<Sample>) -> bool {
    core.ended() && core.round() == 2 && core.opened() == [Fe::reduce(12)].as_slice()
}

/// Compares how a server stands.
fn expect_core(rt: &impl Abort, core: &ServerCore<Sample>, rounds: u32, ended: bool) {
    assert!(rt; core.round() == rounds);
    assert!(rt; has_twelve(core) == ended);
}

/// Compares how a `World` stands.
fn expect_stand(rt: &impl Abort, world: &World<Sample>, stand: Stand) {
    let [one, two, three] = stand.rounds;
    let [one_ended, two_ended, three_ended] = stand.ended;
    expect_core(rt, world.core(Point::One), one, one_ended);
    expect_core(rt, world.core(Point::Two), two, two_ended);
    expect_core(rt, world.core(Point::Three), three, three_ended);
    assert!(rt; world.undelivered() == stand.undelivered);
}

/// Plays a schedule, and compares how the `World` then stands.
fn expect_played(
    rt: &impl Abort,
    alloc: Global,
    world: &mut World<Sample>,
    text: &[u8],
    stand: Stand,
) {
    assert!(rt; text.len() <= 4_096);
    let schedule = read_schedule(alloc, text).expect(rt, "a schedule");
    world.play(schedule.as_slice());
    expect_stand(rt, world, stand);
}

/// A schedule, and how the `World` stands after it.
type Played = (&'static [u8], Stand);

/// Plays schedules one after another, and compares how the `World` then stands.
fn expect_all_played(
    rt: &impl Abort,
    alloc: Global,
    world: &mut World<Sample>,
    schedules: &[Played],
) {
    for (text, stand) in schedules {
        expect_played(rt, alloc, world, text, *stand);
    }
}

/// Messages that come one by one, by sender, receiver and round, and what becomes of each.
type Told = (Point, Point, u32, Event, Stand);

/// Delivers messages one by one, and compares what becomes of each and how the `World` then stands.
fn expect_events(rt: &impl Abort, world: &mut World<Sample>, events: &[Told]) {
    for (from, to, round, event, stand) in events {
        assert!(rt; world.event(*from, *to, *round) == *event);
        expect_stand(rt, world, *stand);
    }
}

/// Delivers messages one by one in a new `World`, and then plays schedules.
fn expect_course(rt: &impl Abort, alloc: Global, events: &[Told], schedules: &[Played]) {
    let mut world = world(rt, alloc);
    expect_stand(rt, &world, AT_THE_BEGINNING);
    expect_events(rt, &mut world, events);
    expect_all_played(rt, alloc, &mut world, schedules);
    drop(world);
}

/// Three servers that have run in lockstep, of whom the first had not ended before.
fn in_lockstep(rt: &impl Abort, alloc: Global) -> Trio<ServerCore<Sample>> {
    let cores = three_and_four(rt, alloc);
    expect_core(rt, &cores.one, 0, false);
    lockstep(cores)
}

/// Compares how they stand.
fn expect_twelve(rt: &impl Abort, cores: &Trio<ServerCore<Sample>>) {
    assert!(rt; has_twelve(&cores.one));
    assert!(rt; has_twelve(&cores.two));
    assert!(rt; has_twelve(&cores.three));
}

#[test]
fn round_by_round(rt: HostRuntime) {
    let ended = in_lockstep(&rt, rt.alloc());
    expect_twelve(&rt, &ended);
    drop(ended);
}

pub const STORED: Event = Event::Delivered(Verdict::Stored);

pub const READY: Event = Event::Delivered(Verdict::Ready);

const OLD: Event = Event::Delivered(Verdict::Old);

const REPEAT: Event = Event::Delivered(Verdict::Repeat);

/// Where one message of the first round was delivered.
const AFTER_ONE: Stand = Stand {
    undelivered: 5,
    ..AT_THE_BEGINNING
};

/// A message comes twice.
const TWICE: [Told; 2] = [
    (Point::One, Point::Two, 0, STORED, AFTER_ONE),
    (Point::One, Point::Two, 0, REPEAT, AFTER_ONE),
];

#[test]
fn a_message_comes_twice(rt: HostRuntime) {
    expect_course(&rt, rt.alloc(), &TWICE, &[]);
}

/// Messages that are not sent: of the next round, and of a server to itself.
const NOT_SENT: [Told; 3] = [
    (Point::One, Point::Two, 1, Event::NotSent, AT_THE_BEGINNING),
    (Point::One, Point::One, 0, Event::NotSent, AT_THE_BEGINNING),
    (
        Point::Three,
        Point::Three,
        1,
        Event::NotSent,
        AT_THE_BEGINNING,
    ),
];

#[test]
fn messages_that_are_not_sent(rt: HostRuntime) {
    expect_course(&rt, rt.alloc(), &NOT_SENT, &[]);
}

/// Where server 2 has passed the first round, and the others have got nothing.
const TWO_PASSED: Stand = Stand {
    rounds: [0, 1, 0],
    ended: [false; 3],
    undelivered: 6,
};

/// A server passes its round, and its last message comes again.
const PASSED: [Told; 3] = [
    (Point::One, Point::Two, 0, STORED, AFTER_ONE),
    (Point::Three, Point::Two, 0, READY, TWO_PASSED),
    (Point::Three, Point::Two, 0, OLD, TWO_PASSED),
];

#[test]
fn a_server_passes_its_round(rt: HostRuntime) {
    expect_course(&rt, rt.alloc(), &PASSED, &[]);
}

#[test]
fn messages_in_order(rt: HostRuntime) {
    expect_course(&rt, rt.alloc(), &[], &[(PLAIN, AT_THE_END)]);
}

/// Of messages in the order of their senders, backwards, those of the first round are delivered first.
const TWICE_BACKWARDS: [Played; 2] = [(BACKWARDS, AFTER_A_ROUND), (BACKWARDS, AT_THE_END)];

#[test]
fn messages_backwards(rt: HostRuntime) {
    expect_course(&rt, rt.alloc(), &[], &TWICE_BACKWARDS);
}

#[test]
fn rounds_backwards(rt: HostRuntime) {
    expect_course(&rt, rt.alloc(), &[], &[(ROUNDS_BACKWARDS, AT_THE_END)]);
}

#[test]
fn a_link_is_a_round_late(rt: HostRuntime) {
    expect_course(&rt, rt.alloc(), &[], &[(A_ROUND_LATE, AT_THE_END)]);
}

#[test]
fn messages_three_times(rt: HostRuntime) {
    expect_course(&rt, rt.alloc(), &[], &[(THRICE, AT_THE_END)]);
}

/// A server gets nothing, then all, and then the others do.
const STARVED_AND_FED: [Played; 3] = [(STARVING, STARVED), (FEEDING, FED), (PLAIN, AT_THE_END)];

#[test]
fn a_server_is_starved(rt: HostRuntime) {
    expect_course(&rt, rt.alloc(), &[], &STARVED_AND_FED);
}

#[test]
fn a_link_is_held_back(rt: HostRuntime) {
    expect_course(
        &rt,
        rt.alloc(),
        &[],
        &[(HOLDING, HELD), (PLAIN, AT_THE_END)],
    );
}
