use super::product::{product, three_and_four};
use super::samples::{NO_WORD, ONES, tape};
use arrayvec::ArrayVec;
use beet_field::{Fe, Point, Trio};
use beet_gates::Script;
use beet_round::{RoundMessage, Verdict};
use beet_samples::Sample;
use beet_server::{ServerCore, StartFault};
use beet_words::{FeList, Tape};
use std::alloc::Global;
use std::process::Abort;

/// A server of the script that opens three bits, with the word that it may deal and so many coefficient words.
fn second_bits(
    rt: &impl Abort,
    alloc: Global,
    me: Point,
    word: u64,
    count: u32,
) -> Result<ServerCore<Sample>, StartFault> {
    let masks = tape(rt, alloc, word);
    let coefficients = Tape::of_seed(alloc, &[7; 32], me.number(), count).expect(rt, "memory");
    let inputs = FeList::of(Vec::new(alloc));
    ServerCore::start(alloc, me, Sample::SecondBits, inputs, masks, coefficients)
}

/// Three such servers, which deal 2, 1 and 6.
fn two_one_six(rt: &impl Abort, alloc: Global) -> Trio<ServerCore<Sample>> {
    Trio {
        one: second_bits(rt, alloc, Point::One, 2, 70).expect(rt, "server 1"),
        two: second_bits(rt, alloc, Point::Two, 1, 70).expect(rt, "server 2"),
        three: second_bits(rt, alloc, Point::Three, 6, 70).expect(rt, "server 3"),
    }
}

/// What the server says of the message, or `None` if its own are not handed out.
fn give<S: Script<3>>(core: &mut ServerCore<S>, m: RoundMessage) -> Option<Verdict> {
    if core.sent() {
        Some(core.deliver(&m))
    } else {
        None
    }
}

/// Whether the server says this of the message.
pub fn says<S: Script<3>>(core: &mut ServerCore<S>, m: RoundMessage, verdict: Verdict) -> bool {
    give(core, m) == Some(verdict)
}

/// The two messages that the server hands out.
fn send<S: Script<3>>(rt: &impl Abort, core: &mut ServerCore<S>) -> (RoundMessage, RoundMessage) {
    let [low, high] = core.out().expect(rt, "two messages");
    (low, high)
}

/// The two messages that each server hands out.
type Sent = Trio<(RoundMessage, RoundMessage)>;

/// The messages that the servers hand out.
pub fn send_all<S: Script<3>>(rt: &impl Abort, cores: &mut Trio<ServerCore<S>>) -> Sent {
    Trio {
        one: send(rt, &mut cores.one),
        two: send(rt, &mut cores.two),
        three: send(rt, &mut cores.three),
    }
}

/// Gives each server its two messages; answers whether all verdicts are as they should be.
pub fn give_all<S: Script<3>>(cores: &mut Trio<ServerCore<S>>, sent: Sent) -> bool {
    let (one_two, one_three) = sent.one;
    let (two_one, two_three) = sent.two;
    let (three_one, three_two) = sent.three;
    let stored = says(&mut cores.one, two_one, Verdict::Stored)
        & says(&mut cores.two, three_two, Verdict::Stored)
        & says(&mut cores.three, one_three, Verdict::Stored);
    let ready = says(&mut cores.one, three_one, Verdict::Ready)
        & says(&mut cores.two, one_two, Verdict::Ready)
        & says(&mut cores.three, two_three, Verdict::Ready);
    stored && ready
}

/// Passes a round at each server, and expects that all verdicts are as they should be.
pub fn pass_round<S: Script<3>>(rt: &impl Abort, cores: &mut Trio<ServerCore<S>>) {
    let sent = send_all(rt, cores);
    assert!(rt; give_all(cores, sent));
}

/// Whether the server has received these numbers in the round from its lower and its higher peer.
fn has_received(core: &ServerCore<Sample>, round: u32, (low, high): (u128, u128)) -> bool {
    let [lower, higher] = core.me().others();
    core.received(round, lower) == Some([Fe::reduce(low)].as_slice())
        && core.received(round, higher) == Some([Fe::reduce(high)].as_slice())
}

/// Whether the servers have received these numbers in the round.
fn have_received(
    cores: &Trio<ServerCore<Sample>>,
    round: u32,
    [one, two, three]: [(u128, u128); 3],
) -> bool {
    has_received(&cores.one, round, one)
        && has_received(&cores.two, round, two)
        && has_received(&cores.three, round, three)
}

/// Whether each server has opened these numbers.
fn have_opened<S: Script<3>>(cores: &Trio<ServerCore<S>>, numbers: &[Fe]) -> bool {
    cores.one.opened() == numbers
        && cores.two.opened() == numbers
        && cores.three.opened() == numbers
}

/// The run of the product, of which each message is known.
fn expect_product(rt: &impl Abort, cores: &mut Trio<ServerCore<Sample>>) {
    assert!(rt; !cores.one.sent());
    assert!(rt; cores.one.received(0, Point::Two).is_none());
    pass_round(rt, cores);
    assert!(rt; have_received(cores, 0, [(106, 184), (50, 188), (51, 110)]));
    pass_round(rt, cores);
    assert!(rt; have_received(cores, 1, [(14, 15), (13, 15), (13, 14)]));
    assert!(rt; cores.one.ended());
    assert!(rt; have_opened(cores, &[Fe::reduce(12)]));
}

/// Passes the first round at servers 1 and 2. The messages to server 3 are the answer.
fn pass_without_three(
    rt: &impl Abort,
    cores: &mut Trio<ServerCore<Sample>>,
) -> (RoundMessage, RoundMessage) {
    let (one_two, one_three) = send(rt, &mut cores.one);
    let (two_one, two_three) = send(rt, &mut cores.two);
    let (three_one, three_two) = send(rt, &mut cores.three);
    give(&mut cores.one, two_one);
    give(&mut cores.one, three_one);
    give(&mut cores.two, one_two);
    give(&mut cores.two, three_two);
    (one_three, two_three)
}

/// Gives a server the message, after its own are handed out.
fn expect_taken(rt: &impl Abort, core: &mut ServerCore<Sample>, m: RoundMessage) {
    give(core, m).expect(rt, "its own messages are handed out");
}

/// Gives server 3 what another server sends to it now.
fn give_three(rt: &impl Abort, from: &mut ServerCore<Sample>, three: &mut ServerCore<Sample>) {
    let (_, early) = send(rt, from);
    expect_taken(rt, three, early);
}

/// Server 3 gets both messages of the second round before the last of the first, and passes the second round as it
/// hands out its own messages. The answer is how many rounds it has passed before and after.
fn pass_early(rt: &impl Abort, cores: &mut Trio<ServerCore<Sample>>) -> (u32, u32) {
    let (one_three, two_three) = pass_without_three(rt, cores);
    give_three(rt, &mut cores.one, &mut cores.three);
    give_three(rt, &mut cores.two, &mut cores.three);
    expect_taken(rt, &mut cores.three, one_three);
    expect_taken(rt, &mut cores.three, two_three);
    let before = cores.three.round();
    send(rt, &mut cores.three);
    (before, cores.three.round())
}

/// The run of the product if messages to server 3 are early.
fn expect_early(rt: &impl Abort, cores: &mut Trio<ServerCore<Sample>>) {
    assert!(rt; pass_early(rt, cores) == (1, 2));
    assert!(rt; cores.three.ended());
    assert!(rt; cores.three.opened() == [Fe::reduce(12)].as_slice());
    assert!(rt; cores.three.out().is_none());
}

/// A message of no number, by sender, receiver and round, and what server 1 says of it after its last round.
type Late = (Point, Point, u32, Verdict);

const LATE: [Late; 4] = [
    (Point::Two, Point::One, 1, Verdict::Old),
    (Point::Two, Point::One, 2, Verdict::TooEarly(2)),
    (Point::One, Point::One, 2, Verdict::Stranger),
    (Point::One, Point::Two, 1, Verdict::Stranger),
];

/// What the server says of a message of no number.
fn give_empty(
    core: &mut ServerCore<Sample>,
    from: Point,
    to: Point,
    round: u32,
) -> Option<Verdict> {
    let message = RoundMessage {
        from,
        to,
        round,
        numbers: ArrayVec::new(),
    };
    give(core, message)
}

/// Gives the server the message of each case.
fn expect_verdicts(rt: &impl Abort, core: &mut ServerCore<Sample>, cases: &[Late]) {
    for (from, to, round, verdict) in cases {
        assert!(rt; give_empty(core, *from, *to, *round) == Some(*verdict));
    }
}

/// The run of the product, and messages after it.
fn expect_late(rt: &impl Abort, cores: &mut Trio<ServerCore<Sample>>) {
    pass_round(rt, cores);
    pass_round(rt, cores);
    expect_verdicts(rt, &mut cores.one, &LATE);
}

/// What is done with the three servers of the product.
#[derive(Clone, Copy)]
enum Course {
    InOrder,
    Early,
    Late,
}

/// Does it with servers at their beginning.
fn follow(rt: &impl Abort, cores: &mut Trio<ServerCore<Sample>>, course: Course) {
    match course {
        Course::InOrder => expect_product(rt, cores),
        Course::Early => expect_early(rt, cores),
        Course::Late => expect_late(rt, cores),
    }
}

/// Starts the three servers, and does it with them.
fn expect_course(rt: &impl Abort, alloc: Global, course: Course) {
    let mut cores = three_and_four(rt, alloc);
    follow(rt, &mut cores, course);
    drop(cores);
}

#[test]
fn product_of_three_and_four(rt: HostRuntime) {
    expect_course(&rt, rt.alloc(), Course::InOrder);
}

#[test]
fn both_messages_are_early(rt: HostRuntime) {
    expect_course(&rt, rt.alloc(), Course::Early);
}

#[test]
fn an_ended_server_changes_nothing(rt: HostRuntime) {
    expect_course(&rt, rt.alloc(), Course::Late);
}

/// The run in which the words 2, 1 and 6 are dealt.
fn expect_bits(rt: &impl Abort, cores: &mut Trio<ServerCore<Sample>>) {
    pass_round(rt, cores);
    assert!(rt; cores.one.masks().masks_left() == 0);
    assert!(rt; cores.one.coefficients().accepted_left() == 9);
    pass_round(rt, cores);
    assert!(rt; cores.two.ended());
    assert!(rt; have_opened(cores, &[Fe::reduce(1), Fe::reduce(0), Fe::reduce(1)]));
}

#[test]
fn bits_of_each_server(rt: HostRuntime) {
    let mut cores = two_one_six(&rt, rt.alloc());
    expect_bits(&rt, &mut cores);
    drop(cores);
}

/// Why server 1 of the product does not start with this coefficient word.
fn product_fault(rt: &impl Abort, alloc: Global, word: u64) -> Option<StartFault> {
    product(rt, alloc, Point::One, (8, 6), word).err()
}

/// Why server 2 of the three bits does not start with no word to deal and so many coefficient words.
fn bits_fault(rt: &impl Abort, alloc: Global, count: u32) -> Option<StartFault> {
    second_bits(rt, alloc, Point::Two, NO_WORD, count).err()
}

#[test]
fn too_few(rt: HostRuntime) {
    let alloc = rt.alloc();
    assert!(rt; product_fault(&rt, alloc, NO_WORD) == Some(StartFault::TooFewWords(0)));
    assert!(rt; product_fault(&rt, alloc, ONES) == Some(StartFault::TooFewWords(0)));
    assert!(rt; bits_fault(&rt, alloc, 60) == Some(StartFault::TooFewWords(60)));
    assert!(rt; bits_fault(&rt, alloc, 61) == Some(StartFault::TooFewMasks(0)));
}
