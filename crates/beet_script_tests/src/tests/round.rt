use arrayvec::ArrayVec;
use beet_field::{Fe, Point};
use beet_round::{RoundBox, RoundMessage, Side, Verdict};
use std::process::Abort;

/// A message of so many numbers, which are this one and those that follow it.
pub fn message(from: Point, to: Point, round: u32, first: u64, count: u64) -> RoundMessage {
    let mut numbers = ArrayVec::new();
    for n in 0..count {
        let _ = numbers.try_push(Fe::reduce(first as u128 + n as u128));
    }
    RoundMessage {
        from,
        to,
        round,
        numbers,
    }
}

/// Whether the message is from this server and of this round, and has so many numbers, which begin with this one.
fn is_so(m: &RoundMessage, from: Point, round: u32, first: u64, count: usize) -> bool {
    let numbers = m.numbers.as_slice();
    m.from == from
        && m.round == round
        && numbers.len() == count
        && numbers
            .first()
            .is_some_and(|number| number.value() == first)
}

/// Passes the round, if both of its messages are in; answers whether they are.
fn turn(mailbox: &mut RoundBox, want: u32) -> bool {
    if want <= 64 && mailbox.ready() && mailbox.round() < 1_000 {
        mailbox.turn(want);
        true
    } else {
        false
    }
}

/// The message of this side, if both of the round are in.
fn message_in(mailbox: &RoundBox, side: Side) -> Option<&RoundMessage> {
    if mailbox.ready() {
        Some(mailbox.message(side))
    } else {
        None
    }
}

/// The box of server 1 at round 3, which wants 61 numbers and has no message.
fn at_round_three() -> RoundBox {
    let mut mailbox = RoundBox::new(Point::One, 61);
    for round in 0..3 {
        mailbox.offer(&message(Point::Three, Point::One, round, 1, 61));
        mailbox.offer(&message(Point::Two, Point::One, round, 1, 61));
        turn(&mut mailbox, 61);
    }
    mailbox
}

/// The sender and the receiver of a message, its round, its first number and how many there are, and the verdict on it.
type Offer = (Point, Point, u32, u64, u64, Verdict);

/// Offers the messages one after another, and compares the verdicts.
fn expect_verdicts(rt: &impl Abort, mailbox: &mut RoundBox, offers: &[Offer]) {
    for (from, to, round, first, count, wanted) in offers {
        let found = mailbox.offer(&message(*from, *to, *round, *first, *count));
        assert!(rt; found == *wanted, "from {first} on");
    }
}

/// Compares the sender of the message of this side and its first number, its round and how many numbers it has.
fn expect_message(
    rt: &impl Abort,
    mailbox: &RoundBox,
    side: Side,
    (from, first): (Point, u64),
    count: usize,
) {
    let message = message_in(mailbox, side).expect(rt, "both are in");
    assert!(rt; is_so(message, from, mailbox.round(), first, count));
}

/// Compares the round of a box, and whether both of its messages are in.
fn expect_stand(rt: &impl Abort, mailbox: &RoundBox, round: u32, ready: bool) {
    assert!(rt; mailbox.round() == round);
    assert!(rt; mailbox.ready() == ready);
}

/// Compares where both messages of the round begin, which have so many numbers, and passes it.
fn expect_turn(
    rt: &impl Abort,
    mailbox: &mut RoundBox,
    want: u32,
    low: (Point, u64),
    high: (Point, u64),
    count: usize,
) {
    expect_message(rt, mailbox, Side::Low, low, count);
    expect_message(rt, mailbox, Side::High, high, count);
    assert!(rt; turn(mailbox, want));
}

/// Messages to server 1 at round 3, which leave a place empty.
const AT_ROUND_THREE: [Offer; 8] = [
    (Point::One, Point::One, 3, 1, 61, Verdict::Stranger),
    (Point::Three, Point::Two, 3, 1, 61, Verdict::Stranger),
    (Point::Two, Point::One, 2, 1, 61, Verdict::Old),
    (Point::Two, Point::One, 5, 1, 61, Verdict::TooEarly(3)),
    (Point::Two, Point::One, 3, 1, 60, Verdict::WrongLength(60)),
    (Point::Two, Point::One, 3, 100, 61, Verdict::Stored),
    (Point::Two, Point::One, 3, 200, 61, Verdict::Repeat),
    (Point::Three, Point::One, 4, 300, 61, Verdict::Stored),
];

/// The message that fills it.
const LAST: [Offer; 1] = [(Point::Three, Point::One, 3, 400, 61, Verdict::Ready)];

/// Offers them to the box, and passes the round.
fn expect_each(rt: &impl Abort, mailbox: &mut RoundBox) {
    expect_stand(rt, mailbox, 3, false);
    expect_verdicts(rt, mailbox, &AT_ROUND_THREE);
    expect_stand(rt, mailbox, 3, false);
    expect_verdicts(rt, mailbox, &LAST);
    expect_stand(rt, mailbox, 3, true);
    let (low, high) = ((Point::Two, 100), (Point::Three, 400));
    expect_turn(rt, mailbox, 61, low, high, 61);
    assert!(rt; mailbox.round() == 4);
}

#[test]
fn each_verdict(rt: HostRuntime) {
    expect_each(&rt, &mut at_round_three());
}

/// The box of server 2 at round 1, which wants so many numbers, if an early message from server 1 had 2.
fn after_an_early_message(want: u32) -> RoundBox {
    let mut mailbox = RoundBox::new(Point::Two, 1);
    mailbox.offer(&message(Point::One, Point::Two, 1, 7, 2));
    mailbox.offer(&message(Point::One, Point::Two, 0, 8, 1));
    mailbox.offer(&message(Point::Three, Point::Two, 0, 9, 1));
    turn(&mut mailbox, want);
    mailbox
}

/// Messages to server 2 at round 1, after an early one.
const AFTER_A_STORED: [Offer; 2] = [
    (Point::One, Point::Two, 1, 10, 2, Verdict::Repeat),
    (Point::Three, Point::Two, 1, 11, 2, Verdict::Ready),
];

const AFTER_A_DROPPED: [Offer; 1] = [(Point::One, Point::Two, 1, 10, 3, Verdict::Stored)];

/// Offers messages to the box at round 1, where an early message was.
fn expect_later(rt: &impl Abort, mailbox: &mut RoundBox, offers: &[Offer]) {
    assert!(rt; mailbox.round() == 1);
    expect_verdicts(rt, mailbox, offers);
}

#[test]
fn early_message_of_the_wanted_length_stays(rt: HostRuntime) {
    let mut mailbox = after_an_early_message(2);
    expect_later(&rt, &mut mailbox, &AFTER_A_STORED);
    let (low, high) = ((Point::One, 7), (Point::Three, 11));
    expect_turn(&rt, &mut mailbox, 0, low, high, 2);
}

#[test]
fn early_message_of_another_length_is_dropped(rt: HostRuntime) {
    expect_later(&rt, &mut after_an_early_message(3), &AFTER_A_DROPPED);
}

/// Compares a copy of a message to server 1.
fn expect_copy(rt: &impl Abort, copy: &RoundMessage) {
    assert!(rt; is_so(copy, Point::Three, 5, 20, 64));
    assert!(rt; copy.to == Point::One);
}

/// Compares the sides at which servers have each other.
fn expect_sides(rt: &impl Abort) {
    assert!(rt; Side::of(Point::Two, Point::One) == Some(Side::Low));
    assert!(rt; Side::of(Point::Two, Point::Three) == Some(Side::High));
    assert!(rt; Side::of(Point::Two, Point::Two).is_none());
    assert!(rt; Side::Low.peer(Point::Three) == Point::One);
    assert!(rt; Side::High.peer(Point::Three) == Point::Two);
}

#[test]
fn copies_and_sides(rt: HostRuntime) {
    expect_copy(&rt, &message(Point::Three, Point::One, 5, 20, 64).copy());
    expect_sides(&rt);
}
