//! What a server says of messages that are offered to it, in the middle of an auction and after its end.

ghost use Rattle.std.specs.Prelude.{◌≢◌};
ghost use Rattle.beet_weights.specs.Quadratics.{IsServer};

use super::masks::expect_end;
use super::servers::{ROUNDS, servers};
use arrayvec::ArrayVec;
use beet_field::Fe;
use beet_five_server::{FiveCore, FiveMessage, message_to};
use beet_round::Verdict;
use beet_search::FiveScript;
use std::alloc::Global;
use std::process::Abort;

type Core = FiveCore<FiveScript>;

/// The four messages that a server hands out in a round.
type Sent = [FiveMessage; 4];

/// The round in which messages are offered. In this round and the next a message has 61 numbers.
const ROUND: u32 = 3;

/// What the server says of the message, or `None` if its own are not handed out.
fn give(core: &mut Core, m: FiveMessage) -> Option<Verdict> {
    if core.sent() {
        Some(core.deliver(m))
    } else {
        None
    }
}

/// The messages that each server hands out, in order.
fn send_all(rt: &impl Abort, alloc: Global, cores: &mut [Core]) -> Vec<Sent> {
    let mut sent = Vec::new(alloc);
    for core in cores.iter_mut() {
        let messages = core.out().expect(rt, "four messages");
        sent.push(messages).expect(rt, "memory");
    }
    sent
}

/// What one server sends to another.
fn sent_to(rt: &impl Abort, sent: &[Sent], from: u32, to: u32) -> FiveMessage
    requires from { IsServer from }
    requires to { IsServer to }
    requires other { from ≢ to }
{
    let messages = sent.get(from as usize - 1).expect(rt, "four messages");
    message_to(messages, from, to).copy()
}

/// Gives a server the four messages to it. With the last one it passes the round.
fn receive(rt: &impl Abort, core: &mut Core, sent: &[Sent]) {
    let me = core.me();
    let last = if me == 5 { 4 } else { 5 };
    for from in 1..=5 {
        if from != me {
            let verdict = if from == last {
                Verdict::Ready
            } else {
                Verdict::Stored
            };
            let message = sent_to(rt, sent, from, me);
            assert!(rt; give(core, message) == Some(verdict));
        }
    }
}

/// Gives each server the messages to it.
fn receive_all(rt: &impl Abort, cores: &mut [Core], sent: &[Sent]) {
    for core in cores.iter_mut() {
        receive(rt, core, sent);
    }
}

/// Passes so many rounds.
fn pass_rounds(rt: &impl Abort, alloc: Global, cores: &mut [Core], rounds: u32) {
    for _ in 0..rounds {
        let sent = send_all(rt, alloc, cores);
        receive_all(rt, cores, sent.as_slice());
    }
}

/// The sender and the receiver of a message, its round and how many numbers it has, and what server 1 says of it.
type Offer = (u32, u32, u32, u64, Verdict);

/// Offers in the round, before the messages of the other servers come. A message of the next round may have any length.
const OFFERS: [Offer; 17] = [
    (0, 1, 3, 61, Verdict::Stranger),
    (6, 1, 3, 61, Verdict::Stranger),
    (1, 1, 3, 61, Verdict::Stranger),
    (2, 3, 3, 61, Verdict::Stranger),
    (1, 2, 3, 61, Verdict::Stranger),
    (6, 1, 2, 61, Verdict::Stranger),
    (2, 0, 9, 60, Verdict::Stranger),
    (2, 1, 2, 61, Verdict::Old),
    (2, 1, 0, 60, Verdict::Old),
    (2, 1, 5, 61, Verdict::TooEarly(3)),
    (5, 1, 9, 60, Verdict::TooEarly(3)),
    (2, 1, 3, 0, Verdict::WrongLength(0)),
    (3, 1, 3, 60, Verdict::WrongLength(60)),
    (4, 1, 3, 62, Verdict::WrongLength(62)),
    (2, 1, 4, 60, Verdict::Stored),
    (2, 1, 4, 61, Verdict::Repeat),
    (2, 1, 4, 60, Verdict::Repeat),
];

/// Offers in the round, once the message of server 2 has come.
const OFFERS_AFTER_ONE: [Offer; 4] = [
    (2, 1, 3, 61, Verdict::Repeat),
    (2, 1, 3, 60, Verdict::Repeat),
    (3, 1, 3, 60, Verdict::WrongLength(60)),
    (2, 1, 2, 61, Verdict::Old),
];

/// Offers after the last round.
const OFFERS_AFTER_THE_END: [Offer; 7] = [
    (2, 1, 129, 1, Verdict::Old),
    (5, 1, 0, 61, Verdict::Old),
    (2, 1, 130, 1, Verdict::TooEarly(130)),
    (2, 1, 131, 1, Verdict::TooEarly(130)),
    (0, 1, 129, 1, Verdict::Stranger),
    (1, 1, 130, 1, Verdict::Stranger),
    (2, 5, 130, 1, Verdict::Stranger),
];

/// A message of so many numbers.
fn message(from: u32, to: u32, round: u32, count: u64) -> FiveMessage {
    let mut numbers = ArrayVec::new();
    for n in 0..count {
        let _ = numbers.try_push(Fe::reduce(n as u128));
    }
    FiveMessage {
        from,
        to,
        round,
        numbers,
    }
}

/// Offers the messages to a server, and compares what it says.
fn expect_offers(rt: &impl Abort, core: &mut Core, offers: &[Offer]) {
    for (from, to, round, count, verdict) in offers {
        let offered = message(*from, *to, *round, *count);
        let said = give(core, offered);
        assert!(rt;
            said == Some(*verdict),
            "of {from} to {to} in {round}, {count} numbers"
        );
    }
}

/// Offers messages to server 1 before and between those that are sent to it in the round. With the last one it passes
/// the round.
fn offer(rt: &impl Abort, core: &mut Core, sent: &[Sent]) {
    expect_offers(rt, core, &OFFERS);
    assert!(rt; core.round() == ROUND);
    assert!(rt; give(core, sent_to(rt, sent, 2, 1)) == Some(Verdict::Stored));
    expect_offers(rt, core, &OFFERS_AFTER_ONE);
    assert!(rt; give(core, sent_to(rt, sent, 3, 1)) == Some(Verdict::Stored));
    assert!(rt; give(core, sent_to(rt, sent, 4, 1)) == Some(Verdict::Stored));
    assert!(rt; core.round() == ROUND);
    assert!(rt; give(core, sent_to(rt, sent, 5, 1)) == Some(Verdict::Ready));
    assert!(rt; core.round() == ROUND + 1);
}

/// Passes the round in which messages are offered to server 1.
fn pass_with_offers(rt: &impl Abort, alloc: Global, cores: &mut [Core]) {
    let sent = send_all(rt, alloc, cores);
    for core in cores.iter_mut() {
        if core.me() == 1 {
            offer(rt, core, sent.as_slice());
        } else {
            receive(rt, core, sent.as_slice());
        }
    }
}

/// The auction with the offers, which ends as it does without them.
fn expect_auction(rt: &impl Abort, alloc: Global, cores: &mut [Core]) {
    pass_rounds(rt, alloc, cores, ROUND);
    pass_with_offers(rt, alloc, cores);
    pass_rounds(rt, alloc, cores, ROUNDS - ROUND - 1);
    for core in cores.iter_mut() {
        if core.me() == 1 {
            expect_offers(rt, core, &OFFERS_AFTER_THE_END);
        }
        expect_end(rt, core, ROUNDS, false);
    }
}

#[test]
fn messages_that_are_offered(rt: HostRuntime) {
    let mut cores = servers(&rt, rt.alloc());
    expect_auction(&rt, rt.alloc(), cores.as_mut_slice());
    drop(cores);
}
