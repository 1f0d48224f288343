use super::frame::{CLEAR, RECORD, desk_of, done, expect_said, files, held, run_over};
use beet_field::{Point, Trio};
use beet_link::{Gate, GateNote};
use beet_store::{Held, MemoryDesk};
use crossbeam_channel::{Receiver, Sender};
use std::alloc::Global;
use std::process::Abort;
use std::sync::Wait;
use std::sync::atomic::{AtomicU64, Ordering};
use std::thread;
use std::thread::Threads;
use std::time::Clock;

/// How often a server that is held looks for the others before it is let go.
const TURNS: u64 = 10_000_000;

/// How often a server that stays looks whether another goes on.
const STAY: u64 = 2_000;

/// A gate that holds each server in round 0 until all three are there. Server 1 stays in round 0, server 2 in round 1
/// and server 3 in round 2. No other can go on from that round, since the one that stays has not put its messages
/// yet.
#[derive(Drop)]
struct Meeting<R: Wait + Drop> {
    rt: R,
    /// Takes the note of each server that comes in round 0.
    first: Sender<GateNote>,
    /// How many servers came in round 0.
    here: AtomicU64,
    /// How many of them were let go before all three were there.
    let_go: AtomicU64,
    /// How many servers saw another go on from the round in which they stayed.
    passed: AtomicU64,
    /// How many seats each server took.
    seats: Trio<AtomicU64>,
    /// How many notes of each server told the round that was next at its seat.
    met: Trio<AtomicU64>,
}

/// Holds a server until all three are there, or its turns are spent.
fn hold(here: &AtomicU64, let_go: &AtomicU64) {
    here.fetch_add(1, Ordering::SeqCst);
    for _ in 0..TURNS {
        if here.load(Ordering::SeqCst) >= 3 {
            return;
        }
        thread::yield_now();
    }
    let_go.fetch_add(1, Ordering::SeqCst);
}

/// Whether another server than this one comes to a later round while this one stays.
fn is_passed(met: &Trio<AtomicU64>, note: GateNote) -> bool {
    let here = u64::from(note.round) + 1;
    for _ in 0..STAY {
        for peer in note.server.others() {
            if met.get(peer).load(Ordering::SeqCst) > here {
                return true;
            }
        }
        thread::yield_now();
    }
    false
}

/// The seat of a server: whose it is, and the round in which it is to come next.
#[derive(Drop)]
struct Seat {
    server: Point,
    next: u32,
}

impl<R: Wait + Sync + Drop> Gate for Meeting<R> {
    type Seat = Seat;

    fn seat(&self, server: Point) -> Seat {
        self.seats.get(server).fetch_add(1, Ordering::SeqCst);
        Seat { server, next: 0 }
    }

    fn meet(&self, seat: &mut Seat, note: GateNote) {
        if note.server == seat.server && note.round == seat.next {
            self.met.get(note.server).fetch_add(1, Ordering::SeqCst);
        }
        seat.next = seat.next.saturating_add(1);
        if note.round == 0 {
            let _sent = self.first.send(&self.rt, note);
            hold(&self.here, &self.let_go);
        }
        if u64::from(note.round) + 1 == note.server.number() && is_passed(&self.met, note) {
            self.passed.fetch_add(1, Ordering::SeqCst);
        }
    }
}

/// Compares the next three notes with the first note of each server, in some order.
fn expect_first_notes(rt: &(impl Abort + Wait), notes: &Receiver<GateNote>) {
    let mut named = [0; 3];
    for _ in 0..3 {
        match notes.recv(rt) {
            Ok(GateNote { server, round: 0 }) => match server {
                Point::One => named[0] = 1,
                Point::Two => named[1] = 1,
                Point::Three => named[2] = 1,
            },
            _ => (),
        }
    }
    assert!(rt; named == [1, 1, 1]);
}

/// What was counted of each server.
fn counts_of(counts: &Trio<AtomicU64>) -> [u64; 3] {
    [
        counts.one.load(Ordering::SeqCst),
        counts.two.load(Ordering::SeqCst),
        counts.three.load(Ordering::SeqCst),
    ]
}

/// Expects that all three servers were there, each in one seat and in each of so many rounds, and that none went on
/// from a round in which another stayed.
fn expect_met<R: Wait + Sync + Drop>(rt: &impl Abort, gate: &Meeting<R>, rounds: u64) {
    assert_eq!(rt; gate.here.load(Ordering::SeqCst), 3);
    assert_eq!(rt; gate.let_go.load(Ordering::SeqCst), 0);
    assert_eq!(rt; gate.passed.load(Ordering::SeqCst), 0);
    assert!(rt; counts_of(&gate.seats) == [1, 1, 1]);
    assert!(rt; counts_of(&gate.met) == [rounds, rounds, rounds]);
}

/// None of each server.
fn nothing() -> Trio<AtomicU64> {
    Trio::of(|_| AtomicU64::new(0))
}

/// A gate at which no server has come, with the queue that it sends first notes to.
fn gate_of<R: Abort + Wait + Sync + Drop>(rt: R, first: Sender<GateNote>) -> Meeting<R> {
    Meeting {
        rt,
        first,
        here: AtomicU64::new(0),
        let_go: AtomicU64::new(0),
        passed: AtomicU64::new(0),
        seats: nothing(),
        met: nothing(),
    }
}

/// Does the job of a line over the files and envelopes under a gate, and compares its text.
fn expect_done<G: Gate>(
    rt: &(impl Abort + Threads + Wait + Clock + Sync),
    alloc: Global,
    line: &str,
    gate: &G,
    text: &str,
) {
    let mut desk = MemoryDesk::new(Vec::new(alloc));
    let files = sealed(rt, alloc);
    assert!(rt; run_over(rt, alloc, line, files, 0, &mut desk, gate) == 0);
    expect_said(rt, &desk, text);
}

/// Does the job of a line under a new gate: the text, and that all three servers met in each of so many rounds.
fn expect_meeting<R: Abort + Threads + Wait + Clock + Sync + Copy + Drop>(
    rt: R,
    alloc: Global,
    line: &str,
    rounds: u64,
    text: &str,
) {
    let (first, notes) = crossbeam_channel::bounded(alloc, 3).expect(&rt, "memory");
    let gate = gate_of(rt, first);
    expect_done(&rt, alloc, line, &gate, text);
    expect_met(&rt, &gate, rounds);
    expect_first_notes(&rt, &notes);
}

/// Each bid, sealed, and the names of its envelopes.
const SEALS: [(&str, [&str; 3]); 3] = [
    (
        "seal g.auc anna.bid seed:0a0a0a0a0a0a0a0a0a0a0a0a0a0a0a0a0a0a0a0a0a0a0a0a0a0a0a0a0a0a0a0a a",
        ["a.1", "a.2", "a.3"],
    ),
    (
        "seal g.auc bo.bid seed:0b0b0b0b0b0b0b0b0b0b0b0b0b0b0b0b0b0b0b0b0b0b0b0b0b0b0b0b0b0b0b0b b",
        ["b.1", "b.2", "b.3"],
    ),
    (
        "seal g.auc carl.bid seed:0c0c0c0c0c0c0c0c0c0c0c0c0c0c0c0c0c0c0c0c0c0c0c0c0c0c0c0c0c0c0c0c c",
        ["c.1", "c.2", "c.3"],
    ),
];

/// The list of these envelopes.
const LIST: &str = "beet-list,1\nanna,a.1,a.2,a.3\nbo,b.1,b.2,b.3\ncarl,c.1,c.2,c.3\n";

/// Appends a file that a desk was given.
fn push_put(rt: &impl Abort, alloc: Global, desk: &MemoryDesk, name: &str, files: &mut Vec<Held>) {
    let bytes = desk.file(name).expect(rt, "a file that was put");
    let file = held(rt, alloc, name, bytes);
    files.push(file).expect(rt, "memory");
}

/// Adds the files that the job of a line puts to these files.
pub(crate) fn add_put(
    rt: &(impl Abort + Threads + Wait + Clock + Sync),
    alloc: Global,
    line: &str,
    names: &[&str],
    files: &mut Vec<Held>,
) {
    let mut desk = desk_of(rt, alloc, 0);
    done(rt, alloc, line, "", &mut desk);
    for name in names {
        push_put(rt, alloc, &desk, name, files);
    }
}

/// Adds the envelopes of these bids to these files.
fn add_sealed(
    rt: &(impl Abort + Threads + Wait + Clock + Sync),
    alloc: Global,
    seals: &[(&str, [&str; 3])],
    files: &mut Vec<Held>,
) {
    for (line, names) in seals {
        add_put(rt, alloc, line, names, files);
    }
}

/// The files, with the list and all envelopes.
pub(crate) fn sealed(
    rt: &(impl Abort + Threads + Wait + Clock + Sync),
    alloc: Global,
) -> Vec<Held> {
    let mut files = files(rt, alloc, LIST);
    add_sealed(rt, alloc, &SEALS, &mut files);
    files
}

/// What is said of the outcome of the auction, and of that of the trial.
pub(crate) const OUTCOME: &str = "price 110\nvolume 35\nrounds 255\n";

pub(crate) const TRIAL: &str = "bidders 0 prices 1\nprice 1000\nvolume 0\nrounds 128\n";

/// The jobs that run in threads under the gate, with their rounds and their texts.
const MEETINGS: [(&str, u64, &str); 5] = [
    (CLEAR, 255, OUTCOME),
    (RECORD, 255, OUTCOME),
    ("open g.auc s.srv made", 255, OUTCOME),
    ("witness g.auc s.srv made w", 255, OUTCOME),
    ("trial 0 1", 128, TRIAL),
];

/// Does the job of each case under a new gate.
fn expect_meetings<R: Abort + Threads + Wait + Clock + Sync + Copy + Drop>(
    rt: R,
    alloc: Global,
    cases: &[(&str, u64, &str)],
) {
    for (line, rounds, text) in cases {
        expect_meeting(rt, alloc, line, *rounds, text);
    }
}

#[test]
fn servers_meet_in_every_round(rt: HostRuntime) {
    expect_meetings(rt, rt.alloc(), &MEETINGS);
}
