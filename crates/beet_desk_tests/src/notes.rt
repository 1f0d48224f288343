//! Three servers that tell the desk of their one round, in which 64 numbers are opened.

ghost use Rattle.std.specs.Prelude.{◌≡◌};

use beet_desk::{DeskNote, NoteRest, NoteRx, NoteTx, note_queue};
use beet_field::{Fe, MOST_NUMBERS, Point, Trio};
use beet_link::FreeGate;
use beet_samples::{Sample, three_of_inputs};
use beet_server::ServerCore;
use beet_station::{Sink, stations};
use beet_threads::{Serving, Telling, apart, in_threads, rooms, runs, servings};
use std::alloc::Global;
use std::process::Abort;
use std::sync::atomic::{AtomicBool, AtomicU64, Ordering};
use std::sync::{Arc, Wait};
use std::thread;
use std::thread::Threads;
use std::time::Clock;

/// How often a server that is held looks whether its note was taken before it goes on.
const TURNS: u64 = 10_000_000;

/// How many notes of each server were taken.
type Taken = Arc<Trio<AtomicU64>, Global>;

/// The end of a server that is held after each note until the desk has taken it, or its turns are spent.
#[derive(Drop)]
struct Held {
    tx: NoteTx,
    taken: Taken,
    /// How many notes it has told.
    told: u64,
    /// After how many of them its turns were spent.
    late: u64,
}

/// Whether so many notes are taken before the turns are spent.
fn is_taken(taken: &AtomicU64, count: u64) -> bool {
    for _ in 0..TURNS {
        if taken.load(Ordering::SeqCst) >= count {
            return true;
        }
        thread::yield_now();
    }
    false
}

impl Sink for Held {
    ghost use Rattle.std.specs.Prelude.{drop};

    ghost due = { λ t _. drop t.tx.pushed t.tx.notes };

    ghost origin = { λ t. record t {
      tx = record { queue = t.tx.queue; server = t.tx.server; notes = t.tx.notes; pushed = 0 };
      told = 0;
      late = 0;
    } };

    fn tell<R: Wait>(&mut self, rt: &R, server: Point, round: u32, opened: &[Fe]) {
        self.tx.tell(rt, server, round, opened);
        self.told = self.told.saturating_add(1);
        if !is_taken(self.taken.get(server), self.told) {
            self.late = self.late.saturating_add(1);
        }
    }
}

/// The held end of a server.
fn holding(rt: &impl Abort, tx: NoteTx, taken: &Taken) -> Held
    ensures { result.tx ≡ tx }
{
    Held {
        tx,
        taken: Arc::try_clone(taken).expect(rt, "a count"),
        told: 0,
        late: 0,
    }
}

/// The three servers with their held ends, and the end of the desk.
fn held_servings(
    rt: &impl Abort,
    alloc: Global,
    taken: &Taken,
) -> (Trio<Serving<Sample, Held>>, NoteRx) {
    let cores = three_of_inputs(alloc).expect(rt, "three servers");
    let runs = runs(&cores);
    let (senders, receiver) = note_queue(alloc, &cores).expect(rt, "memory");
    let (links, mails) = rooms(alloc, &cores).expect(rt, "memory");
    let Trio { one, two, three } = senders;
    let sinks = Trio {
        one: holding(rt, one, taken),
        two: holding(rt, two, taken),
        three: holding(rt, three, taken),
    };
    (
        servings(stations(cores, links), mails, sinks, runs),
        receiver,
    )
}

/// Whether these are the values of the lines (3, 5), (4, 5) and so on.
fn are_values(numbers: &[Fe]) -> bool {
    numbers
        .iter()
        .map(|number| number.value())
        .eq((0..MOST_NUMBERS as u64).map(|k| 3 + k))
}

/// Whether the note is that of the round, with all numbers.
fn is_whole(note: &DeskNote) -> bool {
    note.round == 0 && are_values(note.numbers.as_slice())
}

/// Takes notes and counts those of each server, until the flag was raised and a later take found nothing: how many were
/// whole.
fn take_all<R: Wait>(rt: &R, rx: NoteRx, taken: &Trio<AtomicU64>, done: &AtomicBool) -> u64 {
    let mut receiver = rx;
    let mut whole = 0_u64;
    for _ in rt.forever() {
        let over = done.load(Ordering::SeqCst);
        match receiver.take(rt) {
            Some(note) => {
                if is_whole(&note) {
                    whole = whole.saturating_add(1);
                }
                taken.get(note.server).fetch_add(1, Ordering::SeqCst);
            }
            None => {
                if over {
                    return whole;
                }
                thread::yield_now();
            }
        }
    }
    unreachable!()
}

/// What comes of the three servers: each with its end, or all as they began.
type Ended<K> = Result<Trio<Telling<Sample, K>>, Trio<ServerCore<Sample>>>;

/// Runs the servers in threads, and raises the flag once they have ended.
fn run_held<R: Threads + Wait + Clock + Sync>(
    rt: &R,
    servings: Trio<Serving<Sample, Held>>,
    done: &AtomicBool,
) -> Ended<Held> {
    let ended = in_threads(rt, &FreeGate, servings);
    done.store(true, Ordering::SeqCst);
    ended
}

/// Expects that the server has told its note, and that it was taken before the turns were spent.
fn expect_in_time(rt: &impl Abort, end: &Telling<Sample, Held>) {
    assert!(rt; end.0.ended());
    assert_eq!(rt; end.1.told, 1);
    assert_eq!(rt; end.1.late, 0);
}

/// Runs the servers, each held after its note until a fourth thread has taken it.
fn expect_taken<R: Abort + Threads + Wait + Clock + Sync>(rt: &R, alloc: Global) {
    let taken = Arc::new(alloc, Trio::of(|_| AtomicU64::new(0))).expect(rt, "memory");
    let (servings, receiver) = held_servings(rt, alloc, &taken);
    let taken = &*taken;
    let done = AtomicBool::new(false);
    let done = &done;
    let (whole, ended) = thread::join(
        rt,
        move || take_all(rt, receiver, taken, done),
        move || run_held(rt, servings, done),
    );
    assert_eq!(rt; whole, 3);
    let ends = ended.ok().expect(rt, "three threads");
    expect_in_time(rt, &ends.one);
    expect_in_time(rt, &ends.two);
    expect_in_time(rt, &ends.three);
    drop(ends);
}

#[test]
fn notes_are_taken_while_their_senders_run(rt: HostRuntime) {
    expect_taken(&rt, rt.alloc());
}

/// Runs the servers to their end, and takes one note: what is left once the ends are joined, and the server of the
/// note.
fn after_one(
    rt: &(impl Abort + Threads + Wait + Clock + Sync),
    alloc: Global,
) -> (NoteRest, Point) {
    let cores = three_of_inputs(alloc).expect(rt, "three servers");
    let runs = runs(&cores);
    let (senders, receiver) = note_queue(alloc, &cores).expect(rt, "memory");
    let (links, mails) = rooms(alloc, &cores).expect(rt, "memory");
    let servings = servings(stations(cores, links), mails, senders, runs);
    let ends = match in_threads(rt, &FreeGate, servings) {
        Ok(ends) => ends,
        Err(_) => panic!(rt; "three threads"),
    };
    let (cores, told) = apart(ends);
    drop(cores);
    let mut receiver = receiver;
    let note = receiver.take(rt).expect(rt, "a note");
    assert!(rt; is_whole(&note));
    (receiver.close(told), note.server)
}

/// Takes what is left: two whole notes, each of another server, and nothing more.
fn expect_two(rt: &(impl Abort + Wait), rest: NoteRest, first: Point) {
    let mut rest = rest;
    let second = rest.next(rt).expect(rt, "a second note");
    let third = rest.next(rt).expect(rt, "a third note");
    assert!(rt; is_whole(&second) && is_whole(&third));
    assert!(rt; second.server != first && third.server != first && second.server != third.server);
    assert!(rt; rest.next(rt).is_none());
}

#[test]
fn notes_that_are_left_are_handed_out(rt: HostRuntime) {
    let (rest, first) = after_one(&rt, rt.alloc());
    expect_two(&rt, rest, first);
}
