//! A session file and a schedule for its lots that are cut at each place, and lots of which one is spent.

use super::frame::{desk_of, expect_job, expect_said};
use beet_errand::{Reply, Status, give_answer};
use beet_lot_load::LotsTold;
use std::alloc::Global;
use std::process::Abort;
use std::str;
use std::sync::Wait;
use std::thread::Threads;
use std::time::Clock;

/// A session of one lot.
const SESSION: &str = "beet-session,1\nnorth,g1.auc,b1.book\n";

/// What is said of the lot, and of two sessions that have this one each, of which the second calls it otherwise.
const NORTH: &str = "lot north\nprice 100\nvolume 35\nrounds 128\n";

const NORTH_EQUAL: &str = "lot north\nprice 100\nvolume 35\nrounds 128\ntranscripts equal\n";

const SOUTH_EQUAL: &str = "lot south\nprice 100\nvolume 35\nrounds 128\ntranscripts equal\n";

/// A command that reads the session, and what is said if it is whole.
type Reading = (&'static str, &'static str);

const READINGS: [Reading; 3] = [
    ("beet_session session made s.srv", NORTH),
    ("beet_session pair made south.ses s.srv 2 w", NORTH_EQUAL),
    ("beet_session pair south.ses made s.srv 2 w", SOUTH_EQUAL),
];

/// The bytes of a text from one place to another.
fn part(rt: &impl Abort, whole: &'static str, from: usize, to: usize) -> &'static str {
    let bytes = whole.as_bytes().get(from..to).expect(rt, "a part");
    str::from_utf8(bytes).expect(rt, "text")
}

/// Does a command over the first so many bytes of the session, and compares the status and the text.
fn expect_front(
    rt: &(impl Abort + Threads + Wait + Clock + Sync),
    alloc: Global,
    line: &str,
    length: usize,
    status: u8,
    text: &str,
) {
    let made = part(rt, SESSION, 0, length);
    expect_job(rt, alloc, line, made, 0, status, text);
}

/// The header is cut before its 14th byte, and then the row of the lot before its last field, which begins at 28. What
/// is left of that is a name, but of no file.
fn expect_fronts(
    rt: &(impl Abort + Threads + Wait + Clock + Sync),
    alloc: Global,
    (line, whole): Reading,
) {
    for length in 0..14 {
        let text = "bad file: made row 1 reason 1\n";
        expect_front(rt, alloc, line, length, 5, text);
    }
    for length in 14..29 {
        let text = "bad file: made row 2 reason 2\n";
        expect_front(rt, alloc, line, length, 5, text);
    }
    for length in 29..35 {
        let name = part(rt, SESSION, 28, length);
        let text = format!(in alloc; "read fault: {name}\n").expect(rt, "memory");
        expect_front(rt, alloc, line, length, 3, text.as_str());
    }
    for length in 35..37 {
        expect_front(rt, alloc, line, length, 0, whole);
    }
}

#[test]
fn sessions_are_cut(rt: HostRuntime) {
    for reading in READINGS {
        expect_fronts(&rt, rt.alloc(), reading);
    }
}

/// A schedule of two messages of the second lot, which let server 2 pass round 0.
const SCHEDULE: &str = "beet-lot-schedule,1\n2,1,2,0\n2,3,2,0\n";

/// What is said of the first lot, of which nothing is delivered.
const FIRST_WAITS: &str =
    "lot north\nserver 1 round 0 waiting\nserver 2 round 0 waiting\nserver 3 round 0 waiting\n";

/// Plays the first so many bytes of the schedule, and compares the status and the text.
fn expect_refused(
    rt: &(impl Abort + Threads + Wait + Clock + Sync),
    alloc: Global,
    length: usize,
    text: &str,
) {
    let made = part(rt, SCHEDULE, 0, length);
    expect_job(
        rt,
        alloc,
        "beet_session replay day.ses s.srv made",
        made,
        0,
        5,
        text,
    );
}

/// Plays the first so many bytes of the schedule, and compares the round of server 2 in the second lot and how many
/// messages are undelivered.
fn expect_played(
    rt: &(impl Abort + Threads + Wait + Clock + Sync),
    alloc: Global,
    length: usize,
    (round, undelivered): (u32, u32),
) {
    let made = part(rt, SCHEDULE, 0, length);
    let first = FIRST_WAITS;
    let text = format!(in alloc;
        "{first}lot south\nserver 1 round 0 waiting\nserver 2 round {round} waiting\n\
        server 3 round 0 waiting\nundelivered {undelivered}\n"
    )
    .expect(rt, "memory");
    let line = "beet_session replay day.ses s.srv made";
    expect_job(rt, alloc, line, made, 0, 0, text.as_str());
}

/// The header is cut before its 19th byte, and then each row before its last.
#[test]
fn schedules_of_lots_are_cut(rt: HostRuntime) {
    for length in 0..19 {
        expect_refused(&rt, rt.alloc(), length, "bad file: made row 1 reason 1\n");
    }
    for length in 19..21 {
        expect_played(&rt, rt.alloc(), length, (0, 12));
    }
    for length in 21..27 {
        expect_refused(&rt, rt.alloc(), length, "bad file: made row 2 reason 1\n");
    }
    for length in 27..29 {
        expect_played(&rt, rt.alloc(), length, (0, 11));
    }
    for length in 29..35 {
        expect_refused(&rt, rt.alloc(), length, "bad file: made row 3 reason 1\n");
    }
    for length in 35..37 {
        expect_played(&rt, rt.alloc(), length, (1, 12));
    }
}

/// A reply for a lot alone.
fn reply_of(rt: &impl Abort, alloc: Global, status: Status) -> Reply {
    let text = Vec::from_slice(alloc, b"end\n").expect(rt, "memory");
    Reply::of_text(alloc, status, text)
}

/// The reply for three lots, of which the second is spent.
fn spent_reply(rt: &impl Abort, alloc: Global) -> Reply {
    let mut told = LotsTold::new(alloc);
    for (name, status) in [
        ("one", Status::Done),
        ("two", Status::MasksSpent),
        ("three", Status::Done),
    ] {
        let reply = reply_of(rt, alloc, status);
        told.add(alloc, name, &reply).expect(rt, "memory");
    }
    told.into_reply(alloc)
}

/// Gives a reply, and compares the status and the text.
fn expect_spent(rt: &impl Abort, alloc: Global, reply: Reply, text: &str) {
    let mut desk = desk_of(rt, alloc, 0);
    let end = give_answer(alloc, &mut desk, Ok(reply));
    assert!(rt; end.code() == 6);
    expect_said(rt, &desk, text);
}

/// The status is 6, also if another session is told to look the same.
#[test]
fn a_spent_lot_is_told(rt: HostRuntime) {
    let alloc = rt.alloc();
    let text = "lot one\nend\nlot two\nend\nlot three\nend\n";
    expect_spent(&rt, alloc, spent_reply(&rt, alloc), text);
    let equal = spent_reply(&rt, alloc).telling_equal(Vec::new(alloc));
    let text = "lot one\nend\nlot two\nend\nlot three\nend\ntranscripts equal\n";
    expect_spent(&rt, alloc, equal.expect(&rt, "memory"), text);
}
