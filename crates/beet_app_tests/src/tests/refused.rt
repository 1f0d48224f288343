//! Each fetch and each call of the desk refused once, for every job.

use super::frame::{CLEAR, RECORD, desk_of, expect_said, push_all, run_over};
use super::meeting::{OUTCOME, TRIAL, add_put, sealed};
use beet_link::FreeGate;
use beet_samples::FIVE_SEEDS;
use beet_store::{Held, MemoryDesk};
use std::alloc::Global;
use std::process::Abort;
use std::sync::Wait;
use std::thread::Threads;
use std::time::Clock;

/// A book and two sales whose bidders have tapes, a second session, two schedules of no message, and the tape of a bid
/// that is sealed.
const FILES: [(&str, &str); 10] = [
    (
        "tapes.book",
        "beet-book,1\ndan,0,dan.bid,tape,two\neva,0,eva.bid,tape,pair\n",
    ),
    ("eva.bid", "beet-bid,1\n100,0,40\n"),
    (
        "c.sal",
        "beet-sale,1\ngates,chain\nann,0,700,tape,two\nben,0,900,tape,pair\n",
    ),
    (
        "d.sal",
        "beet-sale,1\ngates,chain\nann,0,700,tape,two\nben,0,950,tape,pair\n",
    ),
    (
        "moved.ses",
        "beet-session,1\nnorth,g.auc,c.book\nsouth,g1.auc,b1.book\n",
    ),
    ("two", "0000000000000001\n0000000000000002\n"),
    ("pair", "0000000000000003\n0000000000000004\n"),
    ("none.sch", "beet-schedule,1\n"),
    ("none.lots", "beet-lot-schedule,1\n"),
    (
        "eight",
        "0000000000000001\n0000000000000002\n0000000000000003\n0000000000000004\n0000000000000005\n0000000000000006\n\
        0000000000000007\n0000000000000008\n",
    ),
];

/// Two worlds that look the same to server 2, and two that look the same to servers 2 and 5 of five.
const WORLDS: &str = "worlds g.auc s.srv b.book c.book 2 w";

const FIVE_WORLDS: &str = "five_worlds g.auc v.srv b.book c.book 2 5 w";

/// The files that are put by the jobs, and the length of each.
const NOTHING: Put = (&[], &[]);

const TRANSCRIPTS: Put = (&["o.1", "o.2", "o.3"], &[34_800, 35_000, 34_800]);

const BOTH: [&str; 3] = ["w.first", "w.second", "w.words"];

const BOTH_WORLDS: Put = (&BOTH, &[35_000, 35_000, 62_224]);

const BOTH_WORLDS_OF_FIVE: Put = (&BOTH, &[154_544, 154_544, 206_016]);

const BOTH_SALES: Put = (&BOTH, &[26_424, 26_424, 37_264]);

const BOTH_SESSIONS: Put = (&BOTH, &[54_488, 54_488, 99_536]);

const ENVELOPES: Put = (&["e.1", "e.2", "e.3"], &[104, 104, 104]);

const SEEN: Put = (&["w.1", "w.2", "w.3"], &[34_800, 34_800, 34_800]);

/// What is said of a tally, of a watched auction, of an auction among five servers, of a schedule of no message, of two
/// worlds, of a sealed bid, of two lots that are run or replayed, of a sale, and of two sales and two sessions.
const SUMS: &str = "supply 80\ndemand 35\n";

const COUNTS: &str = "price 110\nvolume 35\nrounds 255\nserver 1 notes 255 opened 7\n\
    server 2 notes 255 opened 7\nserver 3 notes 255 opened 7\n";

const AMONG_FIVE: &str = "price 110\nvolume 35\nrounds 259\n";

const WAITING: &str =
    "server 1 round 0 waiting\nserver 2 round 0 waiting\nserver 3 round 0 waiting\nundelivered 6\n";

const EQUAL: &str = "price 110\nvolume 35\nrounds 255\ntranscripts equal\n";

const EQUAL_AMONG_FIVE: &str = "price 110\nvolume 35\nrounds 259\ntranscripts equal\n";

const SEALED: &str = "sealed 4\n";

const LOTS: &str =
    "lot north\nprice 110\nvolume 35\nrounds 255\nlot south\nprice 100\nvolume 35\nrounds 128\n";

const SOLD: &str = "winner ben\nprice 700\nrounds 255\n";

const SOLD_ALIKE: &str = "winner ben\nprice 700\nrounds 255\ntranscripts equal\n";

const LOTS_ALIKE: &str =
    "lot north\nprice 110\nvolume 35\nrounds 255\nlot south\nprice 100\nvolume 35\nrounds 128\n\
    transcripts equal\n";

const REPLAYED: &str =
    "lot north\nserver 1 round 0 waiting\nserver 2 round 0 waiting\nserver 3 round 0 waiting\n\
    lot south\nserver 1 round 0 waiting\nserver 2 round 0 waiting\nserver 3 round 0 waiting\nundelivered 12\n";

/// The names of files that are put, and their lengths in bytes.
type Put = (&'static [&'static str], &'static [usize]);

/// A book with its bids, the book that looks the same, a book of one bidder, and a list with its envelopes.
const BOOK: [&str; 4] = ["b.book", "anna.bid", "bo.bid", "carl.bid"];

const OTHER: [&str; 4] = ["c.book", "anna2.bid", "bo2.bid", "carl.bid"];

const ONE: [&str; 3] = ["g1.auc", "b1.book", "dan.bid"];

const LIST: [&str; 10] = [
    "made", "a.1", "a.2", "a.3", "b.1", "b.2", "b.3", "c.1", "c.2", "c.3",
];

/// The files of the jobs over one book, and of those over a list.
const OF_BOOK: &[&[&str]] = &[&["g.auc", "s.srv"], &BOOK];

const OF_LIST: &[&[&str]] = &[&["g.auc", "s.srv"], &LIST];

/// A job, the files that it fetches, in order, those that it puts, and its text.
type Job = (
    &'static str,
    &'static [&'static [&'static str]],
    Put,
    &'static str,
);

/// A case of each job.
const JOBS: [Job; 18] = [
    (
        "tally g1.auc tapes.book",
        &[&["g1.auc", "tapes.book", "dan.bid", "two", "eva.bid", "pair"]],
        NOTHING,
        SUMS,
    ),
    (CLEAR, OF_BOOK, NOTHING, OUTCOME),
    ("watch g.auc s.srv b.book", OF_BOOK, NOTHING, COUNTS),
    (
        "rehearse g.auc s.srv b.book none.sch",
        &[&["g.auc", "s.srv"], &BOOK, &["none.sch"]],
        NOTHING,
        WAITING,
    ),
    (RECORD, OF_BOOK, TRANSCRIPTS, OUTCOME),
    (
        "audit g.auc o.1 o.2 o.3",
        &[&["g.auc", "o.1", "o.2", "o.3"]],
        NOTHING,
        OUTCOME,
    ),
    (
        WORLDS,
        &[&["g.auc", "s.srv"], &BOOK, &OTHER],
        BOTH_WORLDS,
        EQUAL,
    ),
    (
        "five g.auc v.srv b.book",
        &[&["g.auc", "v.srv"], &BOOK],
        NOTHING,
        AMONG_FIVE,
    ),
    (
        FIVE_WORLDS,
        &[&["g.auc", "v.srv"], &BOOK, &OTHER],
        BOTH_WORLDS_OF_FIVE,
        EQUAL_AMONG_FIVE,
    ),
    (
        "seal g.auc anna.bid tape:eight e",
        &[&["g.auc", "anna.bid", "eight"]],
        ENVELOPES,
        SEALED,
    ),
    ("open g.auc s.srv made", OF_LIST, NOTHING, OUTCOME),
    ("witness g.auc s.srv made w", OF_LIST, SEEN, OUTCOME),
    ("trial 0 1", &[], NOTHING, TRIAL),
    (
        "beet_session session day.ses s.srv",
        &[&["day.ses", "s.srv", "g.auc"], &BOOK, &ONE],
        NOTHING,
        LOTS,
    ),
    (
        "beet_sale sale c.sal s.srv",
        &[&["c.sal", "s.srv", "two", "pair"]],
        NOTHING,
        SOLD,
    ),
    (
        "beet_sale pair c.sal d.sal s.srv 2 w",
        &[&["c.sal", "s.srv", "two", "pair", "d.sal"]],
        BOTH_SALES,
        SOLD_ALIKE,
    ),
    (
        "beet_session replay day.ses s.srv none.lots",
        &[&["day.ses", "s.srv", "g.auc"], &BOOK, &ONE, &["none.lots"]],
        NOTHING,
        REPLAYED,
    ),
    (
        "beet_session pair day.ses moved.ses s.srv 2 w",
        &[
            &["day.ses", "s.srv", "g.auc"],
            &BOOK,
            &ONE,
            &["moved.ses", "g.auc"],
            &OTHER,
            &ONE,
        ],
        BOTH_SESSIONS,
        LOTS_ALIKE,
    ),
];

/// All files that the jobs fetch.
fn all_files(rt: &(impl Abort + Threads + Wait + Clock + Sync), alloc: Global) -> Vec<Held> {
    let mut files = sealed(rt, alloc);
    push_all(rt, alloc, &mut files, &[FIVE_SEEDS]);
    push_all(rt, alloc, &mut files, &FILES);
    add_put(rt, alloc, RECORD, TRANSCRIPTS.0, &mut files);
    files
}

/// Compares how many of these files a desk holds, which are the first, and their lengths.
fn expect_first(rt: &impl Abort, desk: &MemoryDesk, (names, lengths): Put, count: usize) {
    for (i, name) in names.iter().enumerate() {
        let wanted = if i < count {
            lengths.get(i).copied()
        } else {
            None
        };
        let found = desk.file(name).map(|file| file.len());
        assert!(rt; found == wanted, "of {name}");
    }
}

/// Does a job, of which this fetch and this call of the desk fail, and compares its status, how many of its files
/// stand, and its text.
fn expect_end(
    rt: &(impl Abort + Threads + Wait + Clock + Sync),
    alloc: Global,
    (line, _, put, _): Job,
    (fetch, call): (usize, usize),
    (status, count): (u8, usize),
    text: &str,
) {
    let mut desk = desk_of(rt, alloc, call as u64);
    let files = all_files(rt, alloc);
    let found = run_over(rt, alloc, line, files, fetch as u64, &mut desk, &FreeGate);
    assert!(rt; found == status, "of {line}");
    expect_first(rt, &desk, put, count);
    expect_said(rt, &desk, text);
}

/// Each fetch of a job fails once, and the line names its file: how many it makes.
fn expect_read_faults(
    rt: &(impl Abort + Threads + Wait + Clock + Sync),
    alloc: Global,
    job: Job,
    fetched: &[&[&str]],
) -> usize {
    let mut fetch = 0_usize;
    for names in fetched {
        for name in *names {
            fetch = fetch.saturating_add(1);
            let text = format!(in alloc; "read fault: {name}\n").expect(rt, "memory");
            expect_end(rt, alloc, job, (fetch, 0), (3, 0), text.as_str());
        }
    }
    fetch
}

/// Each call of the desk of a job fails once, of which so many put files: those before it stand, and nothing is said.
fn expect_write_faults(
    rt: &(impl Abort + Threads + Wait + Clock + Sync),
    alloc: Global,
    job: Job,
    put: usize,
) {
    for before in 0..=put {
        let calls = (0, before.saturating_add(1));
        expect_end(rt, alloc, job, calls, (4, before), "");
    }
}

/// Each fetch and each call of the desk of a job fails once. It makes no more: if the next ones would fail, it is
/// done.
fn expect_each_refused(rt: &(impl Abort + Threads + Wait + Clock + Sync), alloc: Global, job: Job) {
    let (_, fetched, (put, _), text) = job;
    let fetches = expect_read_faults(rt, alloc, job, fetched);
    expect_write_faults(rt, alloc, job, put.len());
    let beyond = (fetches.saturating_add(1), put.len().saturating_add(2));
    expect_end(rt, alloc, job, beyond, (0, put.len()), text);
}

/// Does the jobs.
fn expect_jobs(rt: &(impl Abort + Threads + Wait + Clock + Sync), alloc: Global, jobs: &[Job]) {
    for job in jobs {
        expect_each_refused(rt, alloc, *job);
    }
}

#[test]
fn each_call_of_the_outside_is_refused_once(rt: HostRuntime) {
    expect_jobs(&rt, rt.alloc(), &JOBS);
}
