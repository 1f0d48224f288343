use beet_app::run;
use beet_errand::{NewFile, Reply, Status, give_answer};
use beet_link::{FreeGate, Gate};
use beet_sale_app::run_sale;
use beet_samples::AUCTION_FILES;
use beet_session_app::run_session;
use beet_store::{Held, MemoryDesk, MemoryShelf};
use std::alloc::Global;
use std::process::Abort;
use std::sync::Wait;
use std::thread::Threads;
use std::time::Clock;

/// The seeds of three servers, another book for the auction of [`AUCTION_FILES`] that has the same outcome, an auction
/// of one price with a bidder, a list of no envelopes, a session of both auctions, and one of the second alone.
const FILES: [(&str, &str); 11] = [
    (
        "s.srv",
        "beet-servers,1\n1,seed,0101010101010101010101010101010101010101010101010101010101010101\n\
        2,seed,0202020202020202020202020202020202020202020202020202020202020202\n\
        3,seed,0303030303030303030303030303030303030303030303030303030303030303\n",
    ),
    (
        "c.book",
        "beet-book,1\nanna,0,anna2.bid,tape,t\nbo,0,bo2.bid,tape,t\ncarl,2,carl.bid,tape,t\n",
    ),
    (
        "anna2.bid",
        "beet-bid,1\n100,0,10\n105,0,30\n110,0,38\n115,0,80\n",
    ),
    (
        "bo2.bid",
        "beet-bid,1\n100,85,0\n105,55,0\n110,30,0\n115,0,0\n",
    ),
    (
        "g1.auc",
        "beet-auction,1\nbase,100\ntick,5\nprices,1\ngates,chain\n",
    ),
    (
        "b1.book",
        "beet-book,1\ndan,0,dan.bid,seed,0d0d0d0d0d0d0d0d0d0d0d0d0d0d0d0d0d0d0d0d0d0d0d0d0d0d0d0d0d0d0d0d\n",
    ),
    ("dan.bid", "beet-bid,1\n100,35,40\n"),
    ("none.lst", "beet-list,1\n"),
    (
        "day.ses",
        "beet-session,1\nnorth,g.auc,b.book\nsouth,g1.auc,b1.book\n",
    ),
    ("south.ses", "beet-session,1\nsouth,g1.auc,b1.book\n"),
    (
        "made.srv",
        "beet-servers,1\n1,tape,made,made\n2,tape,made,made\n3,tape,made,made\n",
    ),
];

/// Commands over these files.
pub(crate) const CLEAR: &str = "clear g.auc s.srv b.book";

pub(crate) const RECORD: &str = "record g.auc s.srv b.book o";

/// The name of a file that a test makes.
const MADE: &str = "made";

/// A file of this name and this text.
pub(crate) fn held(rt: &impl Abort, alloc: Global, name: &str, text: &[u8]) -> Held {
    Held {
        name: String::from_str(alloc, name).expect(rt, "memory"),
        bytes: Vec::from_slice(alloc, text).expect(rt, "memory"),
    }
}

/// Appends these files.
pub(crate) fn push_all(
    rt: &impl Abort,
    alloc: Global,
    files: &mut Vec<Held>,
    texts: &[(&str, &str)],
) {
    for (name, text) in texts {
        let file = held(rt, alloc, name, text.as_bytes());
        files.push(file).expect(rt, "memory");
    }
}

/// The files of the auction and the others, and one that is made.
pub(crate) fn files(rt: &impl Abort, alloc: Global, made: &str) -> Vec<Held> {
    let mut files = Vec::new(alloc);
    push_all(rt, alloc, &mut files, &AUCTION_FILES);
    push_all(rt, alloc, &mut files, &FILES);
    push_all(rt, alloc, &mut files, &[(MADE, made)]);
    files
}

/// The numbers of the calls that fail: this one alone, or none if it is 0.
pub(crate) fn only(rt: &impl Abort, alloc: Global, call: u64) -> Vec<u64> {
    vec![in alloc; call].expect(rt, "memory")
}

pub(crate) fn words_of(rt: &impl Abort, alloc: Global, line: &str) -> Vec<String> {
    let mut words = Vec::new(alloc);
    for word in line.split_whitespace() {
        let word = String::from_str(alloc, word).expect(rt, "memory");
        words.push(word).expect(rt, "memory");
    }
    words
}

/// Does the job of a line over these files, in which this fetch fails: its status. A line that begins with
/// `beet_session` or `beet_sale` is of that program.
pub(crate) fn run_over<G: Gate>(
    rt: &(impl Abort + Threads + Wait + Clock + Sync),
    alloc: Global,
    line: &str,
    files: Vec<Held>,
    fetch: u64,
    desk: &mut MemoryDesk,
    gate: &G,
) -> u8 {
    let words = words_of(rt, alloc, line);
    let mut shelf = MemoryShelf::new(files, only(rt, alloc, fetch));
    match words.as_slice() {
        [program, ..] if program.as_str() == "beet_session" => {
            run_session(rt, alloc, &words.as_slice()[1..], &mut shelf, desk)
        }
        [program, ..] if program.as_str() == "beet_sale" => {
            run_sale(alloc, &words.as_slice()[1..], &mut shelf, desk)
        }
        _ => run(rt, alloc, &words, &mut shelf, desk, gate),
    }
}

/// Does the job of a line over the files, in which this call of the desk fails: its status.
pub(crate) fn done(
    rt: &(impl Abort + Threads + Wait + Clock + Sync),
    alloc: Global,
    line: &str,
    made: &str,
    desk: &mut MemoryDesk,
) -> u8 {
    run_over(rt, alloc, line, files(rt, alloc, made), 0, desk, &FreeGate)
}

/// A desk of which this call fails.
pub(crate) fn desk_of(rt: &impl Abort, alloc: Global, call: u64) -> MemoryDesk {
    MemoryDesk::new(only(rt, alloc, call))
}

/// Compares what a desk was given to say.
pub(crate) fn expect_said(rt: &impl Abort, desk: &MemoryDesk, text: &str) {
    assert!(rt; desk.said() == text.as_bytes(), "not {text}");
}

/// Does a job with the file that is made, in which this call of the desk fails, and compares its status and its text.
pub(crate) fn expect_job(
    rt: &(impl Abort + Threads + Wait + Clock + Sync),
    alloc: Global,
    line: &str,
    made: &str,
    call: u64,
    status: u8,
    text: &str,
) {
    let mut desk = desk_of(rt, alloc, call);
    assert!(rt; done(rt, alloc, line, made, &mut desk) == status);
    expect_said(rt, &desk, text);
}

#[test]
fn the_usage_line_is_not_taken(rt: HostRuntime) {
    expect_job(&rt, rt.alloc(), "clear g.auc", "", 1, 4, "");
}

/// A file of so many bytes.
fn expect_too_long(
    rt: &(impl Abort + Threads + Wait + Clock + Sync),
    alloc: Global,
    line: &str,
    length: usize,
) {
    let made = "x".repeat(alloc, length).expect(rt, "memory");
    let text = "bad file: made row 0 reason 20\n";
    expect_job(rt, alloc, line, made.as_str(), 0, 5, text);
}

/// A book, a session, a sale, two schedules and the second of two sessions that are a byte too long.
#[test]
fn files_are_too_long(rt: HostRuntime) {
    expect_too_long(&rt, rt.alloc(), "clear g.auc s.srv made", 4_194_305);
    expect_too_long(&rt, rt.alloc(), "beet_session session made s.srv", 65_537);
    expect_too_long(&rt, rt.alloc(), "beet_sale sale made s.srv", 65_537);
    let rehearse = "rehearse g.auc s.srv b.book made";
    expect_too_long(&rt, rt.alloc(), rehearse, 16_777_217);
    let replay = "beet_session replay day.ses s.srv made";
    expect_too_long(&rt, rt.alloc(), replay, 16_777_217);
    let pair = "beet_session pair day.ses made s.srv 2 w";
    expect_too_long(&rt, rt.alloc(), pair, 65_537);
}

/// A tape whose masks are all rejected.
fn spent(rt: &impl Abort, alloc: Global) -> String {
    let zeros = "0000000000000000\n".repeat(alloc, 2_560);
    let mut rows = "1fffffffffffffff\n".repeat(alloc, 3).expect(rt, "memory");
    rows.push_str(zeros.expect(rt, "memory").as_str())
        .expect(rt, "memory");
    rows
}

#[test]
fn nobody_bids_in_envelopes(rt: HostRuntime) {
    let text = "price 100\nvolume 0\nrounds 382\n";
    let line = "open g.auc s.srv made";
    expect_job(&rt, rt.alloc(), line, "beet-list,1\n", 0, 0, text);
    let line = "open g.auc made.srv none.lst";
    let spent = spent(&rt, rt.alloc());
    let text = "masks spent\nrounds 192\n";
    expect_job(&rt, rt.alloc(), line, spent.as_str(), 0, 6, text);
}

/// How many rounds the run of the auction of one price has.
const ROUNDS: u32 = 128;

/// The rows of all messages, the last round first.
fn all_backwards(rt: &impl Abort, alloc: Global) -> String {
    let mut rows = String::new(alloc);
    for before in 0..ROUNDS {
        let round = ROUNDS - 1 - before;
        let messages = format!(in alloc;
            "2,1,{round}\n3,1,{round}\n1,2,{round}\n3,2,{round}\n1,3,{round}\n2,3,{round}\n"
        ).expect(rt, "memory");
        rows.push_str(messages.as_str()).expect(rt, "memory");
    }
    rows
}

/// A schedule of all messages, the last round first, as often as there are rounds.
fn backwards(rt: &impl Abort, alloc: Global) -> String {
    let rows = all_backwards(rt, alloc);
    let rows = rows.repeat(alloc, ROUNDS as usize).expect(rt, "memory");
    let mut schedule = String::from_str(alloc, "beet-schedule,1\n").expect(rt, "memory");
    schedule.push_str(rows.as_str()).expect(rt, "memory");
    schedule
}

/// What is said if all messages are delivered.
const ALL_END: &str =
    "server 1 price 100 volume 35\nserver 2 price 100 volume 35\nserver 3 price 100 volume 35\nundelivered 0\n";

#[test]
fn everything_backwards_for_each_round(rt: HostRuntime) {
    let schedule = backwards(&rt, rt.alloc());
    let line = "rehearse g1.auc s.srv b1.book made";
    expect_job(&rt, rt.alloc(), line, schedule.as_str(), 0, 0, ALL_END);
}

/// A file whose bytes are its name.
fn named_file(rt: &impl Abort, alloc: Global, name: &str) -> NewFile {
    NewFile {
        name: String::from_str(alloc, name).expect(rt, "memory"),
        bytes: Vec::from_slice(alloc, name.as_bytes()).expect(rt, "memory"),
    }
}

/// A reply that puts two files.
fn two_files(rt: &impl Abort, alloc: Global) -> Reply {
    let (first, second) = (named_file(rt, alloc, "o.1"), named_file(rt, alloc, "o.2"));
    Reply {
        status: Status::MasksSpent,
        files: vec![in alloc; first, second].expect(rt, "memory"),
        text: Vec::from_slice(alloc, b"said\n").expect(rt, "memory"),
    }
}

/// Gives the reply to a desk of which this call fails, and compares the status, the files and the text.
fn expect_given(
    rt: &impl Abort,
    alloc: Global,
    call: u64,
    status: u8,
    second: Option<&[u8]>,
    text: &str,
) {
    let mut desk = desk_of(rt, alloc, call);
    let end = give_answer(alloc, &mut desk, Ok(two_files(rt, alloc)));
    assert!(rt; end.code() == status);
    assert!(rt; desk.file("o.1") == Some(b"o.1".as_slice()));
    assert!(rt; desk.file("o.2") == second);
    expect_said(rt, &desk, text);
}

#[test]
fn files_come_before_the_text(rt: HostRuntime) {
    let second = Some(b"o.2".as_slice());
    expect_given(&rt, rt.alloc(), 0, 6, second, "said\n");
    expect_given(&rt, rt.alloc(), 3, 4, second, "");
}

#[test]
fn second_put_fails(rt: HostRuntime) {
    expect_given(&rt, rt.alloc(), 2, 4, None, "");
}
