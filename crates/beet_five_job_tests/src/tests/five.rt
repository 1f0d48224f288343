use beet_errand::{Refusal, Reply, Status, Stop};
use beet_five_load::load_five_whole;
use beet_job_five::five;
use beet_load::AuctionFiles;
use beet_samples::{AUCTION_FILES, FIVE_SEEDS};
use beet_store::{Held, MemoryShelf};
use beet_words::WordList;
use std::alloc::Global;
use std::process::Abort;

/// Files that differ in one thing from those of the auction of [`AUCTION_FILES`], and tapes.
const FILES: [(&str, &str); 10] = [
    (
        "tree.auc",
        "beet-auction,1\nbase,100\ntick,5\nprices,4\ngates,tree\n",
    ),
    (
        "longer.auc",
        "beet-auction,1\nbase,100\ntick,5\nprices,4\ngates,tree\nopens,price\n",
    ),
    (
        "opens.auc",
        "beet-auction,2\nbase,100\ntick,5\nprices,4\ngates,tree\nopens,price\n",
    ),
    (
        "supply.auc",
        "beet-auction,2\nbase,100\ntick,5\nprices,4\ngates,chain\nopens,full\n",
    ),
    (
        "many.auc",
        "beet-auction,1\nbase,100\ntick,5\nprices,4096\ngates,chain\n",
    ),
    ("marks.book", "beet-book,1\nanna,5,anna.bid,tape,short\n"),
    (
        "short.book",
        "beet-book,1\ncarl,0,carl.bid,tape,enough\nanna,0,anna.bid,tape,short\n",
    ),
    ("enough.book", "beet-book,1\nanna,0,anna.bid,tape,enough\n"),
    (
        "short",
        "0000000000000001\n0000000000000002\n0000000000000003\n0000000000000004\n0000000000000005\n\
        0000000000000006\n0000000000000007\n0000000000000008\n0000000000000009\n000000000000000a\n\
        000000000000000b\n000000000000000c\n000000000000000d\n000000000000000e\n000000000000000f\n\
        1fffffffffffffff\n",
    ),
    (
        "enough",
        "0000000000000001\n0000000000000002\n0000000000000003\n0000000000000004\n0000000000000005\n\
        0000000000000006\n0000000000000007\n0000000000000008\n0000000000000009\n000000000000000a\n\
        000000000000000b\n000000000000000c\n000000000000000d\n000000000000000e\n000000000000000f\n\
        1fffffffffffffff\n0000000000000010\n",
    ),
];

/// The words of a command: the names of an auction, of servers and of a book.
pub(crate) type Names = (&'static str, &'static str, &'static str);

/// The auction that is run.
const AUCTION: Names = ("g.auc", "v.srv", "b.book");

/// The files that it fetches, in order.
const FETCHED: [&str; 6] = ["g.auc", "v.srv", "b.book", "anna.bid", "bo.bid", "carl.bid"];

/// The files that every job of these tests may fetch.
const KNOWN: [&[(&str, &str)]; 3] = [&AUCTION_FILES, &[FIVE_SEEDS], &FILES];

/// Appends these files.
pub(crate) fn push_files(
    rt: &impl Abort,
    alloc: Global,
    held: &mut Vec<Held>,
    files: &[(&str, &str)],
) {
    for (name, text) in files {
        let file = Held {
            name: String::from_str(alloc, name).expect(rt, "memory"),
            bytes: Vec::from_slice(alloc, text.as_bytes()).expect(rt, "memory"),
        };
        held.push(file).expect(rt, "memory");
    }
}

/// The known files and these, in memory of their own.
pub(crate) fn files(rt: &impl Abort, alloc: Global, more: &[(&str, &str)]) -> Vec<Held> {
    let mut held = Vec::new(alloc);
    for files in &KNOWN {
        push_files(rt, alloc, &mut held, files);
    }
    push_files(rt, alloc, &mut held, more);
    held
}

/// The names of the files of an auction.
pub(crate) fn files_of(names: Names) -> AuctionFiles<'static> {
    let (auction, servers, book) = names;
    AuctionFiles {
        auction,
        servers,
        book,
    }
}

/// The status and the text of a job.
pub(crate) fn ended(alloc: Global, end: Result<Reply, Stop>) -> (Status, Vec<u8>) {
    match end {
        Ok(reply) => (reply.status, reply.text),
        Err(Stop::Refused(refusal, line)) => (Status::Refused(refusal), line),
        Err(Stop::OutOfMemory) => (Status::OutOfMemory, Vec::new(alloc)),
    }
}

/// Does the job over the files: its status and its text. This fetch fails; at 0 none does.
fn done(rt: &impl Abort, alloc: Global, names: Names, fetch: u64) -> (Status, Vec<u8>) {
    let refused = vec![in alloc; fetch].expect(rt, "memory");
    let mut shelf = MemoryShelf::new(files(rt, alloc, &[]), refused);
    ended(alloc, five(alloc, &mut shelf, &files_of(names)))
}

/// Does the job, in which this fetch fails, and compares its status and its text.
fn expect_end(
    rt: &impl Abort,
    alloc: Global,
    names: Names,
    fetch: u64,
    status: Status,
    text: &str,
) {
    let (found, said) = done(rt, alloc, names, fetch);
    assert!(rt; found == status, "of {text}");
    assert!(rt; said.as_slice() == text.as_bytes(), "not {text}");
}

/// What is said of the auction.
pub(crate) const OUTCOME: &str = "price 110\nvolume 35\nrounds 259\n";

#[test]
fn each_fetch_is_refused_once(rt: HostRuntime) {
    for (i, name) in FETCHED.iter().enumerate() {
        let text = format!(in rt.alloc(); "read fault: {name}\n").expect(&rt, "memory");
        let status = Status::Refused(Refusal::ReadFault);
        let fetch = i as u64 + 1;
        expect_end(&rt, rt.alloc(), AUCTION, fetch, status, text.as_str());
    }
    let beyond = FETCHED.len() as u64 + 1;
    expect_end(&rt, rt.alloc(), AUCTION, beyond, Status::Done, OUTCOME);
}

/// Auctions that are run, and what is said of them.
const RUN: [(Names, &str); 3] = [
    (AUCTION, OUTCOME),
    (
        ("supply.auc", "v.srv", "b.book"),
        "price 110\nvolume 35\nsupply 40\nrounds 259\n",
    ),
    (("g.auc", "v.srv", "enough.book"), "no price\nrounds 258\n"),
];

#[test]
fn five_servers_find_the_outcome(rt: HostRuntime) {
    for (names, text) in &RUN {
        expect_end(&rt, rt.alloc(), *names, 0, Status::Done, text);
    }
}

/// Files that are refused, and the line of each.
const BAD: [(Names, &str); 5] = [
    (
        ("tree.auc", "none", "none"),
        "bad file: tree.auc row 5 reason 7\n",
    ),
    (
        ("longer.auc", "none", "none"),
        "bad file: longer.auc row 6 reason 2\n",
    ),
    (
        ("opens.auc", "none", "none"),
        "bad file: opens.auc row 5 reason 7\n",
    ),
    (
        ("g.auc", "v.srv", "v.srv"),
        "bad file: v.srv row 1 reason 1\n",
    ),
    (
        ("g.auc", "v.srv", "marks.book"),
        "bad file: marks.book row 2 reason 2\n",
    ),
];

#[test]
fn files_are_refused(rt: HostRuntime) {
    for (names, text) in &BAD {
        let status = Status::Refused(Refusal::BadFile);
        expect_end(&rt, rt.alloc(), *names, 0, status, text);
    }
}

#[test]
fn a_bidder_wants_four_words_for_a_price(rt: HostRuntime) {
    let names = ("g.auc", "v.srv", "short.book");
    let status = Status::Refused(Refusal::TooFewWords);
    let text = "too few words: bidder 2 15 of 16\n";
    expect_end(&rt, rt.alloc(), names, 0, status, text);
}

/// How many words are wanted of a server and of a bidder: masks, numbers, and numbers of a bidder, with those that are
/// kept besides.
const KEPT: (usize, usize, usize) = (5, 5_128, 24);

/// Compares how many words are kept of each.
fn expect_kept(rt: &impl Abort, lists: &[WordList], count: usize, length: usize) {
    assert!(rt; lists.len() == count);
    for list in lists {
        assert!(rt; list.as_slice().len() == length);
    }
}

#[test]
fn the_whole_book_is_kept(rt: HostRuntime) {
    let mut shelf = MemoryShelf::new(files(&rt, rt.alloc(), &[]), Vec::new(rt.alloc()));
    let whole = load_five_whole(rt.alloc(), &mut shelf, &files_of(AUCTION));
    let whole = whole.expect(&rt, "an auction");
    let (masks, numbers, words) = KEPT;
    expect_kept(&rt, whole.words.masks.as_slice(), 5, masks);
    expect_kept(&rt, whole.words.coefficients.as_slice(), 5, numbers);
    expect_kept(&rt, whole.words.bidders.as_slice(), 3, words);
    assert!(&rt; whole.book.bidders().len() == 3);
}

/// A book of this name and of so many bidders.
pub(crate) fn long_book(rt: &impl Abort, alloc: Global, name: &str, bidders: u32) -> Held {
    let mut text = String::from_str(alloc, "beet-book,1\n").expect(rt, "memory");
    for bidder in 0..bidders {
        let row = format!(in alloc; "{bidder},0,none,tape,none\n").expect(rt, "memory");
        text.push_str(row.as_str()).expect(rt, "memory");
    }
    Held {
        name: String::from_str(alloc, name).expect(rt, "memory"),
        bytes: text.into_bytes(),
    }
}

/// The line by which a book of so many bidders at 4,096 prices is refused, if it is kept whole.
fn line_of(rt: &impl Abort, alloc: Global, bidders: u32) -> Vec<u8> {
    let mut files = files(rt, alloc, &[]);
    files
        .push(long_book(rt, alloc, "long.book", bidders))
        .expect(rt, "memory");
    let mut shelf = MemoryShelf::new(files, Vec::new(alloc));
    let names = files_of(("many.auc", "v.srv", "long.book"));
    match load_five_whole(alloc, &mut shelf, &names) {
        Err(Stop::Refused(_, line)) => line,
        _ => Vec::new(alloc),
    }
}

#[test]
fn a_whole_book_has_its_limit(rt: HostRuntime) {
    let within = line_of(&rt, rt.alloc(), 122);
    assert!(&rt; within.as_slice() == b"read fault: none\n".as_slice());
    let over = line_of(&rt, rt.alloc(), 123);
    assert!(&rt; over.as_slice() == b"bad file: long.book row 0 reason 6\n".as_slice());
}
