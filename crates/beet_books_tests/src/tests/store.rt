//! The listed failures of the memory types, and the host types on real files.

use super::printing::Printing;
use beet_store::{
    Desk, FetchFault, Held, HostDesk, HostShelf, MemoryDesk, MemoryShelf, PutFault, Shelf,
};
use std::alloc::Global;
use std::fs;
use std::process::Abort;
use std::rt::Files;

/// A file of this name and these bytes.
pub fn held(rt: &impl Abort, alloc: Global, name: &str, bytes: &[u8]) -> Held {
    Held {
        name: String::from_str(alloc, name).expect(rt, "memory"),
        bytes: Vec::from_slice(alloc, bytes).expect(rt, "memory"),
    }
}

/// Whether a fetch answered these bytes, or this fault.
fn is_answer(found: Result<Vec<u8>, FetchFault>, wanted: Result<&[u8], FetchFault>) -> bool {
    match found {
        Ok(bytes) => wanted == Ok(bytes.as_slice()),
        Err(fault) => wanted == Err(fault),
    }
}

/// Fetches, and compares the answer.
fn expect_fetch<S: Shelf>(
    rt: &impl Abort,
    alloc: Global,
    shelf: &mut S,
    name: &str,
    limit: u64,
    wanted: Result<&[u8], FetchFault>,
) {
    let found = shelf.fetch(alloc, name, limit);
    assert!(rt; is_answer(found, wanted), "of {name}");
}

/// Puts, and compares the answer.
fn expect_put<K: Desk>(
    rt: &impl Abort,
    alloc: Global,
    desk: &mut K,
    name: &str,
    bytes: &[u8],
    wanted: Result<(), PutFault>,
) {
    assert!(rt; desk.put(alloc, name, bytes) == wanted, "of {name}");
}

/// Says, and compares the answer.
fn expect_say<K: Desk>(rt: &impl Abort, desk: &mut K, text: &str, wanted: Result<(), PutFault>) {
    assert!(rt; desk.say(text.as_bytes()) == wanted, "of {text}");
}

/// Fetches from a shelf of the file `a`, one after another, and what each answers if the second fails.
const FETCHES: [(&str, u64, Result<&[u8], FetchFault>); 4] = [
    ("a", 3, Ok(b"one")),
    ("a", 3, Err(FetchFault::Failed)),
    ("a", 2, Err(FetchFault::TooLong(3))),
    ("b", 3, Err(FetchFault::Failed)),
];

/// A shelf with two files of one name, of which the second fetch fails.
fn shelf_of_two(rt: &impl Abort, alloc: Global) -> MemoryShelf {
    let (one, two) = (held(rt, alloc, "a", b"one"), held(rt, alloc, "a", b"two"));
    let files = vec![in alloc; one, two].expect(rt, "memory");
    MemoryShelf::new(files, vec![in alloc; 2].expect(rt, "memory"))
}

/// Does the fetches, of which two fail.
fn expect_fetches(
    rt: &impl Abort,
    alloc: Global,
    shelf: &mut MemoryShelf,
    cases: &[(&str, u64, Result<&[u8], FetchFault>)],
) {
    for (name, limit, wanted) in cases {
        expect_fetch(rt, alloc, shelf, name, *limit, *wanted);
    }
    assert!(rt; shelf.faults() == 2);
}

#[test]
fn memory_shelf_fails_where_listed(rt: HostRuntime) {
    let alloc = rt.alloc();
    expect_fetches(&rt, alloc, &mut shelf_of_two(&rt, alloc), &FETCHES);
}

/// Bytes that are put as the file `a`, what is answered, and what the file then is.
type Put = (&'static [u8], Result<(), PutFault>, &'static [u8]);

/// The first three calls of a desk whose second call and fifth fail.
const PUTS: [Put; 3] = [
    (b"one", Ok(()), b"one"),
    (b"two", Err(PutFault::Failed), b"one"),
    (b"three", Ok(()), b"three"),
];

/// Puts the bytes of each case.
fn expect_puts(rt: &impl Abort, alloc: Global, desk: &mut MemoryDesk, cases: &[Put]) {
    for (bytes, wanted, then) in cases {
        expect_put(rt, alloc, desk, "a", bytes, *wanted);
        assert!(rt; desk.file("a") == Some(*then));
    }
}

/// What is said to it next, and what is answered.
const SAYINGS: [(&str, Result<(), PutFault>); 3] = [
    ("so", Ok(())),
    ("not", Err(PutFault::Failed)),
    (" it is", Ok(())),
];

/// Says the text of each case.
fn expect_sayings(rt: &impl Abort, desk: &mut MemoryDesk, cases: &[(&str, Result<(), PutFault>)]) {
    for (text, wanted) in cases {
        expect_say(rt, desk, text, *wanted);
    }
}

/// Compares what the desk has after these calls.
fn expect_desk(rt: &impl Abort, desk: &MemoryDesk) {
    assert!(rt; desk.file("b").is_none());
    assert!(rt; desk.said() == b"so it is".as_slice());
    assert!(rt; desk.faults() == 2);
}

#[test]
fn memory_desk_fails_where_listed(rt: HostRuntime) {
    let calls = vec![in rt.alloc(); 2, 5].expect(&rt, "memory");
    let mut desk = MemoryDesk::new(calls);
    expect_puts(&rt, rt.alloc(), &mut desk, &PUTS);
    expect_sayings(&rt, &mut desk, &SAYINGS);
    expect_desk(&rt, &desk);
}

/// Bytes of more than one piece, each unlike its neighbours.
fn long_bytes(rt: &impl Abort, alloc: Global) -> Vec<u8> {
    let mut bytes = Vec::new(alloc);
    for i in 0..20_000u64 {
        bytes.push((i % 251) as u8).expect(rt, "memory");
    }
    bytes
}

/// Puts a long file and fetches it, and then a short one in its place.
fn expect_file<S: Shelf, K: Desk>(
    rt: &impl Abort,
    alloc: Global,
    shelf: &mut S,
    desk: &mut K,
    name: &str,
) {
    let long = long_bytes(rt, alloc);
    expect_long_file(rt, alloc, shelf, desk, name, &long);
    expect_put(rt, alloc, desk, name, b"short", Ok(()));
    expect_fetch(rt, alloc, shelf, name, 5, Ok(b"short"));
}

/// Puts the long file and fetches it.
fn expect_long_file<S: Shelf, K: Desk>(
    rt: &impl Abort,
    alloc: Global,
    shelf: &mut S,
    desk: &mut K,
    name: &str,
    long: &[u8],
) {
    expect_put(rt, alloc, desk, name, long, Ok(()));
    expect_fetch(rt, alloc, shelf, name, 20_000, Ok(long));
    let too_long = Err(FetchFault::TooLong(20_000));
    expect_fetch(rt, alloc, shelf, name, 19_999, too_long);
}

/// Fetches a file that is gone and a folder, and puts into a folder that is missing.
fn expect_failures<S: Shelf, K: Desk>(
    rt: &impl Abort,
    alloc: Global,
    shelf: &mut S,
    desk: &mut K,
    gone: &str,
) {
    expect_fetch(rt, alloc, shelf, gone, 5, Err(FetchFault::Failed));
    expect_fetch(rt, alloc, shelf, ".", 5, Err(FetchFault::Failed));
    let missing = "beet_store_missing/file";
    expect_put(rt, alloc, desk, missing, b"", Err(PutFault::Failed));
    expect_say(rt, desk, "", Ok(()));
}

/// Puts and fetches a file, which is removed, and then does what fails.
fn expect_calls<R: Abort + Files, S: Shelf, K: Desk>(
    rt: &R,
    alloc: Global,
    shelf: &mut S,
    desk: &mut K,
    name: &str,
) {
    expect_file(rt, alloc, shelf, desk, name);
    fs::remove_file(rt, name).expect(rt, "the file is removed");
    expect_failures(rt, alloc, shelf, desk, name);
}

/// A file that the tests write and remove.
const FILE: &str = "beet_store_test.tmp";

/// Compares how many calls have failed.
fn expect_faults<R>(rt: &impl Abort, shelf: &HostShelf<R>, desk: &HostDesk<R>) {
    assert!(rt; shelf.faults() == 2);
    assert!(rt; desk.faults() == 1);
}

#[test]
fn host_types_reach_real_files(rt: HostRuntime) {
    let (mut shelf, mut desk) = (HostShelf::new(&rt), HostDesk::new(&rt));
    expect_calls(&rt, rt.alloc(), &mut shelf, &mut desk, FILE);
    expect_faults(&rt, &shelf, &desk);
}

/// The file that a text is printed to.
const SAID: &str = "beet_store_said.tmp";

/// Fetches a real file, which is this text.
fn expect_text_file<R: Abort + Files>(rt: &R, alloc: Global, name: &str, text: &[u8]) {
    let mut shelf = HostShelf::new(rt);
    expect_fetch(rt, alloc, &mut shelf, name, 30_000, Ok(text));
}

/// What a desk that prints to a file of this name answers if this text is said.
fn say_to<R: Files>(rt: &R, name: &'static str, text: &[u8]) -> Result<(), PutFault> {
    HostDesk::new(Printing { rt, name }).say(text)
}

/// Says a text to a desk that prints it to a file, and to one whose file cannot be.
fn expect_said<R: Abort + Files>(rt: &R, alloc: Global, text: &[u8]) {
    assert!(rt; say_to(rt, SAID, text) == Ok(()));
    expect_text_file(rt, alloc, SAID, text);
    fs::remove_file(rt, SAID).expect(rt, "the file is removed");
    let missing = "beet_store_missing/said";
    assert!(rt; say_to(rt, missing, b"not") == Err(PutFault::Failed));
}

#[test]
fn a_long_text_is_said_whole(rt: HostRuntime) {
    let text = long_bytes(&rt, rt.alloc());
    expect_said(&rt, rt.alloc(), &text);
}
