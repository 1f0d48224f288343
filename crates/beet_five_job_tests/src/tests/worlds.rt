ghost use Rattle.std.specs.Prelude.{◌<◌};

use super::five::{ended, files, long_book, push_files};
use beet_bids::{Book, Grid, Outcome, outcome};
use beet_book_differences::WorldsFiles;
use beet_coalition_map::Watchers;
use beet_errand::{NewFile, OwnRefusal, Refusal, Reply, Status, Stop};
use beet_five_dealing::FiveWords;
use beet_five_load::{FiveWhole, load_five_whole};
use beet_five_map::{enough, five_map};
use beet_five_view::write_five_words;
use beet_gates::Gates;
use beet_job_five_worlds::five_worlds;
use beet_load::AuctionFiles;
use beet_store::{Held, MemoryShelf};
use beet_words::{Allowed, Word, WordList, read_number};
use std::alloc::Global;
use std::process::Abort;

/// Second books, and their bids: one that clears alike, one with another bid of a bidder that server 2 knows, one with
/// a bidder less, one with another mark, and one that is no book.
const MORE: [(&str, &str); 9] = [
    (
        "c.book",
        "beet-book,1\ndora,0,dora.bid,seed,0d0d0d0d0d0d0d0d0d0d0d0d0d0d0d0d0d0d0d0d0d0d0d0d0d0d0d0d0d0d0d0d\n\
        emil,0,emil.bid,seed,0e0e0e0e0e0e0e0e0e0e0e0e0e0e0e0e0e0e0e0e0e0e0e0e0e0e0e0e0e0e0e0e\n\
        carl,2,carl.bid,seed,0c0c0c0c0c0c0c0c0c0c0c0c0c0c0c0c0c0c0c0c0c0c0c0c0c0c0c0c0c0c0c0c\n",
    ),
    (
        "own.book",
        "beet-book,1\nanna,0,anna.bid,tape,none\nbo,0,bo.bid,tape,none\ncarl,2,more.bid,tape,none\n",
    ),
    (
        "less.book",
        "beet-book,1\nanna,0,anna.bid,tape,none\nbo,0,bo.bid,tape,none\n",
    ),
    (
        "mark.book",
        "beet-book,1\nanna,0,anna.bid,tape,none\nbo,3,bo.bid,tape,none\ncarl,2,carl.bid,tape,none\n",
    ),
    (
        "bad.book",
        "beet-book,1\nanna,0,anna.bid,tape,none\nbo,4,bo.bid,tape,none\n",
    ),
    (
        "bids.book",
        "beet-book,1\nanna,0,anna.bid,tape,none\nbo,0,b.book,tape,none\n",
    ),
    ("dora.bid", "beet-bid,1\n100,50,0\n110,30,0\n115,8,0\n"),
    (
        "emil.bid",
        "beet-bid,1\n100,0,0\n105,0,25\n110,0,40\n115,0,70\n",
    ),
    ("more.bid", "beet-bid,1\n100,6,0\n115,0,0\n"),
];

/// How many pairs of books are drawn.
const DRAWN: usize = 4;

/// The server that knows each bidder of a drawn book, or 0.
const KNOWN_BY: [u32; 6] = [0, 1, 0, 2, 3, 0];

/// The two books of a draw, and whose second part each bidder bids there: the unmarked bidders exchange theirs.
const BOOKS: [(&str, [u64; 6]); 2] = [
    ("first", [0, 1, 2, 3, 4, 5]),
    ("second", [2, 1, 5, 3, 4, 0]),
];

/// By how much a part falls and rises at each price: heights that look like chance.
fn heights(part: u64) -> (u64, u64)
    ensures { (result.0 < 40) × (result.1 < 40) }
{
    let bits = part % 1_000 * 1_103_515_245 + 12_345;
    (bits / 65_536 % 40, bits / 4_096 % 40)
}

/// The bid file of a bidder with two parts.
fn bid(rt: &impl Abort, alloc: Global, one: u64, other: u64) -> String {
    let (one, other) = (heights(one), heights(other));
    let (down, up) = (one.0 + other.0, one.1 + other.1);
    format!(in alloc;
        "beet-bid,1\n100,{},0\n105,{},{}\n110,{},{}\n115,{},{}\n",
        4 * down,
        3 * down,
        up,
        2 * down,
        2 * up,
        down,
        3 * up
    )
    .expect(rt, "memory")
}

/// Appends a drawn book of this name, which begins with another bidder in each draw, and its bids.
fn push_book(
    rt: &impl Abort,
    alloc: Global,
    held: &mut Vec<Held>,
    name: &str,
    draw: usize,
    parts: &[u64; 6],
) {
    let mut book = String::from_str(alloc, "beet-book,1\n").expect(rt, "memory");
    let first = draw as u64 % 8 * 12;
    for place in 0..6 {
        let bidder = (place + draw % 6) % 6;
        let known = KNOWN_BY[bidder];
        let (own, moved) = (first + bidder as u64, first + 6 + parts[bidder] % 6);
        let text = bid(rt, alloc, own, moved);
        let file = format!(in alloc; "{name}.{bidder}").expect(rt, "memory");
        push_files(rt, alloc, held, &[(file.as_str(), text.as_str())]);
        let row = format!(in alloc; "{bidder},{known},{file},seed,{bidder:064x}\n");
        book.push_str(row.expect(rt, "memory").as_str())
            .expect(rt, "memory");
    }
    push_files(rt, alloc, held, &[(name, book.as_str())]);
}

/// The name of a book of a drawn pair.
fn name_of(rt: &impl Abort, alloc: Global, draw: usize, book: &str) -> String {
    format!(in alloc; "{draw}.{book}").expect(rt, "memory")
}

/// Appends all drawn books.
fn push_drawn(rt: &impl Abort, alloc: Global, held: &mut Vec<Held>) {
    for draw in 0..DRAWN {
        for (book, parts) in &BOOKS {
            let name = name_of(rt, alloc, draw, book);
            push_book(rt, alloc, held, name.as_str(), draw, parts);
        }
    }
}

/// Books, and how many bidders they have, of which 122 at 4,096 prices are within the limit.
const LONG: [(&str, u32); 2] = [("within.book", 122), ("long.book", 123)];

/// The names of the files of a job with this second book.
fn names(second: &str) -> WorldsFiles<'_> {
    WorldsFiles {
        auction: "g.auc",
        servers: "v.srv",
        first: "b.book",
        second,
        out: "q",
    }
}

/// A shelf of all files. This fetch fails; at 0 none does.
fn shelf(rt: &impl Abort, alloc: Global, fetch: u64) -> MemoryShelf {
    let mut held = files(rt, alloc, &MORE);
    for (name, bidders) in &LONG {
        let book = long_book(rt, alloc, name, *bidders);
        held.push(book).expect(rt, "memory");
    }
    push_drawn(rt, alloc, &mut held);
    let refused = vec![in alloc; fetch].expect(rt, "memory");
    MemoryShelf::new(held, refused)
}

/// Does the job for servers a and b. This fetch fails; at 0 none does.
fn done(
    rt: &impl Abort,
    alloc: Global,
    files: &WorldsFiles<'_>,
    servers: (u32, u32),
    fetch: u64,
) -> Result<Reply, Stop> {
    let mut shelf = shelf(rt, alloc, fetch);
    let two = Watchers::of(servers.0, servers.1).expect(rt, "two servers");
    five_worlds(alloc, &mut shelf, files, two)
}

/// Does the job and compares its status and its text.
fn expect_end(
    rt: &impl Abort,
    alloc: Global,
    files: &WorldsFiles<'_>,
    servers: (u32, u32),
    fetch: u64,
    status: Status,
    text: &str,
) {
    let result = done(rt, alloc, files, servers, fetch);
    let (found, said) = ended(alloc, result);
    assert!(rt; found == status, "of {text}");
    assert!(rt; said.as_slice() == text.as_bytes(), "not {text}");
}

/// What is said of two books that clear alike.
const EQUAL: &str = "price 110\nvolume 35\nrounds 259\ntranscripts equal\n";

/// The files that are fetched, in order.
const FETCHED: [&str; 10] = [
    "g.auc", "v.srv", "b.book", "anna.bid", "bo.bid", "carl.bid", "c.book", "dora.bid", "emil.bid",
    "carl.bid",
];

#[test]
fn each_fetch_of_two_worlds_is_refused_once(rt: HostRuntime) {
    let files = names("c.book");
    for (i, name) in FETCHED.iter().enumerate() {
        let text = format!(in rt.alloc(); "read fault: {name}\n").expect(&rt, "memory");
        let status = Status::Refused(Refusal::ReadFault);
        let fetch = i as u64 + 1;
        expect_end(
            &rt,
            rt.alloc(),
            &files,
            (2, 5),
            fetch,
            status,
            text.as_str(),
        );
    }
    let beyond = FETCHED.len() as u64 + 1;
    expect_end(&rt, rt.alloc(), &files, (2, 5), beyond, Status::Done, EQUAL);
}

/// Second books that two servers can tell from the first, and the line of each.
const APART: [(&str, (u32, u32), &str); 5] = [
    ("own.book", (1, 2), "worlds refused own bids 3\n"),
    (
        "own.book",
        (4, 5),
        "worlds refused outcomes 110/35 110/36\n",
    ),
    ("less.book", (1, 2), "worlds refused shape 3\n"),
    ("mark.book", (4, 5), "worlds refused shape 2\n"),
    (
        "own.book",
        (1, 3),
        "worlds refused outcomes 110/35 110/36\n",
    ),
];

#[test]
fn books_that_two_servers_can_tell_apart(rt: HostRuntime) {
    for (second, servers, text) in &APART {
        let status = Status::Refused(Refusal::Own(OwnRefusal::OfWorlds));
        expect_end(&rt, rt.alloc(), &names(second), *servers, 0, status, text);
    }
}

/// Second books that are no books, and the line of each.
const BAD: [(&str, &str); 3] = [
    ("bad.book", "bad file: bad.book row 3 reason 2\n"),
    ("bids.book", "bad file: b.book row 1 reason 1\n"),
    ("v.srv", "bad file: v.srv row 1 reason 1\n"),
];

#[test]
fn second_books_are_refused(rt: HostRuntime) {
    for (second, text) in &BAD {
        let status = Status::Refused(Refusal::BadFile);
        expect_end(&rt, rt.alloc(), &names(second), (2, 5), 0, status, text);
    }
}

/// The first and the second book of an auction of 4,096 prices, of which one has a bidder too many or none has, and
/// what is said of them.
const LIMITED: [(&str, &str, Refusal, &str); 4] = [
    (
        "long.book",
        "c.book",
        Refusal::BadFile,
        "bad file: long.book row 0 reason 6\n",
    ),
    (
        "within.book",
        "long.book",
        Refusal::ReadFault,
        "read fault: none\n",
    ),
    (
        "b.book",
        "long.book",
        Refusal::BadFile,
        "bad file: long.book row 0 reason 6\n",
    ),
    (
        "b.book",
        "within.book",
        Refusal::ReadFault,
        "read fault: none\n",
    ),
];

#[test]
fn both_books_of_two_worlds_have_their_limit(rt: HostRuntime) {
    for (first, second, refusal, text) in &LIMITED {
        let mut files = names(second);
        files.auction = "many.auc";
        files.first = first;
        let status = Status::Refused(*refusal);
        expect_end(&rt, rt.alloc(), &files, (2, 5), 0, status, text);
    }
}

/// What is said of two books that clear as this one.
fn said(rt: &impl Abort, alloc: Global, book: &Book) -> String {
    match outcome(book) {
        Outcome::Price {
            price,
            volume: Some(volume),
            ..
        } => format!(in alloc; "price {price}\nvolume {volume}\nrounds 259\ntranscripts equal\n"),
        _ => format!(in alloc; "no price\nrounds 258\ntranscripts equal\n"),
    }
    .expect(rt, "memory")
}

/// The two transcripts and the words of two worlds of books that clear alike, of which this is said.
fn put(
    rt: &impl Abort,
    alloc: Global,
    files: &WorldsFiles<'_>,
    servers: (u32, u32),
    text: &str,
) -> (NewFile, NewFile, NewFile) {
    let reply = done(rt, alloc, files, servers, 0).expect(rt, "an answer");
    assert!(rt; reply.status == Status::Done);
    assert!(rt; reply.text.as_slice() == text.as_bytes());
    assert!(rt; reply.files.len() == 3);
    let mut files = reply.files;
    let words = files.pop().expect(rt, "words");
    let other = files.pop().expect(rt, "a transcript");
    let one = files.pop().expect(rt, "a transcript");
    (one, other, words)
}

/// The number that stands in a file at a place, and the place behind it.
fn number(rt: &impl Abort, file: &[u8], at: usize) -> (u64, usize) {
    assert!(rt; at <= file.len());
    let allowed = Allowed {
        low: 0,
        high: (1 << 61) - 1,
        truncated: 1,
        outside: 2,
    };
    read_number(file, allowed, at).expect(rt, "a number")
}

/// The list that stands in a file at a place, and the place behind it.
fn list(rt: &impl Abort, alloc: Global, file: &[u8], at: usize) -> (WordList, usize) {
    let (count, mut place) = number(rt, file, at);
    let mut words = WordList::new(alloc);
    for _ in 0..count {
        let (word, next) = number(rt, file, place);
        let word = Word::of(word).expect(rt, "a word");
        words.push(word).expect(rt, "memory");
        place = next;
    }
    (words, place)
}

fn words_of(rt: &impl Abort, alloc: Global, file: &[u8]) -> FiveWords {
    assert!(rt; file.starts_with(b"BEETFW01"));
    let (bidders, mut place) = number(rt, file, 8);
    let mut words = FiveWords {
        masks: Vec::new(alloc),
        coefficients: Vec::new(alloc),
        bidders: Vec::new(alloc),
    };
    for _ in 0..5 {
        let (masks, next) = list(rt, alloc, file, place);
        let (coefficients, next) = list(rt, alloc, file, next);
        words.masks.push(masks).expect(rt, "memory");
        words.coefficients.push(coefficients).expect(rt, "memory");
        place = next;
    }
    for _ in 0..bidders {
        let (list, next) = list(rt, alloc, file, place);
        words.bidders.push(list).expect(rt, "memory");
        place = next;
    }
    assert!(rt; place == file.len());
    words
}

/// The auction of a book with its words.
fn whole(rt: &impl Abort, alloc: Global, book: &str) -> FiveWhole {
    let mut shelf = shelf(rt, alloc, 0);
    let files = AuctionFiles {
        auction: "g.auc",
        servers: "v.srv",
        book,
    };
    load_five_whole(alloc, &mut shelf, &files).expect(rt, "an auction")
}

/// The file of the words of the first world, mapped back from those of the second.
fn back(
    rt: &impl Abort,
    alloc: Global,
    two: Watchers,
    first: &Book,
    second: &Book,
    words: &FiveWords,
) -> Vec<u8> {
    assert!(rt; first.grid() == second.grid());
    assert!(rt; second.grid().gates() == Gates::Chain);
    assert!(rt; enough(second, words));
    let words = five_map(alloc, two, second, first, words).expect(rt, "a map");
    assert!(rt; words.masks.len() == 5 && words.coefficients.len() == 5);
    write_five_words(alloc, &words).expect(rt, "memory")
}

/// Compares what a pair of servers sees of both worlds, and the way back by the file of words.
fn expect_same(
    rt: &impl Abort,
    alloc: Global,
    files: &WorldsFiles<'_>,
    servers: (u32, u32),
    here: &FiveWhole,
    there: &FiveWhole,
) {
    let text = said(rt, alloc, &here.book);
    let (one, other, words) = put(rt, alloc, files, servers, text.as_str());
    assert!(rt; one.name.as_str() == "q.first" && other.name.as_str() == "q.second");
    assert!(rt; words.name.as_str() == "q.words");
    assert!(rt; one.bytes.as_slice() == other.bytes.as_slice());
    let two = Watchers::of(servers.0, servers.1).expect(rt, "two servers");
    let mapped = words_of(rt, alloc, words.bytes.as_slice());
    let again = back(rt, alloc, two, &here.book, &there.book, &mapped);
    let kept = write_five_words(alloc, &here.words).expect(rt, "memory");
    assert!(rt; again.as_slice() == kept.as_slice());
    assert!(rt; words.bytes.as_slice() != kept.as_slice());
}

/// Compares what each pair of servers sees of two books.
fn expect_all_same(rt: &impl Abort, alloc: Global, files: &WorldsFiles<'_>) {
    let here = whole(rt, alloc, files.first);
    let there = whole(rt, alloc, files.second);
    for a in 1..5 {
        for b in a + 1..6 {
            expect_same(rt, alloc, files, (a, b), &here, &there);
        }
    }
}

#[test]
fn all_pairs_see_the_same(rt: HostRuntime) {
    expect_all_same(&rt, rt.alloc(), &names("c.book"));
}

/// Compares what each pair of servers sees of the two books of a draw.
fn expect_drawn(rt: &impl Abort, alloc: Global, draw: usize) {
    let first = name_of(rt, alloc, draw, "first");
    let second = name_of(rt, alloc, draw, "second");
    let mut files = names(second.as_str());
    files.first = first.as_str();
    expect_all_same(rt, alloc, &files);
}

#[test]
fn all_pairs_see_the_same_of_the_first_draw(rt: HostRuntime) {
    expect_drawn(&rt, rt.alloc(), 0);
}

#[test]
fn all_pairs_see_the_same_of_the_second_draw(rt: HostRuntime) {
    expect_drawn(&rt, rt.alloc(), 1);
}

#[test]
fn all_pairs_see_the_same_of_the_third_draw(rt: HostRuntime) {
    expect_drawn(&rt, rt.alloc(), 2);
}

#[test]
fn all_pairs_see_the_same_of_the_fourth_draw(rt: HostRuntime) {
    expect_drawn(&rt, rt.alloc(), 3);
}
