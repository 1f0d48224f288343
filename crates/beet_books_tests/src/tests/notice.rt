//! Files of servers and books in which a seed comes twice, or not.

use super::store::held;
use beet_notice::Watched;
use beet_store::{MemoryShelf, Shelf};
use std::alloc::Global;
use std::process::Abort;

/// Three servers, each with a seed of its own.
const APART: &str = "beet-servers,1\n\
    1,seed,0a0a0a0a0a0a0a0a0a0a0a0a0a0a0a0a0a0a0a0a0a0a0a0a0a0a0a0a0a0a0a0a\n\
    2,seed,0b0b0b0b0b0b0b0b0b0b0b0b0b0b0b0b0b0b0b0b0b0b0b0b0b0b0b0b0b0b0b0b\n\
    3,seed,0c0c0c0c0c0c0c0c0c0c0c0c0c0c0c0c0c0c0c0c0c0c0c0c0c0c0c0c0c0c0c0c\n";

/// Three servers, of which two have one seed.
const ALIKE: &str = "beet-servers,1\n\
    1,seed,0a0a0a0a0a0a0a0a0a0a0a0a0a0a0a0a0a0a0a0a0a0a0a0a0a0a0a0a0a0a0a0a\n\
    2,tape,c,m\n\
    3,seed,0a0a0a0a0a0a0a0a0a0a0a0a0a0a0a0a0a0a0a0a0a0a0a0a0a0a0a0a0a0a0a0a\n";

/// A bidder with another seed than any server.
const ANNA: &str = "beet-book,1\n\
    anna,0,a.bid,seed,0d0d0d0d0d0d0d0d0d0d0d0d0d0d0d0d0d0d0d0d0d0d0d0d0d0d0d0d0d0d0d0d\n\
    bo,0,b.bid,tape,b.tape\n";

/// A bidder with the seed of server 2.
const AS_A_SERVER: &str = "beet-book,1\n\
    anna,0,a.bid,seed,0b0b0b0b0b0b0b0b0b0b0b0b0b0b0b0b0b0b0b0b0b0b0b0b0b0b0b0b0b0b0b0b\n";

/// Two bidders with one seed.
const AS_ANNA: &str = "beet-book,1\n\
    anna,0,a.bid,seed,0d0d0d0d0d0d0d0d0d0d0d0d0d0d0d0d0d0d0d0d0d0d0d0d0d0d0d0d0d0d0d0d\n\
    bo,2,b.bid,seed,0d0d0d0d0d0d0d0d0d0d0d0d0d0d0d0d0d0d0d0d0d0d0d0d0d0d0d0d0d0d0d0d\n";

/// A servers file, a book and a second book, and whether a seed comes twice in the first two.
const CASES: [(&str, &str, &str, bool); 6] = [
    (APART, ANNA, ANNA, false),
    (ALIKE, ANNA, ANNA, true),
    (APART, AS_A_SERVER, ANNA, true),
    (APART, AS_ANNA, ANNA, true),
    (APART, ANNA, AS_ANNA, false),
    ("beet-servers,1\n", "", APART, false),
];

/// The longest of these files, in bytes.
const LIMIT: u64 = 1_000;

/// Whether a seed comes twice if these files are fetched one after another.
fn comes_twice(rt: &impl Abort, alloc: Global, texts: &[(&str, &str)]) -> bool {
    let mut files = Vec::new(alloc);
    for (name, text) in texts {
        files
            .push(held(rt, alloc, name, text.as_bytes()))
            .expect(rt, "memory");
    }
    let mut shelf = Watched::new(alloc, MemoryShelf::new(files, Vec::new(alloc)));
    for (name, text) in texts {
        let bytes = shelf.fetch(alloc, name, LIMIT).expect(rt, "a file");
        assert!(rt; bytes.as_slice() == text.as_bytes());
    }
    shelf.has_seed_twice()
}

#[test]
fn seeds_that_come_twice(rt: HostRuntime) {
    for (servers, book, second, twice) in CASES {
        let texts = [("a", servers), ("s", servers), ("b", book), ("c", second)];
        assert!(&rt; comes_twice(&rt, rt.alloc(), &texts) == twice);
    }
}
