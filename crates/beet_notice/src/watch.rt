//! What is kept of the answers of a shelf: the seeds in those of them that count.

ghost use Rattle.std.specs.Prelude.{◌≡◌, ◌≤◌, ◌<◌, ◌+◌, ◌++◌, ℕ, List, OnOk, [], false, length, if◌then◌else◌, min};
ghost use Rattle.beet_notice.specs.Noting.{HasNoted, HasSeeds};
ghost use Rattle.beet_notice.specs.Notices.{if_read, seeds_fetched, seeds_of_entries, seeds_of_servers};
ghost use Rattle.beet_book.specs.BookFiles.{book_of};
ghost use Rattle.beet_book.specs.ServerFiles.{servers_of};
ghost use Rattle.beet_store.specs.Files.{Bytes, Fetch, answer_of, fetches_after};

use crate::seeds::Seeds;
use beet_book::{read_book, read_servers};
use beet_forms::{LONGEST_FILE, ReadFault};
use beet_store::FetchFault;
use std::alloc::{AllocError, Global};

/// Notes the seeds in a file of servers; another file has none. Want of memory is the only error.
fn note_servers(alloc: Global, seeds: &mut Seeds, bytes: &[u8]) -> Result<(), AllocError>
    requires { length bytes.now ≤ LONGEST_FILE }
    ensures { OnOk result ((before : List (List ℕ)) → HasSeeds before seeds.old
        → HasSeeds (before ++ if_read seeds_of_servers (servers_of bytes.now)) seeds.new) }
{
    match read_servers(alloc, bytes) {
        Ok(servers) => {
            seeds.note_servers(&servers)?;
            Ok(())
        }
        Err(ReadFault::Bad { .. }) => Ok(()),
        Err(ReadFault::OutOfMemory) => Err(AllocError),
    }
}

/// Notes the seeds in a book; another file has none. Want of memory is the only error.
fn note_book(alloc: Global, seeds: &mut Seeds, bytes: &[u8]) -> Result<(), AllocError>
    requires { length bytes.now ≤ LONGEST_FILE }
    ensures { OnOk result ((before : List (List ℕ)) → HasSeeds before seeds.old
        → HasSeeds (before ++ if_read seeds_of_entries (book_of bytes.now)) seeds.new) }
{
    match read_book(alloc, bytes) {
        Ok(entries) => {
            seeds.note_entries(entries.as_slice())?;
            Ok(())
        }
        Err(ReadFault::Bad { .. }) => Ok(()),
        Err(ReadFault::OutOfMemory) => Err(AllocError),
    }
}

/// Notes the seeds in a file. Want of memory is the only error.
fn note_file(alloc: Global, seeds: &mut Seeds, bytes: &[u8]) -> Result<(), AllocError>
    ensures { OnOk result ((before : List (List ℕ)) → HasSeeds before seeds.old
        → HasSeeds (before ++ seeds_fetched (Bytes bytes.now)) seeds.new) }
{
    if bytes.len() as u64 > LONGEST_FILE {
        return Ok(());
    }
    note_servers(alloc, seeds, bytes)?;
    note_book(alloc, seeds, bytes)?;
    Ok(())
}

/// The files that are fetched up to the book: so far the answers are counted.
const BOOK: u8 = 3;

/// What is kept of the answers so far: how many files there were, up to the book; whether memory for a seed was
/// wanting; and the seeds.
#[derive(Drop)]
pub(crate) struct Watch {
    count: u8,
    lost: bool,
    seeds: Seeds,
}

impl Watch {
    pub(crate) fn new(alloc: Global) -> Watch
        ensures noted { HasNoted [] result }
        ensures lost { result.lost ≡ false }
    {
        Watch {
            count: 0,
            lost: false,
            seeds: Seeds::new(alloc),
        }
    }

    /// Whether one seed came twice; not if some were lost.
    pub(crate) fn has_seed_twice(&self) -> bool
        ensures { result ≡ (if self.now.lost then false else self.now.seeds.twice) }
    {
        if self.lost {
            return false;
        }
        self.seeds.come_twice()
    }

    /// Counts an answer, and notes nothing.
    fn pass(&mut self)
        requires { self.old.count ≤ BOOK }
        ensures { self.new ≡ record self.old { count = min BOOK (self.old.count + 1) } }
    {
        if self.count < BOOK {
            self.count += 1;
        }
    }

    /// Counts an answer, and notes the seeds in its file.
    fn note_counted(&mut self, alloc: Global, bytes: &[u8])
        requires { self.old.count < BOOK }
        ensures count { self.new.count ≡ self.old.count + 1 }
        ensures seeds { (before : List (List ℕ)) → (self.old.lost ≡ false → HasSeeds before self.old.seeds)
            → self.new.lost ≡ false → HasSeeds (before ++ seeds_fetched (Bytes bytes.now)) self.new.seeds }
    {
        self.count += 1;
        if note_file(alloc, &mut self.seeds, bytes).is_err() {
            self.lost = true;
        }
    }

    /// Notes the answer of a fetch.
    pub(crate) fn note(&mut self, alloc: Global, answer: &Result<Vec<u8>, FetchFault>)
        requires { self.old.count ≤ BOOK }
        ensures { (fetches : List Fetch) (name : List ℕ) (limit : ℕ) → HasNoted fetches self.old
            → HasNoted (fetches_after fetches name limit (answer_of answer.now)) self.new }
    {
        match answer {
            Ok(bytes) => {
                if 0 < self.count && self.count < BOOK {
                    self.note_counted(alloc, bytes.as_slice());
                } else {
                    self.pass();
                }
            }
            Err(FetchFault::OutOfMemory) => {}
            Err(_) => self.pass(),
        }
    }
}
