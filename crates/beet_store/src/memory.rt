//! A shelf in memory, which fails at the calls that it is told.

ghost use Rattle.std.specs.Prelude.{◌≡◌, ◌↔◌, [], option_map, is_none, true, if◌then◌else◌, Some, None, IfSome, IfNone};
ghost use Rattle.std.specs.Prelude.{IsErrOf, IsTrue};
ghost use Rattle.beet_store.specs.Files.{bytes_of, Answers, FitsLimit, HasCause, TellsFetch, answer_of};
ghost use Rattle.beet_store.specs.Memory.{IsFirstOf, after_call, fetch_fails, shelf_seen};
ghost use Rattle.beet_store.specs.declared.shelf.FetchFault.TheVariants.{Failed};

use crate::calls::Calls;
use crate::history::{Asked, History};
use crate::shelf::{FetchFault, Shelf};
use std::alloc::Global;
use std::marker::Model;

/// One file of a memory shelf: its name and its bytes.
#[derive(Drop)]
pub struct Held {
    pub name: String,
    pub bytes: Vec<u8>,
}

impl Model for Held {
    ghost use Rattle.std.specs.Prelude.{string_bytes, List, ℕ};

    ghost Value = { List ℕ × List ℕ };

    ghost view = { λ a. (string_bytes a.name, a.bytes.items) };
}

/// Files in memory, with the record of the fetches, which exists in proofs alone. The calls are numbered from 1; those
/// that are listed fail, and those that ask for a name that is not held.
#[derive(Drop)]
pub struct MemoryShelf {
    files: Vec<Held>,
    calls: Calls,
    history: History,
}

impl Model for MemoryShelf {
    ghost use Rattle.beet_store.specs.Memory.{ShelfInMemory};

    ghost Value = { ShelfInMemory };

    ghost view = { λ a. record {
      files = a.files.items;
      fetches = a.history.so_far.fetches;
      calls = a.calls;
    } };
}

/// The place of the first file of the name.
pub(crate) fn place(files: &[Held], name: &str) -> Option<usize>
    ensures found { IfSome result (IsFirstOf files.now name.now) }
    ensures missing { IfNone result (bytes_of files.now name.now ≡ None) }
{
    for i in 0..files.len() {
        let file = &files[i];
        if file.name.as_str() == name {
            return Some(i);
        }
    }
    None
}

/// The bytes of the first file of the name.
pub(crate) fn find<'a>(files: &'a [Held], name: &str) -> Option<&'a [u8]>
    ensures { option_map (λ bytes. bytes.now) result ≡ bytes_of files.now name.now }
{
    match place(files, name) {
        Some(at) => {
            let file = &files[at];
            Some(file.bytes.as_slice())
        }
        None => None,
    }
}

/// What a fetch answers that fails or not, of the file that was found: the whole of it, of at most `limit` bytes.
fn answered(
    alloc: Global,
    fails: bool,
    found: Option<&[u8]>,
    limit: u64,
) -> Result<Vec<u8>, FetchFault>
    ensures held { IfSome (answer_of result) (Answers (option_map (λ bytes. bytes.now) found.entry)) }
    ensures limited { IfSome (answer_of result) (FitsLimit limit) }
    ensures exact { IsErrOf result Failed ↔ IsTrue (if is_none found.entry then true else fails) }
{
    let (Some(bytes), false) = (found, fails) else {
        return Err(FetchFault::Failed);
    };
    let count = bytes.len() as u64;
    if count > limit {
        return Err(FetchFault::TooLong(count));
    }
    Ok(Vec::from_slice(alloc, bytes)?)
}

impl MemoryShelf {
    /// A shelf of these files; of two with one name the first is held. `failing` are the numbers of the calls that
    /// fail.
    pub fn new(files: Vec<Held>, failing: Vec<u64>) -> MemoryShelf
        ensures files { result.files ≡ files.items }
        ensures fetches { result.fetches ≡ [] }
        ensures calls { result.calls ≡ record { failing = failing.items; made = 0; faults = 0 } }
    {
        MemoryShelf {
            files,
            calls: Calls::new(failing),
            history: History::new(),
        }
    }

    /// The count of faults; at its last value it stays.
    pub fn faults(&self) -> u64
        ensures { result ≡ self.now.calls.faults }
    {
        self.calls.faults()
    }
}

impl Shelf for MemoryShelf {
    ghost seen = { shelf_seen };

    fn fetch(&mut self, alloc: Global, name: &str, limit: u64) -> Result<Vec<u8>, FetchFault>
        ensures cause { HasCause self.old.calls.faults self.new.calls.faults limit result }
        ensures content { TellsFetch (shelf_seen self.old).told (shelf_seen self.new).told name.now limit result }
        ensures counted { self.new.calls ≡ after_call self.old.calls (fetch_fails self.old name.now) }
        ensures exact { IsErrOf result Failed ↔ IsTrue (fetch_fails self.old name.now) }
    {
        let found = find(self.files.as_slice(), name);
        let fails = self.calls.begin(found.is_none());
        let answer = answered(alloc, fails, found, limit);
        self.history = self.history.and(&Asked::Fetch(name, limit, &answer));
        answer
    }
}
