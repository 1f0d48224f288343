//! A desk in memory, which fails at the calls that it is told.

ghost use Rattle.std.specs.Prelude.{◌≡◌, ◌≢◌, ◌↔◌, ◌++◌, ℕ, List, [], option_map, Some, OnOk, OnErr, IsErrOf, IsTrue};
ghost use Rattle.beet_store.specs.Files.{bytes_of};
ghost use Rattle.beet_store.specs.Desks.{Called, Put, Say, Stands};
ghost use Rattle.beet_store.specs.Memory.{is_listed, after_call, desk_seen};
ghost use Rattle.beet_store.specs.declared.desk.PutFault.TheVariants.{Failed};

use crate::calls::Calls;
use crate::desk::{Desk, PutFault};
use crate::history::{Asked, History};
use crate::memory::{Held, find, place};
use std::alloc::{AllocError, Global};
use std::marker::Model;

/// Files and a text in memory, with the record of the calls, which exists in proofs alone. The calls are numbered from
/// 1, and exactly those that are listed fail; they leave files and text as they were.
#[derive(Drop)]
pub struct MemoryDesk {
    files: Vec<Held>,
    said: Vec<u8>,
    calls: Calls,
    history: History,
}

impl Model for MemoryDesk {
    ghost use Rattle.beet_store.specs.Memory.{DeskInMemory};

    ghost Value = { DeskInMemory };

    ghost view = { λ a. record {
      given = record { files = a.files.items; said = a.said.items };
      history = a.history.so_far.calls;
      calls = a.calls;
    } };
}

/// Puts the bytes under the name.
fn replace(files: &mut Vec<Held>, alloc: Global, name: &str, bytes: &[u8]) -> Result<(), AllocError>
    ensures file { OnOk result (bytes_of files.new.items name.now ≡ Some bytes.now) }
    ensures others { (other : List ℕ) → other ≢ name.now
        → bytes_of files.new.items other ≡ bytes_of files.old.items other }
    ensures err { OnErr result (files.new.items ≡ files.old.items) }
{
    let bytes = Vec::from_slice(alloc, bytes)?;
    if let Some(at) = place(files.as_slice(), name) {
        let file = &mut files[at];
        file.bytes = bytes;
        return Ok(());
    }
    let name = String::from_str(alloc, name)?;
    files.push(Held { name, bytes })?;
    Ok(())
}

/// Puts the bytes under the name, if the call does not fail.
fn put_into(
    files: &mut Vec<Held>,
    alloc: Global,
    fails: bool,
    name: &str,
    bytes: &[u8],
) -> Result<(), PutFault>
    ensures exact { IsErrOf result Failed ↔ IsTrue fails }
    ensures file { OnOk result (bytes_of files.new.items name.now ≡ Some bytes.now) }
    ensures others { (other : List ℕ) → other ≢ name.now
        → bytes_of files.new.items other ≡ bytes_of files.old.items other }
    ensures err { OnErr result (files.new.items ≡ files.old.items) }
{
    if fails {
        return Err(PutFault::Failed);
    }
    replace(files, alloc, name, bytes)?;
    Ok(())
}

/// Appends the bytes to the text, if the call does not fail.
fn say_into(said: &mut Vec<u8>, fails: bool, bytes: &[u8]) -> Result<(), PutFault>
    ensures exact { IsErrOf result Failed ↔ IsTrue fails }
    ensures ok { OnOk result (said.new.items ≡ said.old.items ++ bytes.now) }
    ensures err { OnErr result (said.new.items ≡ said.old.items) }
{
    if fails {
        return Err(PutFault::Failed);
    }
    said.extend_from_slice(bytes)?;
    Ok(())
}

impl MemoryDesk {
    /// A desk that was given nothing. `failing` are the numbers of the calls that fail, of `put` and `say` together.
    pub fn new(failing: Vec<u64>) -> MemoryDesk
        ensures given { result.given ≡ record { files = []; said = [] } }
        ensures history { result.history ≡ [] }
        ensures calls { result.calls ≡ record { failing = failing.items; made = 0; faults = 0 } }
    {
        let alloc = *failing.allocator();
        MemoryDesk {
            files: Vec::new(alloc),
            said: Vec::new(alloc),
            calls: Calls::new(failing),
            history: History::new(),
        }
    }

    /// The bytes that were put under the name.
    pub fn file(&self, name: &str) -> Option<&[u8]>
        ensures { option_map (λ bytes. bytes.now) result ≡ bytes_of self.now.given.files name.now }
    {
        find(self.files.as_slice(), name)
    }

    /// The text that was printed.
    pub fn said(&self) -> &[u8]
        ensures { result.now ≡ self.now.given.said }
    {
        self.said.as_slice()
    }

    /// The count of faults; at its last value it stays.
    pub fn faults(&self) -> u64
        ensures { result ≡ self.now.calls.faults }
    {
        self.calls.faults()
    }
}

impl Desk for MemoryDesk {
    ghost seen = { desk_seen };

    fn put(&mut self, alloc: Global, name: &str, bytes: &[u8]) -> Result<(), PutFault>
        ensures called { Called (desk_seen self.old) (desk_seen self.new) (Put name.now bytes.now result) }
        ensures counted { self.new.calls ≡ after_call self.old.calls (is_listed self.old.calls) }
        ensures exact { IsErrOf result Failed ↔ IsTrue (is_listed self.old.calls) }
        ensures err { OnErr result (Stands self.old.given self.new.given) }
    {
        let fails = self.calls.begin(false);
        let answer = put_into(&mut self.files, alloc, fails, name, bytes);
        self.history = self.history.and(&Asked::Put(name, bytes, answer));
        answer
    }

    fn say(&mut self, bytes: &[u8]) -> Result<(), PutFault>
        ensures called { Called (desk_seen self.old) (desk_seen self.new) (Say bytes.now result) }
        ensures counted { self.new.calls ≡ after_call self.old.calls (is_listed self.old.calls) }
        ensures exact { IsErrOf result Failed ↔ IsTrue (is_listed self.old.calls) }
        ensures err { OnErr result (Stands self.old.given self.new.given) }
    {
        let fails = self.calls.begin(false);
        let answer = say_into(&mut self.said, fails, bytes);
        self.history = self.history.and(&Asked::Say(bytes, answer));
        answer
    }
}
