//! A desk over the files of the system and standard output, which tells its calls, and not what it was given.

ghost use Rattle.std.specs.Prelude.{◌≡◌, ◌↔◌, IfErr, IsErrOf, IsTrue, []};
ghost use Rattle.beet_store.specs.Desks.{Called, Put, Say};
ghost use Rattle.beet_store.specs.Host.{WritesAll, host_desk};
ghost use Rattle.beet_store.specs.declared.desk.PutFault.TheVariants.{Failed};

use crate::counting::count_call;
use crate::desk::{Desk, PutFault};
use crate::history::{Asked, History};
use std::alloc::Global;
use std::fs::{self, OpenFile, OpenOptions};
use std::io::{self, Write};
use std::marker::Model;
use std::os::unix::fs::OpenOptionsExt;
use std::rt::Files;

/// The files of the system, by path, and standard output. What reaches a real file is shown by tests alone.
///
/// A put replaces a file as a whole: it writes a new file beside the name, waits until the disk has it, and renames it
/// over the name. So the old file stands whole after a put that failed, and the old or the new one after a put that was
/// interrupted. If the name is there and is no regular file, as a device, a pipe or a link, the bytes are written
/// through it. A file that is created is for its owner alone to read. A put takes memory for the name of the new file;
/// what is said takes none.
#[derive(Drop)]
pub struct HostDesk<R> {
    rt: R,
    faults: u64,
    history: History,
}

impl<R> Model for HostDesk<R> {
    ghost use Rattle.beet_store.specs.Desks.{DeskSeen};
    ghost use Rattle.beet_store.specs.Host.{host_desk};

    ghost Value = { DeskSeen };

    ghost view = { λ a. host_desk a.history.so_far.calls a.faults };
}

impl<R> HostDesk<R> {
    /// A desk over the files and the output that `rt` reaches.
    pub fn new(rt: R) -> HostDesk<R>
        ensures { result ≡ host_desk [] 0 }
    {
        HostDesk {
            rt,
            faults: 0,
            history: History::new(),
        }
    }

    /// The count of faults, one for each call that failed; at its last value it stays.
    pub fn faults(&self) -> u64
        ensures { result ≡ self.now.faults }
    {
        self.faults
    }
}

/// Writes all the bytes in order, in each turn at least one.
fn write_whole<W: Write>(out: &mut W, bytes: &[u8]) -> Result<(), PutFault>
    ensures written { WritesAll (W.contents out.old) (W.contents out.new) bytes.now result }
    ensures failed { IfErr result (λ fault. fault ≡ Failed) }
{
    let mut done = 0;
    for _turn in 0..u64::MAX {
        if done == bytes.len() {
            return match out.flush() {
                Ok(()) => Ok(()),
                Err(_) => Err(PutFault::Failed),
            };
        }
        let Ok(count) = out.write(&bytes[done..]) else {
            return Err(PutFault::Failed);
        };
        if count == 0 {
            return Err(PutFault::Failed);
        }
        done += count;
    }
    unreachable!()
}

/// The permission bits of a file that is created: its owner reads and writes it.
const OWNER_ALONE: u32 = 0o600;

/// How many names are tried for a file beside another. An interrupted put leaves at most one of them behind.
const MOST_BESIDE: u32 = 100;

/// Creates a file beside that of the name, under a name that was not there, which is answered too.
fn create_beside<R: Files>(
    rt: &R,
    alloc: Global,
    name: &str,
) -> Result<(String, R::File), PutFault> {
    for number in 0..MOST_BESIDE {
        let beside = format!(in alloc; "{name}.new-{number}")?;
        let mut how = OpenOptions::new();
        how.write(true).create_new(true).mode(OWNER_ALONE);
        match how.open(rt, beside.as_str()) {
            Ok(file) => return Ok((beside, file)),
            Err(error) if error.kind() == io::ErrorKind::AlreadyExists => {}
            Err(_) => return Err(PutFault::Failed),
        }
    }
    Err(PutFault::Failed)
}

/// Writes all the bytes, and waits until the disk has them.
fn write_synced<F: Write + OpenFile>(file: &mut F, bytes: &[u8]) -> Result<(), PutFault>
    ensures written { WritesAll (F.contents file.old) (F.contents file.new) bytes.now result }
{
    write_whole(file, bytes)?;
    match file.sync_all() {
        Ok(()) => Ok(()),
        Err(_) => Err(PutFault::Failed),
    }
}

/// Writes a new file beside that of the name, and renames it over the name. If that fails the new file is removed.
fn replace_file<R: Files>(rt: &R, alloc: Global, name: &str, bytes: &[u8]) -> Result<(), PutFault> {
    let (beside, mut file) = create_beside(rt, alloc, name)?;
    let written = write_synced(&mut file, bytes);
    drop(file);
    if written.is_ok() && fs::rename(rt, beside.as_str(), name).is_ok() {
        return Ok(());
    }
    // If it cannot be removed either, it stays.
    let _removed = fs::remove_file(rt, beside.as_str());
    Err(PutFault::Failed)
}

/// Writes the bytes through the name, to what is there.
fn write_through<R: Files>(rt: &R, name: &str, bytes: &[u8]) -> Result<(), PutFault> {
    let mut how = OpenOptions::new();
    how.write(true)
        .create(true)
        .truncate(true)
        .mode(OWNER_ALONE);
    let Ok(mut file) = how.open(rt, name) else {
        return Err(PutFault::Failed);
    };
    write_whole(&mut file, bytes)
}

/// Whether the name is that of a regular file or of none. A name that cannot be looked at may be that of a link or a
/// device, so nothing is put there.
fn is_replaceable<R: Files>(rt: &R, name: &str) -> Result<bool, PutFault> {
    match fs::symlink_metadata(rt, name) {
        Ok(found) => Ok(found.is_file()),
        Err(error) if error.kind() == io::ErrorKind::NotFound => Ok(true),
        Err(_) => Err(PutFault::Failed),
    }
}

/// Writes the whole file of the name.
fn write_file<R: Files>(rt: &R, alloc: Global, name: &str, bytes: &[u8]) -> Result<(), PutFault> {
    if is_replaceable(rt, name)? {
        replace_file(rt, alloc, name, bytes)
    } else {
        write_through(rt, name, bytes)
    }
}

/// Whether a call failed.
fn is_failed(answer: Result<(), PutFault>) -> bool
    ensures { IsTrue result ↔ IsErrOf answer Failed }
{
    matches!(answer, Err(PutFault::Failed))
}

impl<R: Files + Print> Desk for HostDesk<R> {
    ghost seen = { λ d. d };

    fn put(&mut self, alloc: Global, name: &str, bytes: &[u8]) -> Result<(), PutFault>
        ensures called { Called self.old self.new (Put name.now bytes.now result) }
    {
        let answer = write_file(&self.rt, alloc, name, bytes);
        count_call(&mut self.faults, is_failed(answer));
        self.history = self.history.and(&Asked::Put(name, bytes, answer));
        answer
    }

    fn say(&mut self, bytes: &[u8]) -> Result<(), PutFault>
        ensures called { Called self.old self.new (Say bytes.now result) }
        ensures failed { IfErr result (λ fault. fault ≡ Failed) }
    {
        let answer = write_whole(&mut io::writer(&self.rt), bytes);
        count_call(&mut self.faults, is_failed(answer));
        self.history = self.history.and(&Asked::Say(bytes, answer));
        answer
    }
}
