//! A shelf over the files of the system, which tells what it answered, and nothing else of what they hold.

ghost use Rattle.std.specs.Prelude.{◌≡◌, ◌≤◌, ◌<◌, ◌+◌, ◌↔◌, IfSome, IsErrOf, IsTrue, [], length};
ghost use Rattle.beet_store.specs.Files.{FitsLimit, HasCause, TellsFetch, answer_of};
ghost use Rattle.beet_store.specs.Host.{ReadsWithin, StopsBeyond, host_shelf};
ghost use Rattle.beet_store.specs.declared.shelf.FetchFault.TheVariants.{Failed};

use crate::counting::count_call;
use crate::history::{Asked, History};
use crate::shelf::{FetchFault, Shelf};
use std::alloc::Global;
use std::fs;
use std::io::Read;
use std::marker::Model;
use std::rt::Files;

/// The files of the system, by path. What a fetch reads of a real file is shown by tests alone; a name that is a
/// folder, and a read that fails or is interrupted midway, answer `Failed`.
#[derive(Drop)]
pub struct HostShelf<R> {
    rt: R,
    faults: u64,
    history: History,
    /// Room for what one turn of a fetch reads.
    piece: [u8; PIECE],
}

impl<R> Model for HostShelf<R> {
    ghost use Rattle.beet_store.specs.Files.{Seen};
    ghost use Rattle.beet_store.specs.Host.{host_shelf};

    ghost Value = { Seen };

    ghost view = { λ a. host_shelf a.history.so_far.fetches a.faults };
}

impl<R> HostShelf<R> {
    /// A shelf over the files that `rt` reaches.
    pub fn new(rt: R) -> HostShelf<R>
        ensures { result ≡ host_shelf [] 0 }
    {
        HostShelf {
            rt,
            faults: 0,
            history: History::new(),
            piece: [0; PIECE],
        }
    }

    /// The count of faults, one for each fetch that failed; at its last value it stays.
    pub fn faults(&self) -> u64
        ensures { result ≡ self.now.faults }
    {
        self.faults
    }
}

/// How many bytes are asked for in one turn.
const PIECE: usize = 16_384;

/// How many bytes a turn asks for: at least one, at most one more than there is room for.
fn wanted(room: u64) -> usize
    ensures some { 0 < result }
    ensures within { result ≤ room + 1 }
    ensures piece { result ≤ PIECE }
{
    if room < PIECE as u64 {
        room as usize + 1
    } else {
        PIECE
    }
}

/// Reads to the end, of at most `limit` bytes: in all at most one byte beyond the limit, in each turn at least one.
fn read_whole<F: Read>(
    file: &mut F,
    alloc: Global,
    piece: &mut [u8],
    limit: u64,
) -> Result<Vec<u8>, FetchFault>
    requires { length piece.old ≡ PIECE }
    ensures limited { IfSome (answer_of result) (FitsLimit limit) }
    ensures beyond { StopsBeyond limit result }
    ensures read { ReadsWithin (F.remaining file.old) (F.remaining file.new) limit result }
{
    let mut bytes = Vec::new(alloc);
    for _turn in 0..u64::MAX {
        let want = wanted(limit - bytes.len() as u64);
        let Ok(count) = file.read(&mut piece[..want]) else {
            return Err(FetchFault::Failed);
        };
        if count == 0 {
            return Ok(bytes);
        }
        bytes.extend_from_slice(&piece[..count])?;
        if bytes.len() as u64 > limit {
            return Err(FetchFault::TooLong(bytes.len() as u64));
        }
    }
    unreachable!()
}

/// Opens the file and reads it.
fn read_file<R: Files>(
    rt: &R,
    alloc: Global,
    piece: &mut [u8],
    name: &str,
    limit: u64,
) -> Result<Vec<u8>, FetchFault>
    requires { length piece.old ≡ PIECE }
    ensures limited { IfSome (answer_of result) (FitsLimit limit) }
    ensures beyond { StopsBeyond limit result }
{
    let Ok(mut file) = fs::File::open(rt, name) else {
        return Err(FetchFault::Failed);
    };
    read_whole(&mut file, alloc, piece, limit)
}

fn is_failed(answer: &Result<Vec<u8>, FetchFault>) -> bool
    ensures { IsTrue result ↔ IsErrOf answer.now Failed }
{
    matches!(answer, Err(FetchFault::Failed))
}

impl<R: Files> Shelf for HostShelf<R> {
    ghost seen = { λ s. s };

    fn fetch(&mut self, alloc: Global, name: &str, limit: u64) -> Result<Vec<u8>, FetchFault>
        ensures cause { HasCause self.old.faults self.new.faults limit result }
        ensures content { TellsFetch self.old.told self.new.told name.now limit result }
        ensures beyond { StopsBeyond limit result }
    {
        let answer = read_file(&self.rt, alloc, &mut self.piece, name, limit);
        count_call(&mut self.faults, is_failed(&answer));
        self.history = self.history.and(&Asked::Fetch(name, limit, &answer));
        answer
    }
}
