//! Making the words of five servers of their seeds.

ghost use Rattle.std.specs.Prelude.{◌≡◌, ◌≤◌, ◌++◌, ◌∷◌, [], IfOk, OnOk, length};
ghost use Rattle.beet_errand.specs.Fetches.{Reads, ReadsFor};
ghost use Rattle.beet_load.specs.Servers.{server_errand};
ghost use Rattle.beet_five_load.specs.FiveServers.{AreServing, CanServe, servers_errand};
ghost use Rattle.beet_five_load.specs.FiveWants.{counts_of_five, wanted_of_five};

use crate::setting::FiveSetting;
use crate::wanted::five_wants;
use beet_book::ServerSource;
use beet_errand::Stop;
use beet_load::{ServerWords, Wanted, read_server};
use beet_store::Shelf;
use beet_words::WordList;
use std::alloc::{AllocError, Global};
use std::marker::Model;

/// The mask words of each server, and its words for numbers.
#[derive(Drop)]
pub(crate) struct ServerLists {
    pub(crate) masks: Vec<WordList>,
    pub(crate) coefficients: Vec<WordList>,
}

impl Model for ServerLists {
    ghost use Rattle.beet_five_load.specs.FiveServers.{ServerLists as Lists};

    ghost Value = { Lists };

    ghost view = { λ a. record { masks = a.masks.items; coefficients = a.coefficients.items } };
}

impl ServerLists {
    ghost use Rattle.beet_five_load.specs.FiveServers.{lists_of};

    /// Those of no server.
    fn new(alloc: Global) -> ServerLists
        ensures { result ≡ lists_of [] }
    {
        ServerLists {
            masks: Vec::new(alloc),
            coefficients: Vec::new(alloc),
        }
    }

    /// Keeps the words of one server more.
    fn push(&mut self, words: ServerWords) -> Result<(), AllocError>
        ensures { OnOk result (self.new ≡ record {
          masks = self.old.masks ++ words.masks ∷ [];
          coefficients = self.old.coefficients ++ words.coefficients ∷ [];
        }) }
    {
        let masks = words.masks.into_words();
        let coefficients = words.coefficients.into_words();
        self.masks.reserve(1)?;
        self.coefficients.reserve(1)?;
        self.masks.push_reserved(masks);
        self.coefficients.push_reserved(coefficients);
        Ok(())
    }
}

/// The words of the server of this number, of its seed.
fn read_seeded<S: Shelf>(
    alloc: Global,
    shelf: &mut S,
    wanted: &Wanted,
    server: u32,
    seed: &[u8; 32],
) -> Result<ServerWords, Stop>
    ensures serves { IfOk result (CanServe wanted.now.counts) }
    ensures reads { Reads (λ words. words) (S.seen shelf.old) (S.seen shelf.new)
        (server_errand wanted.now server (ServerSource.Seed seed.now)) result }
{
    let words = read_server(alloc, shelf, wanted, server, &ServerSource::Seed(*seed))?;
    // The words tell the proof that they are below 2^61.
    let (_masks, _coefficients) = (words.masks.words(), words.coefficients.words());
    Ok(words)
}

/// The words of the servers with these seeds, in order.
fn read_seeded_servers<S: Shelf>(
    alloc: Global,
    shelf: &mut S,
    wanted: &Wanted,
    seeds: &[[u8; 32]],
) -> Result<ServerLists, Stop>
    requires few { length seeds.now ≤ 5 }
    ensures { ReadsFor (AreServing wanted.now.counts seeds.now) (S.seen shelf.old) (S.seen shelf.new)
        (servers_errand wanted.now [] seeds.now) result }
{
    let mut lists = ServerLists::new(alloc);
    for (i, seed) in seeds.iter().enumerate() {
        let words = read_seeded(alloc, shelf, wanted, i as u32 + 1, seed)?;
        lists.push(words)?;
    }
    Ok(lists)
}

/// The words of the servers of a setting.
pub(crate) fn read_servers<S: Shelf>(
    alloc: Global,
    shelf: &mut S,
    setting: &FiveSetting,
) -> Result<ServerLists, Stop>
    ensures { ReadsFor (AreServing (counts_of_five setting.now.grid) setting.now.seeds)
        (S.seen shelf.old) (S.seen shelf.new)
        (servers_errand (wanted_of_five setting.now.grid) [] setting.now.seeds) result }
{
    let wanted = five_wants(&setting.grid);
    read_seeded_servers(alloc, shelf, &wanted, setting.seeds.as_slice())
}
