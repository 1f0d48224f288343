//! Reading the files of a session, and those of a lot.

ghost use Rattle.beet_errand.specs.Errands.{reads};
ghost use Rattle.beet_errand.specs.Fetches.{Reads, ReadsFor};
ghost use Rattle.beet_load.specs.Loading.{IsKeptOf};
ghost use Rattle.beet_book.specs.declared.server_file.TheConstants.{SERVERS_LIMIT};
ghost use Rattle.beet_lot_files.specs.SeedFiles.{seed_servers_of};
ghost use Rattle.beet_lot_files.specs.SessionFiles.{session_of};
ghost use Rattle.beet_lot_files.specs.declared.session_file.TheConstants.{SESSION_LIMIT};
ghost use Rattle.beet_lot_load.specs.Lots.{lot_errand, setting_errand};

use beet_book::{SERVERS_LIMIT, Servers};
use beet_errand::{Stop, fetch_file, judge};
use beet_forms::beside;
use beet_load::{Loaded, load_rest, read_entries, read_grid};
use beet_lot_files::{LotRow, Lots, SESSION_LIMIT, read_seed_servers, read_session};
use beet_store::Shelf;
use std::alloc::Global;

/// The names of the files of a session: of the session itself, and of its servers.
#[derive(Clone, Copy)]
pub struct SessionFiles<'a> {
    pub session: &'a str,
    pub servers: &'a str,
}

/// The lots of a session file.
pub fn read_lots<S: Shelf>(alloc: Global, shelf: &mut S, name: &str) -> Result<Lots, Stop>
    ensures { Reads (λ lots. lots) (S.seen shelf.old) (S.seen shelf.new)
        (reads name.now SESSION_LIMIT session_of) result }
{
    let bytes = fetch_file(alloc, shelf, name, SESSION_LIMIT)?;
    judge(alloc, name, read_session(alloc, bytes.as_slice()))
}

/// The seeds of the servers of a session, of a servers file.
fn read_seeds<S: Shelf>(alloc: Global, shelf: &mut S, name: &str) -> Result<Servers, Stop>
    ensures { Reads (λ servers. servers) (S.seen shelf.old) (S.seen shelf.new)
        (reads name.now SERVERS_LIMIT seed_servers_of) result }
{
    let bytes = fetch_file(alloc, shelf, name, SERVERS_LIMIT)?;
    judge(alloc, name, read_seed_servers(alloc, bytes.as_slice()))
}

/// The lots of a session, and the seeds of its servers. The session is judged before the servers file is fetched.
pub fn load_session<S: Shelf>(
    alloc: Global,
    shelf: &mut S,
    files: &SessionFiles<'_>,
) -> Result<(Lots, Servers), Stop>
    ensures { Reads (λ read. read) (S.seen shelf.old) (S.seen shelf.new)
        (setting_errand files.now.session.now files.now.servers.now) result }
{
    let lots = read_lots(alloc, shelf, files.session)?;
    let (lots, sources) = beside(lots, read_seeds(alloc, shelf, files.servers))?;
    Ok((lots, sources))
}

/// Reads the auction and the book of a lot, counted from 0, and then the words of its servers, from the streams of the
/// lot, and its bidders, whose points are added up.
pub(crate) fn load_lot<S: Shelf>(
    alloc: Global,
    shelf: &mut S,
    sources: &Servers,
    lot: u32,
    row: &LotRow,
) -> Result<Loaded, Stop>
    ensures { ReadsFor IsKeptOf (S.seen shelf.old) (S.seen shelf.new) (lot_errand sources.now lot row.now) result }
{
    let grid = read_grid(alloc, shelf, row.auction.as_str())?;
    let entries = read_entries(alloc, shelf, row.book.as_str())?;
    let loaded = load_rest(alloc, shelf, Some(lot), &grid, sources, entries.as_slice());
    drop(entries);
    loaded
}
