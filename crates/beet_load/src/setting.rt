//! Reading the files of an auction, of its servers and of its book.

ghost use Rattle.beet_errand.specs.Fetches.{Reads};
ghost use Rattle.beet_load.specs.Files.{of_files};
ghost use Rattle.beet_load.specs.Settings.{auction_and_servers, setting_errand};

use crate::books::{read_entries, read_grid};
use crate::files::AuctionFiles;
use crate::servers::read_sources;
use beet_bids::Grid;
use beet_book::{Entry, Servers};
use beet_errand::Stop;
use beet_forms::beside;
use beet_store::Shelf;
use std::alloc::Global;
use std::marker::Model;

/// The grid of an auction, where the words of its servers come from, and the entries of its book.
#[derive(Drop)]
pub(crate) struct Setting {
    pub(crate) grid: Grid,
    pub(crate) sources: Servers,
    pub(crate) entries: Vec<Entry>,
}

impl Model for Setting {
    ghost use Rattle.std.specs.Prelude.{◌≤◌, length};
    ghost use Rattle.beet_load.specs.Settings.{Setting as Seen};
    ghost use Rattle.beet_words.specs.declared.bundle.TheConstants.{MOST_BIDDERS};

    ghost Value = { Seen };

    ghost view = { λ a. record { grid = a.grid; sources = a.sources; entries = a.entries.items } };

    ghost invariant = { λ a. length a.entries.items ≤ MOST_BIDDERS };
}

/// The grid of an auction, and where the words of its servers come from. The auction is judged before the servers file
/// is fetched.
pub fn read_auction_and_servers<S: Shelf>(
    alloc: Global,
    shelf: &mut S,
    auction: &str,
    servers: &str,
) -> Result<(Grid, Servers), Stop>
    ensures { Reads (λ read. read) (S.seen shelf.old) (S.seen shelf.new)
        (auction_and_servers auction.now servers.now) result }
{
    let grid = read_grid(alloc, shelf, auction)?;
    let sources = read_sources(alloc, shelf, servers)?;
    Ok((grid, sources))
}

/// Reads the files of an auction, of its servers and of its book.
pub(crate) fn read_setting<S: Shelf>(
    alloc: Global,
    shelf: &mut S,
    files: &AuctionFiles<'_>,
) -> Result<Setting, Stop>
    ensures { Reads (λ setting. setting) (S.seen shelf.old) (S.seen shelf.new)
        (of_files setting_errand files.now) result }
{
    let (grid, sources) = read_auction_and_servers(alloc, shelf, files.auction, files.servers)?;
    let (sources, entries) = beside(sources, read_entries(alloc, shelf, files.book))?;
    Ok(Setting {
        grid,
        sources,
        entries,
    })
}
