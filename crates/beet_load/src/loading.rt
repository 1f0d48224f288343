//! Reading an auction, its servers and its book: what three servers begin with.

ghost use Rattle.std.specs.Prelude.{◌≡◌, ◌≤◌, length, option_map};
ghost use Rattle.beet_words.specs.declared.bundle.TheConstants.{MOST_BIDDERS};
ghost use Rattle.beet_errand.specs.Fetches.{ReadsFor};
ghost use Rattle.beet_load.specs.Files.{of_files};
ghost use Rattle.beet_load.specs.Loading.{IsKeptOf, loaded_errand, rest_errand};

use crate::collecting::add_farmers;
use crate::files::AuctionFiles;
use crate::servers::{AllWords, ServerWords, read_words};
use crate::setting::read_setting;
use crate::wanted::auction_wants;
use beet_bids::Grid;
use beet_book::{Entry, Servers};
use beet_errand::Stop;
use beet_field::Trio;
use beet_store::Shelf;
use beet_words::{FeList, WordList};
use std::alloc::Global;
use std::marker::Model;

/// An auction that is read: its grid, the tapes of its servers, and for each server the points of the sums of the book,
/// supply at each price and then demand at each price.
#[derive(Drop)]
pub struct Loaded {
    pub grid: Grid,
    pub servers: Trio<ServerWords>,
    pub inputs: Trio<FeList>,
}

impl Model for Loaded {
    ghost use Rattle.beet_load.specs.Counts.{counts_of};
    ghost use Rattle.beet_load.specs.Loading.{AuctionWithInputs};
    ghost use Rattle.beet_load.specs.Servers.{HaveEnough};

    ghost Value = { AuctionWithInputs };

    ghost view = { λ a. record { grid = a.grid; servers = a.servers; inputs = a.inputs } };

    ghost invariant = { λ a. HaveEnough (counts_of a.grid) a.servers };
}

/// The lists of the bidders, if a bundle has them.
pub fn lists_in(words: &AllWords) -> Option<&[WordList]>
    ensures { option_map (λ all. all.now) result ≡ words.now.bidders }
{
    match &words.bidders {
        Some(lists) => Some(lists.as_slice()),
        None => None,
    }
}

/// Reads what stands after the setting, of an auction alone or of a lot: the words of the servers, and the bidders,
/// whose points are added up.
pub fn load_rest<S: Shelf>(
    alloc: Global,
    shelf: &mut S,
    lot: Option<u32>,
    grid: &Grid,
    sources: &Servers,
    entries: &[Entry],
) -> Result<Loaded, Stop>
    requires { length entries.now ≤ MOST_BIDDERS }
    ensures { ReadsFor IsKeptOf (S.seen shelf.old) (S.seen shelf.new)
        (rest_errand lot (record { grid = grid.now; sources = sources.now; entries = entries.now })) result }
{
    let wanted = auction_wants(lot, grid);
    let words = read_words(alloc, shelf, &wanted, sources, Some(entries.len()))?;
    match add_farmers(alloc, shelf, lot, grid, lists_in(&words), entries) {
        Ok(totals) => Ok(Loaded {
            grid: *grid,
            servers: words.into_servers(),
            inputs: totals.inputs(),
        }),
        Err(stop) => {
            drop(words);
            Err(stop)
        }
    }
}

/// Reads an auction, its servers and its book.
pub fn load<S: Shelf>(
    alloc: Global,
    shelf: &mut S,
    files: &AuctionFiles<'_>,
) -> Result<Loaded, Stop>
    ensures { ReadsFor IsKeptOf (S.seen shelf.old) (S.seen shelf.new) (of_files loaded_errand files.now) result }
{
    let setting = read_setting(alloc, shelf, files)?;
    let loaded = load_rest(
        alloc,
        shelf,
        None,
        &setting.grid,
        &setting.sources,
        setting.entries.as_slice(),
    );
    drop(setting);
    loaded
}
