//! Reading an auction among five servers, and keeping its whole book.

ghost use Rattle.std.specs.Prelude.{◌≡◌, ◌≤◌, ◌*◌, All, length};
ghost use Rattle.beet_errand.specs.Fetches.{Reads};
ghost use Rattle.beet_words.specs.Words.{IsWord};
ghost use Rattle.beet_words.specs.declared.bundle.TheConstants.{MOST_BIDDERS};
ghost use Rattle.beet_gates.specs.declared.Gates.TheVariants.{Chain};
ghost use Rattle.beet_book.specs.declared.book_file.TheConstants.{MOST_PRODUCT};
ghost use Rattle.beet_load.specs.Files.{of_files};
ghost use Rattle.beet_load.specs.Wholes.{IsFarmer};
ghost use Rattle.beet_five_load.specs.FiveLoading.{five_limited_errand, five_rest_errand, read_with};
ghost use Rattle.beet_five_load.specs.FiveServers.{CanServeAll};
ghost use Rattle.beet_five_load.specs.FiveWants.{counts_of_five};
ghost use Rattle.beet_five_load.specs.FiveWholes.{read_of};

use crate::servers::{ServerLists, read_servers};
use crate::setting::{FiveSetting, read_five_setting};
use crate::wanted::five_wants;
use crate::whole::FiveWhole;
use beet_bids::{Book, Grid};
use beet_errand::Stop;
use beet_five_dealing::FiveWords;
use beet_forms::beside;
use beet_load::{AuctionFiles, Farmers, check_product, read_farmers};
use beet_store::Shelf;
use beet_words::WordList;
use std::alloc::Global;

/// Tells the proof that the numbers of these lists are below 2^61.
fn tell_words(lists: &[WordList])
    ensures { All (All IsWord) lists.now }
{
    for list in lists {
        let _below = list.as_slice();
    }
}

/// The whole of an auction over the grid, of which the servers and the bidders are read.
fn whole_of(grid: &Grid, servers: ServerLists, farmers: Farmers) -> FiveWhole
    requires chains { grid.now.gates ≡ Chain }
    requires serves { CanServeAll grid.now servers }
    requires few { length farmers ≤ MOST_BIDDERS }
    requires within { length farmers * grid.now.prices ≤ MOST_PRODUCT }
    requires each { All (IsFarmer (counts_of_five grid.now) grid.now) farmers }
    ensures { read_of result ≡ read_with grid.now servers farmers }
{
    let (bidders, lists) = farmers.into_parts();
    tell_words(lists.as_slice());
    let words = FiveWords {
        masks: servers.masks,
        coefficients: servers.coefficients,
        bidders: lists,
    };
    match Book::new(*grid, bidders) {
        Some(book) => FiveWhole { book, words },
        None => unreachable!(),
    }
}

/// Reads what stands after the setting: the words of the servers, and the bidders, which are kept.
fn load_whole_rest<S: Shelf>(
    alloc: Global,
    shelf: &mut S,
    setting: &FiveSetting,
) -> Result<FiveWhole, Stop>
    requires within { length setting.now.entries * setting.now.grid.prices ≤ MOST_PRODUCT }
    ensures { Reads read_of (S.seen shelf.old) (S.seen shelf.new) (five_rest_errand setting.now) result }
{
    let servers = read_servers(alloc, shelf, setting)?;
    let grid = &setting.grid;
    let wanted = five_wants(grid);
    let entries = setting.entries.as_slice();
    let farmers = read_farmers(alloc, shelf, &wanted, grid, None, entries);
    let (servers, farmers) = beside(servers, farmers)?;
    Ok(whole_of(grid, servers, farmers))
}

/// Reads an auction among five servers, the seeds of its servers, and its book, which is kept whole, as `load_five`
/// does. Right after it was read, the book is refused at row 0 for the reason 6 if its bidders, each counted once for
/// each price, are more than 500,000.
pub fn load_five_whole<S: Shelf>(
    alloc: Global,
    shelf: &mut S,
    files: &AuctionFiles<'_>,
) -> Result<FiveWhole, Stop>
    ensures { Reads read_of (S.seen shelf.old) (S.seen shelf.new) (of_files five_limited_errand files.now) result }
{
    let setting = read_five_setting(alloc, shelf, files)?;
    let entries = setting.entries.as_slice();
    check_product(alloc, 0, files.book, &setting.grid, entries.len())?;
    let whole = load_whole_rest(alloc, shelf, &setting);
    drop(setting);
    whole
}
