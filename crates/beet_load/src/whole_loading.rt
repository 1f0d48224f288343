//! Reading an auction, its servers and its book, and keeping the whole book.

ghost use Rattle.std.specs.Prelude.{◌≡◌, ◌≤◌, ◌*◌, All, length};
ghost use Rattle.beet_errand.specs.Fetches.{Reads};
ghost use Rattle.beet_load.specs.Counts.{counts_of};
ghost use Rattle.beet_load.specs.Files.{of_files};
ghost use Rattle.beet_load.specs.Loading.{rest_errand};
ghost use Rattle.beet_load.specs.Servers.{AreCut, HaveEnough};
ghost use Rattle.beet_load.specs.Wholes.{IsFarmer, all_words, limited_errand};
ghost use Rattle.beet_load.specs.WholeViews.{loaded_of};
ghost use Rattle.beet_words.specs.declared.bundle.TheConstants.{MOST_BIDDERS};
ghost use Rattle.beet_book.specs.declared.book_file.TheConstants.{MOST_PRODUCT};

use crate::files::AuctionFiles;
use crate::keeping::{Farmers, read_farmers};
use crate::limits::check_product;
use crate::loading::lists_in;
use crate::servers::{ServerWords, read_words};
use crate::setting::read_setting;
use crate::wanted::auction_wants;
use crate::whole::Whole;
use beet_bids::{Book, Grid};
use beet_book::{Entry, Servers};
use beet_errand::Stop;
use beet_field::Trio;
use beet_forms::beside;
use beet_store::Shelf;
use beet_words::{WordList, Words};
use std::alloc::Global;

/// The first and the second of each pair.
fn unzip<A, B>(pairs: Trio<(A, B)>) -> (Trio<A>, Trio<B>)
    ensures firsts { result.0 ≡ record { one = pairs.one.0; two = pairs.two.0; three = pairs.three.0 } }
    ensures seconds { result.1 ≡ record { one = pairs.one.1; two = pairs.two.1; three = pairs.three.1 } }
{
    let Trio { one, two, three } = pairs;
    let firsts = Trio {
        one: one.0,
        two: two.0,
        three: three.0,
    };
    let seconds = Trio {
        one: one.1,
        two: two.1,
        three: three.1,
    };
    (firsts, seconds)
}

/// The words of the servers and of the bidders, in lists.
pub fn words_with(servers: Trio<ServerWords>, bidders: Vec<WordList>) -> Words
    ensures { result ≡ all_words servers bidders.items }
{
    let (masks, coefficients) = unzip(servers.map(|_, words| words.into_lists()));
    Words {
        masks,
        coefficients,
        bidders,
    }
}

/// The whole of an auction over the grid, of which the servers and the bidders are read.
fn whole_of(grid: &Grid, servers: Trio<ServerWords>, farmers: Farmers) -> Whole
    requires enough { HaveEnough (counts_of grid.now) servers }
    requires cut { AreCut (counts_of grid.now) servers }
    requires few { length farmers ≤ MOST_BIDDERS }
    requires within { length farmers * grid.now.prices ≤ MOST_PRODUCT }
    requires each { All (IsFarmer (counts_of grid.now) grid.now) farmers }
    ensures { loaded_of result ≡ record { grid = grid.now; servers = servers; farmers = farmers } }
{
    let (bidders, lists) = farmers.into_parts();
    let words = words_with(servers, lists);
    match Book::new(*grid, bidders) {
        Some(book) => Whole { book, words },
        None => unreachable!(),
    }
}

/// Reads what stands after the setting, of an auction alone or of a lot: the words of the servers, and the bidders,
/// which are kept.
pub fn load_whole_rest<S: Shelf>(
    alloc: Global,
    shelf: &mut S,
    lot: Option<u32>,
    grid: &Grid,
    sources: &Servers,
    entries: &[Entry],
) -> Result<Whole, Stop>
    requires few { length entries.now ≤ MOST_BIDDERS }
    requires within { length entries.now * grid.now.prices ≤ MOST_PRODUCT }
    ensures { Reads loaded_of (S.seen shelf.old) (S.seen shelf.new)
        (rest_errand lot (record { grid = grid.now; sources = sources.now; entries = entries.now })) result }
{
    let wanted = auction_wants(lot, grid);
    let words = read_words(alloc, shelf, &wanted, sources, Some(entries.len()))?;
    let farmers = read_farmers(alloc, shelf, &wanted, grid, lists_in(&words), entries);
    let (words, farmers) = beside(words, farmers)?;
    Ok(whole_of(grid, words.into_servers(), farmers))
}

/// Reads an auction, its servers and its book, which is kept whole. Right after it was read, the book is refused at row
/// 0 for the reason 6 if its bidders, each counted once for each price, are more than 500,000.
pub fn load_whole<S: Shelf>(
    alloc: Global,
    shelf: &mut S,
    files: &AuctionFiles<'_>,
) -> Result<Whole, Stop>
    ensures { Reads loaded_of (S.seen shelf.old) (S.seen shelf.new) (of_files limited_errand files.now) result }
{
    let setting = read_setting(alloc, shelf, files)?;
    let entries = setting.entries.as_slice();
    check_product(alloc, 0, files.book, &setting.grid, entries.len())?;
    let whole = load_whole_rest(alloc, shelf, None, &setting.grid, &setting.sources, entries);
    drop(setting);
    whole
}
