//! The list file.

ghost use Rattle.std.specs.Prelude.{◌≤◌, IfOk, length};
ghost use Rattle.beet_farmer.specs.Lists.{list_of};
ghost use Rattle.beet_errand.specs.Errands.{reads};
ghost use Rattle.beet_errand.specs.Fetches.{Reads};
ghost use Rattle.beet_gathering.specs.Gather.{listed_errand};
ghost use Rattle.beet_farmer.specs.declared.list_file.TheConstants.{LIST_LIMIT};
ghost use Rattle.beet_words.specs.declared.bundle.TheConstants.{MOST_BIDDERS};

use crate::files::ListFiles;
use beet_bids::Grid;
use beet_book::Servers;
use beet_errand::{Stop, fetch_file, judge};
use beet_farmer::{LIST_LIMIT, ListEntry, read_list};
use beet_forms::beside;
use beet_load::read_auction_and_servers;
use beet_store::Shelf;
use std::alloc::Global;

/// The bidders of a list file.
fn read_entries<S: Shelf>(alloc: Global, shelf: &mut S, name: &str) -> Result<Vec<ListEntry>, Stop>
    ensures few { IfOk result (λ entries. length entries.items ≤ MOST_BIDDERS) }
    ensures reads { Reads (λ entries. entries.items) (S.seen shelf.old) (S.seen shelf.new)
        (reads name.now LIST_LIMIT list_of) result }
{
    let bytes = fetch_file(alloc, shelf, name, LIST_LIMIT)?;
    judge(alloc, name, read_list(alloc, bytes.as_slice()))
}

/// The grid of an auction, where the words of its servers come from, and the bidders of its list. Each file is judged
/// before the next is fetched.
pub fn read_listed<S: Shelf>(
    alloc: Global,
    shelf: &mut S,
    files: &ListFiles<'_>,
) -> Result<(Grid, Servers, Vec<ListEntry>), Stop>
    ensures few { IfOk result (λ read. length read.2.items ≤ MOST_BIDDERS) }
    ensures reads { Reads (λ read. (read.0, read.1, read.2.items)) (S.seen shelf.old) (S.seen shelf.new)
        (listed_errand files.now.auction.now files.now.servers.now files.now.list.now) result }
{
    let (grid, sources) = read_auction_and_servers(alloc, shelf, files.auction, files.servers)?;
    let (sources, entries) = beside(sources, read_entries(alloc, shelf, files.list))?;
    Ok((grid, sources, entries))
}
