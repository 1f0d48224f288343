//! Adding up the points of all bidders.

ghost use Rattle.std.specs.Prelude.{◌≡◌, ◌≤◌, [], length, option_map};
ghost use Rattle.beet_load.specs.Collecting.{AreCollected};
ghost use Rattle.beet_load.specs.Farmers.{farmers_errand, list_at};
ghost use Rattle.beet_load.specs.Wanted.{wanted_of};
ghost use Rattle.beet_errand.specs.Fetches.{ReadsFor};
ghost use Rattle.beet_words.specs.declared.bundle.TheConstants.{MOST_BIDDERS};

use crate::farmers::read_farmer;
use crate::wanted::auction_wants;
use beet_bids::Grid;
use beet_book::{Entry, Totals};
use beet_errand::Stop;
use beet_store::Shelf;
use beet_words::WordList;
use std::alloc::Global;

/// The list at a place, if lists are given.
pub fn list_of<'a>(lists: Option<&'a [WordList]>, i: usize) -> Option<&'a WordList>
    ensures { option_map (λ words. words.now) result ≡ list_at (option_map (λ all. all.now) lists.entry) i }
{
    match lists {
        Some(all) => all.get(i),
        None => None,
    }
}

/// Reads each bidder of an auction alone or of a lot in order, with the words that are given or those of its source,
/// and deals its quantities straight into the sums.
pub fn add_farmers<S: Shelf>(
    alloc: Global,
    shelf: &mut S,
    lot: Option<u32>,
    grid: &Grid,
    lists: Option<&[WordList]>,
    entries: &[Entry],
) -> Result<Totals, Stop>
    requires few { length entries.now ≤ MOST_BIDDERS }
    ensures { ReadsFor (AreCollected grid.now entries.now) (S.seen shelf.old) (S.seen shelf.new)
        (farmers_errand (wanted_of lot grid.now) grid.now (option_map (λ all. all.now) lists.entry) [] entries.now)
        result }
{
    let wanted = auction_wants(lot, grid);
    let mut totals = Totals::new(alloc, grid)?;
    for (i, entry) in entries.iter().enumerate() {
        let given = list_of(lists, i);
        let mut farmer = read_farmer(alloc, shelf, &wanted, grid, given, i as u32 + 1, entry)?;
        totals.deal(&farmer.curve, &mut farmer.tape);
    }
    Ok(totals)
}
