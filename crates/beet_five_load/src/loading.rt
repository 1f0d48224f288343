//! Reading an auction among five servers: what five servers begin with.

ghost use Rattle.std.specs.Prelude.{◌≤◌, [], None, length};
ghost use Rattle.beet_errand.specs.Fetches.{ReadsFor};
ghost use Rattle.beet_load.specs.Files.{of_files};
ghost use Rattle.beet_load.specs.Farmers.{farmers_errand};
ghost use Rattle.beet_words.specs.declared.bundle.TheConstants.{MOST_BIDDERS};
ghost use Rattle.beet_five_load.specs.FiveDealing.{AreDealt};
ghost use Rattle.beet_five_load.specs.FiveLoading.{IsFiveKeptOf, five_loaded_errand, five_rest_errand};
ghost use Rattle.beet_five_load.specs.FiveWants.{wanted_of_five};

use crate::servers::read_servers;
use crate::setting::{FiveSetting, read_five_setting};
use crate::wanted::five_wants;
use beet_bids::Grid;
use beet_book::Entry;
use beet_errand::Stop;
use beet_five_dealing::FiveTotals;
use beet_forms::beside;
use beet_load::{AuctionFiles, read_farmer};
use beet_search::FiveScript;
use beet_store::Shelf;
use beet_words::{FeList, WordList};
use std::alloc::Global;
use std::marker::Model;

/// An auction among five servers that is read: its grid, whose gates are chains, and its script; for each server in
/// order its mask words and its words for numbers, as many as the script may ask for; and for each server the points of
/// the sums of the book, supply at each price and then demand at each price.
#[derive(Drop)]
pub struct FiveLoaded {
    pub grid: Grid,
    pub script: FiveScript,
    pub masks: Vec<WordList>,
    pub coefficients: Vec<WordList>,
    pub inputs: Vec<FeList>,
}

impl Model for FiveLoaded {
    ghost use Rattle.std.specs.Prelude.{◌≡◌};
    ghost use Rattle.beet_plan.specs.FivePlan.{five_over};
    ghost use Rattle.beet_five_load.specs.FiveLoading.{FiveWithInputs};

    ghost Value = { FiveWithInputs };

    ghost view = { λ a. record {
      grid = a.grid;
      masks = a.masks.items;
      coefficients = a.coefficients.items;
      inputs = a.inputs.items;
    } };

    ghost invariant = { λ a. a.script ≡ five_over a.grid };
}

/// Reads each bidder in order, and deals its quantities straight into the sums. One bidder is kept at a time.
fn deal_farmers<S: Shelf>(
    alloc: Global,
    shelf: &mut S,
    grid: &Grid,
    entries: &[Entry],
) -> Result<FiveTotals, Stop>
    requires few { length entries.now ≤ MOST_BIDDERS }
    ensures { ReadsFor (AreDealt grid.now entries.now) (S.seen shelf.old) (S.seen shelf.new)
        (farmers_errand (wanted_of_five grid.now) grid.now None [] entries.now) result }
{
    let wanted = five_wants(grid);
    let mut totals = FiveTotals::new(alloc, grid)?;
    for (i, entry) in entries.iter().enumerate() {
        let farmer = read_farmer(alloc, shelf, &wanted, grid, None, i as u32 + 1, entry)?;
        totals.deal(&farmer.curve, farmer.tape.words());
    }
    Ok(totals)
}

/// Reads what stands after the setting: the words of the servers, and the bidders, whose points are added up.
fn load_rest<S: Shelf>(
    alloc: Global,
    shelf: &mut S,
    setting: &FiveSetting,
) -> Result<FiveLoaded, Stop>
    ensures { ReadsFor IsFiveKeptOf (S.seen shelf.old) (S.seen shelf.new) (five_rest_errand setting.now) result }
{
    let grid = setting.grid;
    let servers = read_servers(alloc, shelf, setting)?;
    let totals = deal_farmers(alloc, shelf, &grid, setting.entries.as_slice());
    let (servers, totals) = beside(servers, totals)?;
    let (servers, inputs) = beside(servers, totals.inputs(alloc))?;
    Ok(FiveLoaded {
        grid,
        script: setting.script,
        masks: servers.masks,
        coefficients: servers.coefficients,
        inputs,
    })
}

/// Reads an auction among five servers, the seeds of its servers, and its book. Each file is judged before the next is
/// fetched. In an auction in which nothing else is wrong, gates that are trees are refused at row 5 for the reason 7. A
/// server or a bidder whose words are too few is refused with its line.
pub fn load_five<S: Shelf>(
    alloc: Global,
    shelf: &mut S,
    files: &AuctionFiles<'_>,
) -> Result<FiveLoaded, Stop>
    ensures { ReadsFor IsFiveKeptOf (S.seen shelf.old) (S.seen shelf.new)
        (of_files five_loaded_errand files.now) result }
{
    let setting = read_five_setting(alloc, shelf, files)?;
    let loaded = load_rest(alloc, shelf, &setting);
    drop(setting);
    loaded
}
