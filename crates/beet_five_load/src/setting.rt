//! Reading the files of an auction among five servers, of its servers and of its book.

ghost use Rattle.std.specs.Prelude.{◌≡◌, IfOk, MatchResult, Ok, Err};
ghost use Rattle.beet_gates.specs.declared.Gates.TheVariants.{Chain};
ghost use Rattle.beet_errand.specs.Errands.{reads};
ghost use Rattle.beet_errand.specs.Fetches.{Reads, Tests};
ghost use Rattle.beet_book.specs.declared.server_file.TheConstants.{SERVERS_LIMIT};
ghost use Rattle.beet_plan.specs.FivePlan.{five_over};
ghost use Rattle.beet_load.specs.Files.{of_files};
ghost use Rattle.beet_five_load.specs.FiveServerFiles.{five_seeds_of};
ghost use Rattle.beet_five_load.specs.FiveSettings.{five_setting_errand, with_chains};

use crate::server_file::{Seeds, read_five_seeds};
use beet_bids::Grid;
use beet_book::{Entry, SERVERS_LIMIT};
use beet_errand::{Stop, fetch_file, judge, refuse};
use beet_forms::FaultPlace;
use beet_load::{AuctionFiles, read_entries, read_grid};
use beet_search::FiveScript;
use beet_store::Shelf;
use std::alloc::Global;
use std::marker::Model;

/// The row of the kind of gates in an auction file.
pub const GATES_ROW: u32 = 5;

/// The reason against gates that are trees, if five servers are to run the auction.
pub const TREE_GATES: u32 = 7;

/// The grid of an auction, its script, the seeds of its servers, and the entries of its book.
#[derive(Drop)]
pub(crate) struct FiveSetting {
    pub(crate) grid: Grid,
    pub(crate) script: FiveScript,
    pub(crate) seeds: Seeds,
    pub(crate) entries: Vec<Entry>,
}

impl Model for FiveSetting {
    ghost use Rattle.std.specs.Prelude.{◌≡◌, ◌≤◌, length};
    ghost use Rattle.beet_gates.specs.declared.Gates.TheVariants.{Chain};
    ghost use Rattle.beet_plan.specs.FivePlan.{five_over};
    ghost use Rattle.beet_five_load.specs.FiveSettings.{FiveSetting as Seen};
    ghost use Rattle.beet_words.specs.declared.bundle.TheConstants.{MOST_BIDDERS};

    ghost Value = { Seen };

    ghost view = { λ a. record { grid = a.grid; seeds = a.seeds; entries = a.entries.items } };

    ghost invariant = { λ a. (length a.entries.items ≤ MOST_BIDDERS) × (length a.seeds ≡ 5)
        × (a.grid.gates ≡ Chain) × (a.script ≡ five_over a.grid) };
}

/// The seeds of a servers file of five servers.
fn read_seeds<S: Shelf>(alloc: Global, shelf: &mut S, name: &str) -> Result<Seeds, Stop>
    ensures { Reads (λ seeds. seeds) (S.seen shelf.old) (S.seen shelf.new)
        (reads name.now SERVERS_LIMIT five_seeds_of) result }
{
    let bytes = fetch_file(alloc, shelf, name, SERVERS_LIMIT)?;
    judge(alloc, name, read_five_seeds(alloc, bytes.as_slice()))
}

/// The script of an auction, or its refusal if its gates are trees.
fn script_over(alloc: Global, auction: &str, grid: &Grid) -> Result<FiveScript, Stop>
    ensures script { IfOk result (λ script. script ≡ five_over grid.now) }
    ensures chains { IfOk result (λ script. grid.now.gates ≡ Chain) }
    ensures tests { let test = with_chains auction.now grid.now.gates in
        MatchResult result (λ script. Tests test (Ok tt)) (λ stop. Tests test (Err stop)) }
{
    match FiveScript::new(grid) {
        Some(script) => Ok(script),
        None => Err(refuse(alloc, auction, FaultPlace::Row(GATES_ROW), TREE_GATES)),
    }
}

/// Reads the files of an auction among five servers, of its servers and of its book. Once the auction is read, gates
/// that are trees are refused at row 5 for the reason 7.
pub(crate) fn read_five_setting<S: Shelf>(
    alloc: Global,
    shelf: &mut S,
    files: &AuctionFiles<'_>,
) -> Result<FiveSetting, Stop>
    ensures { Reads (λ setting. setting) (S.seen shelf.old) (S.seen shelf.new)
        (of_files five_setting_errand files.now) result }
{
    let grid = read_grid(alloc, shelf, files.auction)?;
    let script = script_over(alloc, files.auction, &grid)?;
    let seeds = read_seeds(alloc, shelf, files.servers)?;
    let entries = read_entries(alloc, shelf, files.book)?;
    Ok(FiveSetting {
        grid,
        script,
        seeds,
        entries,
    })
}
