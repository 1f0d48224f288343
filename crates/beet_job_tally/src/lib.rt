//! The job `tally`: at an auction of one price, the sums of what the bidders of a book supply and demand, opened from
//! the points that they deal.
#![tactic(auto)]

ghost use Rattle.std.specs.Prelude.{◌≡◌, ◌<◌, IfOk};
ghost use Rattle.beet_book.specs.Dealing.{HasLengths};
ghost use Rattle.beet_book.specs.Totals.{points_on};
ghost use Rattle.beet_shamir.specs.Line.{recombined};
ghost use Rattle.beet_errand.specs.Fetches.{Reads, Tests};
ghost use Rattle.beet_job_tally.specs.Tally.{one_price, sums_text, tally_job};

use beet_bids::{Grid, NOT_ONE_PRICE, PRICES_ROW};
use beet_errand::{Reply, Status, Stop, refuse};
use beet_field::{Fe, Trio};
use beet_forms::FaultPlace;
use beet_load::{add_farmers, read_entries, read_grid};
use beet_shamir::recombine;
use beet_store::Shelf;
use beet_words::FeList;
use std::alloc::{AllocError, Global};

/// Refuses an auction of another number of prices than one.
fn check_one_price(alloc: Global, auction: &str, grid: &Grid) -> Result<(), Stop>
    ensures tests { Tests (one_price auction.now grid.now) result }
    ensures one { IfOk result (λ done. grid.now.prices ≡ 1) }
{
    if grid.prices() != 1 {
        return Err(refuse(alloc, auction, FaultPlace::Row(PRICES_ROW), NOT_ONE_PRICE));
    }
    Ok(())
}

/// Opens the number of one of two wires.
fn open(wires: &Trio<FeList>, wire: usize) -> Fe
    requires lengths { HasLengths wires.now 2 }
    requires below { wire < 2 }
    ensures { result ≡ recombined (points_on wires.now wire) }
{
    recombine(Trio {
        one: wires.one.as_slice()[wire],
        two: wires.two.as_slice()[wire],
        three: wires.three.as_slice()[wire],
    })
}

/// The two lines with the sums.
fn sums_lines(alloc: Global, supply: u64, demand: u64) -> Result<Vec<u8>, AllocError>
    ensures { IfOk result (λ text. text.items ≡ sums_text supply demand) }
{
    Ok(format!(in alloc; "supply {supply}\ndemand {demand}\n")?.into_bytes())
}

/// The sums of supply and demand at the one price, opened from the points of all bidders: `tally AUCTION BOOK`, with
/// names of files.
pub fn tally<S: Shelf>(
    alloc: Global,
    shelf: &mut S,
    auction: &str,
    book: &str,
) -> Result<Reply, Stop>
    ensures done { IfOk result (λ reply. reply.status ≡ Status.Done) }
    ensures reads { Reads (λ reply. reply) (S.seen shelf.old) (S.seen shelf.new)
        (tally_job auction.now book.now) result }
{
    let grid = read_grid(alloc, shelf, auction)?;
    check_one_price(alloc, auction, &grid)?;
    let entries = read_entries(alloc, shelf, book)?;
    let inputs = add_farmers(alloc, shelf, None, &grid, None, entries.as_slice())?.inputs();
    let supply = open(&inputs, 0).value();
    let demand = open(&inputs, 1).value();
    let text = sums_lines(alloc, supply, demand)?;
    Ok(Reply::of_text(alloc, Status::Done, text))
}
