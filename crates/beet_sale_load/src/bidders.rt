//! Reading the words of the bidders of a sale.

ghost use Rattle.std.specs.Prelude.{◌≡◌, ◌≤◌, ◌+◌, [], All, IfOk, length, option_map};
ghost use Rattle.beet_errand.specs.Fetches.{Reads};
ghost use Rattle.beet_load.specs.Farmers.{bidder_errand};
ghost use Rattle.beet_load.specs.Wholes.{CanDeal};
ghost use Rattle.beet_sale_plan.specs.declared.TheConstants.{MOST_SALE_BIDDERS};
ghost use Rattle.beet_sale_load.specs.SaleLoading.{lists_errand};

use beet_errand::Stop;
use beet_load::{Wanted, list_of, read_bidder};
use beet_sale_file::SaleRow;
use beet_store::Shelf;
use beet_words::WordList;
use std::alloc::Global;

/// The words of the bidder of a row, which has this number: those that are given, or else those of its source.
fn read_row<S: Shelf>(
    alloc: Global,
    shelf: &mut S,
    wanted: &Wanted,
    given: Option<&WordList>,
    number: u32,
    row: &SaleRow,
) -> Result<WordList, Stop>
    ensures deals { IfOk result (CanDeal wanted.now.counts) }
    ensures reads { Reads (λ words. words) (S.seen shelf.old) (S.seen shelf.new)
        (bidder_errand wanted.now (option_map (λ words. words.now) given.entry) number row.now.source) result }
{
    let tape = read_bidder(alloc, shelf, wanted, given, number, &row.source)?;
    Ok(tape.into_words())
}

/// The words of the bidders of rows in order, with the lists that are given or those of their sources.
pub(crate) fn read_lists<S: Shelf>(
    alloc: Global,
    shelf: &mut S,
    wanted: &Wanted,
    lists: Option<&[WordList]>,
    rows: &[SaleRow],
) -> Result<Vec<WordList>, Stop>
    requires few { length rows.now ≤ MOST_SALE_BIDDERS }
    ensures count { IfOk result (λ read. length read.items ≡ length rows.now) }
    ensures deal { IfOk result (λ read. All (CanDeal wanted.now.counts) read.items) }
    ensures reads { Reads (λ read. read.items) (S.seen shelf.old) (S.seen shelf.new)
        (lists_errand wanted.now (option_map (λ all. all.now) lists.entry) [] rows.now) result }
{
    let mut read = Vec::new(alloc);
    for (i, row) in rows.iter().enumerate() {
        read.reserve(1)?;
        let words = read_row(alloc, shelf, wanted, list_of(lists, i), i as u32 + 1, row)?;
        read.push_reserved(words);
    }
    Ok(read)
}
