//! The words of the second sale.

ghost use Rattle.std.specs.Prelude.{◌≡◌, IfErr, IfOk};
ghost use Rattle.beet_sale_file.specs.Sales.{bids_of};
ghost use Rattle.beet_sale_map.specs.Bids.{Agree};
ghost use Rattle.beet_sale_map.specs.Disagreement.{RefusesMap};
ghost use Rattle.beet_sale_map.specs.Enough.{AreEnough, cut_words};
ghost use Rattle.beet_sale_map.specs.MappedSales.{Ends};
ghost use Rattle.beet_sale_map.specs.Worlds.{IsOnlyFirst, IsOnlySecond, Mapped};
ghost use Rattle.beet_highbid.specs.SaleViews.{sale_transcript, view_of_sale};

use beet_field::Point;
use beet_sale_file::Sale;
use beet_sale_map::{SaleFault, map_sale};
use beet_words::Words;
use std::alloc::Global;

/// The words with which the second sale looks to server `me` as the first does with these words: it sees the same
/// points, the same messages and the same opened numbers.
///
/// They are the only words that are mapped from these, and these are the only words from which they are mapped. The
/// sales must agree for the server: they are refused if a bidder stands in one of them alone or has another mark in the
/// other, then if a bidder that the server knows has another bid, and then if another bidder wins or the price is
/// another. Want of memory comes only if they agree.
pub fn sale_map(
    alloc: Global,
    me: Point,
    first: &Sale,
    second: &Sale,
    words: &Words,
) -> Result<Words, SaleFault>
    requires gates { second.now.gates ≡ first.now.gates }
    requires enough { AreEnough (bids_of first.now.rows) words.now }
    ensures agreed { IfOk result (λ _. Agree me (bids_of first.now.rows) (bids_of second.now.rows)) }
    ensures refused { IfErr result (RefusesMap me (bids_of first.now.rows) (bids_of second.now.rows)) }
    ensures mapped { IfOk result
        (Mapped me first.now.gates (bids_of first.now.rows) words.now (bids_of second.now.rows)) }
    ensures enough { IfOk result (AreEnough (bids_of second.now.rows)) }
    ensures ends { IfOk result (λ mapped. Ends first.now.gates (bids_of first.now.rows) words.now
        × Ends second.now.gates (bids_of second.now.rows) mapped) }
    ensures looks { IfOk result (λ mapped. view_of_sale second.now.gates (bids_of second.now.rows) mapped me
        ≡ view_of_sale first.now.gates (bids_of first.now.rows) words.now me) }
    ensures bytes { IfOk result (λ mapped. sale_transcript second.now.gates (bids_of second.now.rows) mapped me
        ≡ sale_transcript first.now.gates (bids_of first.now.rows) words.now me) }
    ensures only { IfOk result
        (IsOnlySecond me first.now.gates (bids_of first.now.rows) words.now (bids_of second.now.rows)) }
    ensures back { IfOk result
        (IsOnlyFirst me first.now.gates (bids_of first.now.rows) words.now (bids_of second.now.rows)) }
    ensures cut { cut_words (bids_of first.now.rows) words.now ≡ words.now
        → IfOk result (λ mapped. cut_words (bids_of second.now.rows) mapped ≡ mapped) }
{
    let mapped = map_sale(alloc, me, first.gates(), first.bids(), second.bids(), words)?;
    Ok(mapped)
}
