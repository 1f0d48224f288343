//! The bidders of a sale, and the rows that tell of them.

ghost use Rattle.std.specs.Prelude.{◌≡◌, IfOk, Some};
ghost use Rattle.beet_forms.specs.Faults.{Answers};
ghost use Rattle.beet_book.specs.NamedRows.{first_field, reading_at};
ghost use Rattle.beet_sale_file.specs.SaleRows.{bid_in, row_in, row_of};

use beet_book::{BidderSource, NamedRow, read_known, read_source};
use beet_field::Point;
use beet_forms::{BAD_ROW, Name, ReadFault, Row, beside, five_fields, number};
use beet_sale_plan::LARGEST_BID;
use std::alloc::Global;

/// The reason against a source that is neither `seed` with a seed nor `tape` with a name.
pub const BAD_SALE_SOURCE: u32 = 6;

/// What a bidder of a sale bids, and the one server that knows the bid and the bidder's words, if there is one.
#[derive(Clone, Copy, Debug, PartialEq, Eq)]
pub struct SaleBid {
    pub known: Option<Point>,
    pub bid: u64,
}

/// One bidder of a sale.
#[derive(Debug, Drop)]
pub struct SaleRow {
    /// What the bidder is called. No two bidders of a sale have one name.
    pub name: Name,
    pub bid: SaleBid,
    /// Where the bidder's words come from.
    pub source: BidderSource,
}

/// The bid that a text writes, or none if it is no number within its limit.
fn read_bid(text: &[u8]) -> Option<u64>
    ensures { result ≡ bid_in text.now }
{
    number(text, LARGEST_BID).ok()
}

/// The bidder of the parts of a row, or the reason against them.
fn row_of(
    name: Option<Name>,
    known: Option<Option<Point>>,
    bid: Option<u64>,
    source: Option<BidderSource>,
) -> Result<SaleRow, u32>
    ensures row { result ≡ row_of name known bid source }
    ensures name { IfOk result (λ row. name ≡ Some row.name) }
{
    let parts = name.zip(known).zip(bid).ok_or(BAD_ROW);
    let (source, ((name, known), bid)) = beside(source, parts)?;
    let (name, source) = beside(name, source.ok_or(BAD_SALE_SOURCE))?;
    Ok(SaleRow {
        name,
        bid: SaleBid { known, bid },
        source,
    })
}

/// The bidder of a row.
fn read_row(alloc: Global, number: u32, row: &Row) -> Result<SaleRow, ReadFault>
    ensures row { Answers (λ row. row) (reading_at number (row_in row.now)) result }
    ensures name { IfOk result (λ found. found.name ≡ first_field row.now) }
{
    let Some((name, known, bid, kind, text)) = five_fields(row) else {
        return Err(ReadFault::at_row(number, BAD_ROW));
    };
    let name = Name::of(alloc, name)?;
    let (name, source) = beside(name, read_source(alloc, kind, text))?;
    match row_of(name, read_known(known), read_bid(bid), source) {
        Ok(found) => Ok(found),
        Err(reason) => Err(ReadFault::at_row(number, reason)),
    }
}

impl NamedRow for SaleRow {
    ghost use Rattle.beet_sale_file.specs.SaleRows.{row_in};

    ghost value_in = { row_in };

    ghost name_in = { λ row. row.name };

    fn read(alloc: Global, number: u32, row: &Row) -> Result<SaleRow, ReadFault> {
        read_row(alloc, number, row)
    }

    fn name(&self) -> &Name {
        &self.name
    }
}
