//! The reader of a bid file.

ghost use Rattle.std.specs.Prelude.{◌≤◌, IfOk, length};
ghost use Rattle.beet_forms.specs.Faults.{Answers};
ghost use Rattle.beet_bids.specs.Curves.{IsOfGrid};
ghost use Rattle.beet_bids.specs.BidFiles.{bid_in, bid_of};

use crate::curve::Curve;
use crate::grid::Grid;
use crate::lines::{curve_of, read_lines};
use beet_forms::{BAD_HEADER, LONGEST_FILE, ReadFault, Row, RowReader};
use std::alloc::Global;

/// The most bytes of a bid file.
pub const BID_LIMIT: u64 = 1_048_576;

/// The curve of all rows.
fn read_curve(
    alloc: Global,
    grid: &Grid,
    rows: &mut RowReader,
    row: &mut Row,
) -> Result<Curve, ReadFault>
    requires { length rows.old ≤ LONGEST_FILE }
    ensures reads { Answers (λ curve. curve) (bid_in grid.now rows.old) result }
    ensures of_grid { IfOk result (λ curve. IsOfGrid grid.now curve) }
{
    if !rows.begins_with(row, b"beet-bid", b"1")? {
        return Err(ReadFault::at_row(1, BAD_HEADER));
    }
    let lines = read_lines(alloc, grid, rows, row)?;
    Ok(curve_of(alloc, grid, &lines)?)
}

/// The curve of a bid file: the row `beet-bid,1`, and rows `PRICE,BUY,SELL` from the base on, in rising order. Between
/// two rows the quantities of the earlier one hold. The first row that breaks this is named. Its reason is
/// [`BAD_HEADER`] for row 1, and for a further row the first that stands against it of [`BAD_ROW`], [`OFF_GRID`],
/// [`NO_BASE`], [`NOT_ASCENDING`], [`QUANTITY_TOO_LARGE`], [`BUY_RISES`] and [`SELL_FALLS`].
pub fn read_bid(alloc: Global, grid: &Grid, bytes: &[u8]) -> Result<Curve, ReadFault>
    requires { length bytes.now ≤ LONGEST_FILE }
    ensures reads { Answers (λ curve. curve) (bid_of grid.now bytes.now) result }
    ensures of_grid { IfOk result (λ curve. IsOfGrid grid.now curve) }
{
    let mut rows = RowReader::new(alloc, bytes);
    let mut row = Row::new(alloc);
    read_curve(alloc, grid, &mut rows, &mut row)
}
