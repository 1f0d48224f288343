//! The lines of a bid.

ghost use Rattle.std.specs.Prelude.{◌≡◌, ◌<◌, ◌≤◌, ◌+◌, ◌^◌, length, min, Some, None, if◌then◌else◌, option_map, map};
ghost use Rattle.std.specs.Prelude.{filter_map, IfOk};
ghost use Rattle.beet_forms.specs.Faults.{Answers, first_fault, reading_of, row_reading};
ghost use Rattle.beet_forms.specs.Numbers.{decimal_value};
ghost use Rattle.beet_bids.specs.Curves.{IsOfGrid};
ghost use Rattle.beet_bids.specs.Lines.{AreLines, begin_at, cut_line};
ghost use Rattle.beet_bids.specs.BidFiles.{curve_in, first_reason, is_large, is_number, bid_line_of, line_reason};
ghost use Rattle.beet_bids.specs.BidFiles.{line_reasons, next_reason};

use crate::curve::{Curve, LARGEST_QUANTITY};
use crate::grid::Grid;
use beet_forms::{BAD_ROW, NumberFault, ReadFault, Row, RowReader, number, three_fields};
use std::alloc::{AllocError, Global};

/// The reason against a price that the grid has not.
pub const OFF_GRID: u32 = 3;

/// The reason against a price that is not above the one of the row before.
pub const NOT_ASCENDING: u32 = 4;

/// The reason against a quantity to buy above the one of the row before.
pub const BUY_RISES: u32 = 5;

/// The reason against a quantity to sell below the one of the row before.
pub const SELL_FALLS: u32 = 6;

/// The reason against a quantity above the largest.
pub const QUANTITY_TOO_LARGE: u32 = 7;

/// The reason against row 2 if it is missing or not at the base.
pub const NO_BASE: u32 = 8;

/// A line of a bid: from this price on, these quantities.
#[derive(Clone, Copy, Drop)]
pub(crate) struct Line {
    price: u64,
    buy: u64,
    sell: u64,
}

/// The number of a text, cut to one above the largest, or none if the text is no number.
fn cut_number(digits: &[u8], largest: u64) -> Option<u64>
    requires { largest + 1 < 2 ^ 64 }
    ensures { result ≡ (if is_number digits.now
        then Some (min (decimal_value digits.now) (largest + 1)) else None) }
{
    match number(digits, largest) {
        Ok(n) => Some(n),
        Err(NumberFault::TooLarge) => Some(largest + 1),
        Err(_) => None,
    }
}

/// The line of a row, with each number cut to one above the largest that it may be.
fn cut_line(grid: &Grid, row: &Row) -> Option<Line>
    ensures { result ≡ option_map (cut_line grid.now) (bid_line_of row.now) }
{
    let (price, buy, sell) = three_fields(row)?;
    let price = cut_number(price, grid.price(grid.prices() - 1))?;
    let buy = cut_number(buy, LARGEST_QUANTITY)?;
    let sell = cut_number(sell, LARGEST_QUANTITY)?;
    Some(Line { price, buy, sell })
}

/// Whether a quantity is above the largest.
fn is_large(line: Line) -> bool
    ensures { result ≡ is_large line }
{
    line.buy > LARGEST_QUANTITY || line.sell > LARGEST_QUANTITY
}

/// Why the first line is refused, if it is.
fn first_reason(grid: &Grid, line: Line) -> Option<u32>
    ensures { result ≡ first_reason grid.now line }
{
    if line.price != grid.base() {
        Some(NO_BASE)
    } else if is_large(line) {
        Some(QUANTITY_TOO_LARGE)
    } else {
        None
    }
}

/// Why a line is refused after the line before it, if it is.
fn next_reason(before: Line, line: Line) -> Option<u32>
    ensures { result ≡ next_reason before line }
{
    if line.price <= before.price {
        Some(NOT_ASCENDING)
    } else if is_large(line) {
        Some(QUANTITY_TOO_LARGE)
    } else if line.buy > before.buy {
        Some(BUY_RISES)
    } else if line.sell < before.sell {
        Some(SELL_FALLS)
    } else {
        None
    }
}

/// Why the line of this number, counted from 0, is refused, if it is. A bid often has a line for each price, so that
/// its place is expected to be its number.
fn line_reason(grid: &Grid, before: Option<Line>, i: usize, line: Line) -> Option<u32>
    ensures { result ≡ line_reason grid.now before (Some line) }
{
    if grid.place_expected(i, line.price).is_none() {
        return Some(OFF_GRID);
    }
    match before {
        None => first_reason(grid, line),
        Some(before) => next_reason(before, line),
    }
}

/// The line of this number, counted from 0, whose row has the number that is two more.
fn read_line(grid: &Grid, before: Option<Line>, i: usize, row: &Row) -> Result<Line, ReadFault>
    requires { i + 2 < 2 ^ 32 }
    ensures { let line = bid_line_of row.now in
        let reason = line_reason grid.now before line in
        Answers (λ read. Some read) (row_reading (i + 2) reason line) result }
{
    let number = i as u32 + 2;
    let Some(line) = cut_line(grid, row) else {
        return Err(ReadFault::at_row(number, BAD_ROW));
    };
    match line_reason(grid, before, i, line) {
        Some(reason) => Err(ReadFault::at_row(number, reason)),
        None => Ok(line),
    }
}

/// The lines of the rows that are left, which are those after the header.
pub(crate) fn read_lines(
    alloc: Global,
    grid: &Grid,
    rows: &mut RowReader,
    row: &mut Row,
) -> Result<Vec<Line>, ReadFault>
    requires { length rows.old + 2 < 2 ^ 32 }
    ensures reads { let fault = first_fault 2 (line_reasons grid.now (map bid_line_of rows.old)) in
        Answers (λ v. v.items) (reading_of fault (filter_map bid_line_of rows.old)) result }
    ensures lines { IfOk result (λ v. AreLines grid.now v.items) }
{
    let mut lines = Vec::with_capacity(alloc, grid.prices() as usize)?;
    let mut before = None;
    while rows.next(row)? {
        let line = read_line(grid, before, lines.len(), row)?;
        lines.push(line)?;
        before = Some(line);
    }
    if lines.is_empty() {
        return Err(ReadFault::at_row(2, NO_BASE));
    }
    Ok(lines)
}

/// The place where the line of this number begins, or the number of places after the last line. The place is quickly
/// told if it is as expected.
fn begin(grid: &Grid, lines: &[Line], i: usize, expected: usize) -> usize
    requires { AreLines grid.now lines.now }
    ensures { result ≡ begin_at grid.now lines.now i }
{
    match lines.get(i) {
        None => grid.prices() as usize,
        Some(line) => match grid.place_expected(expected, line.price) {
            Some(place) => place as usize,
            None => unreachable!(),
        },
    }
}

/// The curve of the lines: each holds up to the place where the next begins.
pub(crate) fn curve_of(alloc: Global, grid: &Grid, lines: &[Line]) -> Result<Curve, AllocError>
    requires { AreLines grid.now lines.now }
    ensures value { IfOk result (λ curve. curve ≡ curve_in grid.now lines.now) }
    ensures of_grid { IfOk result (λ curve. IsOfGrid grid.now curve) }
{
    let mut buy = Vec::with_capacity(alloc, grid.prices() as usize)?;
    let mut sell = Vec::with_capacity(alloc, grid.prices() as usize)?;
    for (i, line) in lines.iter().enumerate() {
        let end = begin(grid, lines, i + 1, buy.len() + 1);
        buy.resize(end, line.buy)?;
        sell.resize(end, line.sell)?;
    }
    Ok(Curve::known(buy, sell))
}
