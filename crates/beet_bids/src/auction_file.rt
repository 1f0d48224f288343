//! The reader of an auction file.

ghost use Rattle.std.specs.Prelude.{◌≡◌, ◌≤◌, ◌∷◌, IfOk, OnOk, length, option_map, slice_get, codes};
ghost use Rattle.beet_forms.specs.Faults.{Answers, first_fault, reading_of, row_reading};
ghost use Rattle.beet_forms.specs.Rows.{two_of};
ghost use Rattle.beet_bids.specs.AuctionFiles.{auction_in, auction_of, gates_named, last_reasons, name_reason};
ghost use Rattle.beet_bids.specs.AuctionFiles.{named_in, number_in, number_reason, policy_in, policy_named};
ghost use Rattle.beet_bids.specs.AuctionFiles.{tells_policy, value_in, value_of, version_reason};

use crate::grid::{Grid, LARGEST_BASE, LARGEST_TICK, MOST_PRICES};
use crate::outcomes::Policy;
use beet_forms::{BAD_HEADER, LONGEST_FILE, ReadFault, Row, RowReader, two_fields};
use beet_gates::Gates;
use std::alloc::Global;

/// The most bytes of an auction file.
pub const AUCTION_LIMIT: u64 = 4_096;

/// The row of the number of prices.
pub const PRICES_ROW: u32 = 4;

/// The reason against a row that is missing, has not two fields, has another key, or comes after the last.
pub const BAD_KEY: u32 = 2;

/// The reason against a value that is no number within its limits, no kind of gates, or no policy.
pub const BAD_VALUE: u32 = 3;

/// The reason against another version.
pub const WRONG_VERSION: u32 = 4;

/// The reason against more prices than one, if one is wanted.
pub const NOT_ONE_PRICE: u32 = 5;

/// The value of a row, if it has two fields and the key.
fn value<'a>(row: &'a Row, key: &[u8]) -> Option<&'a [u8]>
    ensures { option_map (λ s. s.now) result ≡ value_in key.now (two_of row.now) }
{
    let (first, second) = two_fields(row)?;
    if first == key { Some(second) } else { None }
}

/// Takes row 1, and tells whether it names version 2, which says what is opened.
fn read_version(rows: &mut RowReader, row: &mut Row) -> Result<bool, ReadFault>
    ensures reads { let version = value_of (codes "beet-auction") (slice_get rows.old 0) in
        Answers (λ tells. tells)
        (row_reading 1 (version_reason version) (tells_policy version)) result }
    ensures row { OnOk result (rows.old ≡ row.new ∷ rows.new) }
{
    if !rows.next(row)? {
        return Err(ReadFault::at_row(1, BAD_HEADER));
    }
    match value(row, b"beet-auction") {
        None => Err(ReadFault::at_row(1, BAD_HEADER)),
        Some(version) if version == b"1".as_slice() => Ok(false),
        Some(version) if version == b"2".as_slice() => Ok(true),
        Some(_) => Err(ReadFault::at_row(1, WRONG_VERSION)),
    }
}

/// Takes the row of this number, which has a number with this key.
fn read_number(
    rows: &mut RowReader,
    row: &mut Row,
    number: u32,
    key: &[u8],
    low: u64,
    high: u64,
) -> Result<u64, ReadFault>
    ensures reads { let value = value_of key.now (slice_get rows.old 0) in
        let reason = number_reason low high value in
        Answers (λ n. n) (row_reading number reason (number_in value)) result }
    ensures within { IfOk result (λ n. (low ≤ n) × (n ≤ high)) }
    ensures row { OnOk result (rows.old ≡ row.new ∷ rows.new) }
{
    if !rows.next(row)? {
        return Err(ReadFault::at_row(number, BAD_KEY));
    }
    let Some(digits) = value(row, key) else {
        return Err(ReadFault::at_row(number, BAD_KEY));
    };
    match beet_forms::number(digits, high) {
        Ok(n) if n >= low => Ok(n),
        _ => Err(ReadFault::at_row(number, BAD_VALUE)),
    }
}

/// Takes row 5, which has the kind of gates.
fn read_gates(rows: &mut RowReader, row: &mut Row) -> Result<Gates, ReadFault>
    ensures reads { let kind = value_of (codes "gates") (slice_get rows.old 0) in
        Answers (λ gates. gates) (row_reading 5
        (name_reason gates_named kind) (named_in gates_named Gates.Chain kind)) result }
    ensures row { OnOk result (rows.old ≡ row.new ∷ rows.new) }
{
    if !rows.next(row)? {
        return Err(ReadFault::at_row(5, BAD_KEY));
    }
    let Some(kind) = value(row, b"gates") else {
        return Err(ReadFault::at_row(5, BAD_KEY));
    };
    if kind == b"chain".as_slice() {
        Ok(Gates::Chain)
    } else if kind == b"tree".as_slice() {
        Ok(Gates::Tree)
    } else {
        Err(ReadFault::at_row(5, BAD_VALUE))
    }
}

/// Takes row 6, which says what is opened.
fn read_policy(rows: &mut RowReader, row: &mut Row) -> Result<Policy, ReadFault>
    ensures reads { let policy = value_of (codes "opens") (slice_get rows.old 0) in
        Answers (λ policy. policy) (row_reading 6
        (name_reason policy_named policy)
        (named_in policy_named Policy.Volume policy)) result }
    ensures row { OnOk result (rows.old ≡ row.new ∷ rows.new) }
{
    if !rows.next(row)? {
        return Err(ReadFault::at_row(6, BAD_KEY));
    }
    let Some(policy) = value(row, b"opens") else {
        return Err(ReadFault::at_row(6, BAD_KEY));
    };
    if policy == b"price".as_slice() {
        Ok(Policy::Price)
    } else if policy == b"volume".as_slice() {
        Ok(Policy::Volume)
    } else if policy == b"full".as_slice() {
        Ok(Policy::Full)
    } else {
        Err(ReadFault::at_row(6, BAD_VALUE))
    }
}

/// Takes what comes behind the gates, to the end: row 6, if the version has one.
fn read_rest(rows: &mut RowReader, row: &mut Row, tells: bool) -> Result<Policy, ReadFault>
    ensures { Answers (λ policy. policy)
        (reading_of (first_fault 6 (last_reasons tells rows.old)) (policy_in tells rows.old)) result }
{
    let policy = if tells {
        read_policy(rows, row)?
    } else {
        Policy::Volume
    };
    if rows.next(row)? {
        return Err(ReadFault::at_row(6 + tells as u32, BAD_KEY));
    }
    Ok(policy)
}

fn read_grid(rows: &mut RowReader, row: &mut Row) -> Result<Grid, ReadFault>
    ensures { Answers (λ grid. grid) (auction_in rows.old) result }
{
    let tells = read_version(rows, row)?;
    let base = read_number(rows, row, 2, b"base", 0, LARGEST_BASE)?;
    let tick = read_number(rows, row, 3, b"tick", 1, LARGEST_TICK)?;
    let prices = read_number(rows, row, PRICES_ROW, b"prices", 1, MOST_PRICES as u64)?;
    let gates = read_gates(rows, row)?;
    let policy = read_rest(rows, row, tells)?;
    match Grid::new(base, tick, prices as u32, gates) {
        Some(grid) => Ok(grid.with_policy(policy)),
        None => unreachable!(),
    }
}

/// The grid of an auction file: the rows `beet-auction,1`, `base,N`, `tick,N`, `prices,N`, and `gates,chain` or
/// `gates,tree`. It opens the volume. After `beet-auction,2` a sixth row says what it opens: `opens,price`,
/// `opens,volume` or `opens,full`. The first row that breaks this is named: row 1 as [`BAD_HEADER`] or
/// [`WRONG_VERSION`], each other one as [`BAD_KEY`] or [`BAD_VALUE`].
pub fn read_auction(alloc: Global, bytes: &[u8]) -> Result<Grid, ReadFault>
    requires { length bytes.now ≤ LONGEST_FILE }
    ensures { Answers (λ grid. grid) (auction_of bytes.now) result }
{
    let mut rows = RowReader::new(alloc, bytes);
    let mut row = Row::new(alloc);
    read_grid(&mut rows, &mut row)
}
