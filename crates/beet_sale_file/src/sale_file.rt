//! The reader of sale files.

ghost use Rattle.std.specs.Prelude.{◌≡◌, ◌≤◌, ◌∷◌, length, slice_get, option_and_then, All, IfOk, OnOk};
ghost use Rattle.std.specs.Option.{ok_or};
ghost use Rattle.beet_forms.specs.Faults.{Answers};
ghost use Rattle.beet_book.specs.NamedRows.{reading_at};
ghost use Rattle.beet_sale_plan.specs.Outcome.{IsBid};
ghost use Rattle.beet_sale_plan.specs.Sale.{IsSaleSize};
ghost use Rattle.beet_sale_file.specs.SaleFiles.{bidders_in, gates_in, sale_in, sale_of};

use crate::rows::SaleRow;
use crate::sale::Sale;
use beet_book::read_named_rows;
use beet_forms::{BAD_HEADER, BAD_ROW, LONGEST_FILE, ReadFault, Row, RowReader, is_header};
use beet_gates::Gates;
use beet_sale_plan::{FEWEST_SALE_BIDDERS, MOST_SALE_BIDDERS};
use std::alloc::Global;

/// The most bytes of a sale file.
pub const SALE_LIMIT: u64 = 65_536;

/// The reason against row 2 if it is missing or is neither `gates,chain` nor `gates,tree`.
pub const BAD_GATES: u32 = 3;

/// The number of the row that is one bidder too many.
pub const ONE_SALE_BIDDER_TOO_MANY: u32 = MOST_SALE_BIDDERS + 3;

/// The kind of gates of a row.
fn read_gates(row: &Row) -> Option<Gates>
    ensures { result ≡ gates_in row.now }
{
    if is_header(row, b"gates", b"chain") {
        Some(Gates::Chain)
    } else if is_header(row, b"gates", b"tree") {
        Some(Gates::Tree)
    } else {
        None
    }
}

/// Takes row 2, which has the kind of gates.
fn next_gates(rows: &mut RowReader, row: &mut Row) -> Result<Gates, ReadFault>
    ensures gates { Answers (λ gates. gates)
        (reading_at 2 (ok_or (option_and_then gates_in (slice_get rows.old 0)) BAD_GATES)) result }
    ensures row { OnOk result (rows.old ≡ row.new ∷ rows.new) }
{
    if !rows.next(row)? {
        return Err(ReadFault::at_row(2, BAD_GATES));
    }
    match read_gates(row) {
        Some(gates) => Ok(gates),
        None => Err(ReadFault::at_row(2, BAD_GATES)),
    }
}

/// The bidders, of the rows that are left, which are those from row 3 on.
fn read_bidders(
    alloc: Global,
    rows: &mut RowReader,
    row: &mut Row,
) -> Result<Vec<SaleRow>, ReadFault>
    ensures reads { Answers (λ bidders. bidders.items) (bidders_in rows.old) result }
    ensures size { IfOk result (λ bidders. IsSaleSize (length bidders.items)) }
    ensures bids { IfOk result (λ bidders. All (λ bidder. IsBid bidder.bid.bid) bidders.items) }
{
    let bidders = read_named_rows(alloc, 3, ONE_SALE_BIDDER_TOO_MANY, rows, row)?;
    let count = bidders.len() as u32;
    if count < FEWEST_SALE_BIDDERS {
        return Err(ReadFault::at_row(3 + count, BAD_ROW));
    }
    Ok(bidders)
}

fn read_all(alloc: Global, rows: &mut RowReader, row: &mut Row) -> Result<Sale, ReadFault>
    ensures { Answers (λ sale. sale) (sale_in rows.old) result }
{
    if !rows.begins_with(row, b"beet-sale", b"1")? {
        return Err(ReadFault::at_row(1, BAD_HEADER));
    }
    let gates = next_gates(rows, row)?;
    let bidders = read_bidders(alloc, rows, row)?;
    Ok(Sale::new(alloc, gates, bidders)?)
}

/// The sale of a sale file: the row `beet-sale,1`, the row `gates,chain` or `gates,tree`, and then from 2 to 16 rows
/// `NAME,KNOWN,BID,KIND,SOURCE` as in a book, but BID is the bid, a number.
///
/// The first row with a fault is named: row 1 as [`BAD_HEADER`], row 2 as [`BAD_GATES`], and a further row as
/// `read_named_rows` does. It is a [`BAD_ROW`] if it is missing, has not five fields, its NAME is no name, its KNOWN is
/// not `0`, `1`, `2` or `3`, or its BID is no number or is too large; and else has a [`BAD_SALE_SOURCE`] if the source
/// is neither `seed` with 64 hexadecimal digits nor `tape` with a name.
///
/// [`BAD_SALE_SOURCE`]: crate::BAD_SALE_SOURCE
pub fn read_sale(alloc: Global, bytes: &[u8]) -> Result<Sale, ReadFault>
    requires { length bytes.now ≤ LONGEST_FILE }
    ensures { Answers (λ sale. sale) (sale_of bytes.now) result }
{
    let mut rows = RowReader::new(alloc, bytes);
    let mut row = Row::new(alloc);
    read_all(alloc, &mut rows, &mut row)
}
