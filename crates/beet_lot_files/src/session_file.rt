//! The reader of session files.

ghost use Rattle.std.specs.Prelude.{◌≡◌, ◌≤◌, length, IfOk, Ok, Some};
ghost use Rattle.beet_forms.specs.Faults.{Answers};
ghost use Rattle.beet_book.specs.NamedRows.{first_field, reading_at};
ghost use Rattle.beet_lot_files.specs.SessionFiles.{lot_in, lot_of, session_of, with_lots};
ghost use Rattle.beet_lots.specs.declared.lots.TheConstants.{MOST_LOTS};

use beet_book::{NamedRow, read_named};
use beet_forms::{BAD_ROW, Name, ReadFault, Row, beside, three_fields};
use beet_lots::MOST_LOTS;
use std::alloc::Global;
use std::marker::Model;

/// The most bytes of a session file.
pub const SESSION_LIMIT: u64 = 65_536;

/// The number of the row of a session that is one lot too many.
pub const ONE_LOT_TOO_MANY: u32 = MOST_LOTS + 2;

/// One lot of a session.
#[derive(Debug, Drop)]
pub struct LotRow {
    /// What the lot is called. No two lots of a session have one name.
    pub name: Name,
    /// The name of the file of its auction.
    pub auction: Name,
    /// The name of the file of its book.
    pub book: Name,
}

/// The lot of the parts of a row, or the reason against them.
fn lot_of(name: Option<Name>, auction: Option<Name>, book: Option<Name>) -> Result<LotRow, u32>
    ensures lot { result ≡ lot_of name auction book }
    ensures name { IfOk result (λ lot. name ≡ Some lot.name) }
{
    let ((name, auction), book) = name.zip(auction).zip(book).ok_or(BAD_ROW)?;
    Ok(LotRow {
        name,
        auction,
        book,
    })
}

fn read_lot(alloc: Global, number: u32, row: &Row) -> Result<LotRow, ReadFault>
    ensures lot { Answers (λ lot. lot) (reading_at number (lot_in row.now)) result }
    ensures name { IfOk result (λ lot. lot.name ≡ first_field row.now) }
{
    let Some((name, auction, book)) = three_fields(row) else {
        return Err(ReadFault::at_row(number, BAD_ROW));
    };
    let name = Name::of(alloc, name)?;
    let (name, auction) = beside(name, Name::of(alloc, auction))?;
    let ((name, auction), book) = beside((name, auction), Name::of(alloc, book))?;
    match lot_of(name, auction, book) {
        Ok(lot) => Ok(lot),
        Err(reason) => Err(ReadFault::at_row(number, reason)),
    }
}

impl NamedRow for LotRow {
    ghost use Rattle.beet_lot_files.specs.SessionFiles.{lot_in};

    ghost value_in = { lot_in };

    ghost name_in = { λ lot. lot.name };

    fn read(alloc: Global, number: u32, row: &Row) -> Result<LotRow, ReadFault> {
        read_lot(alloc, number, row)
    }

    fn name(&self) -> &Name {
        &self.name
    }
}

/// The lots of a session, of which there are 1 to 16.
#[derive(Debug, Drop)]
pub struct Lots {
    rows: Vec<LotRow>,
}

impl Model for Lots {
    ghost use Rattle.std.specs.Prelude.{List, ◌≤◌, length};
    ghost use Rattle.beet_lot_files.specs.declared.session_file.LotRow.{LotRow as Lot};
    ghost use Rattle.beet_lots.specs.declared.lots.TheConstants.{MOST_LOTS};

    ghost Value = { List Lot };

    ghost view = { λ a. a.rows.items };

    ghost invariant = { λ a. (1 ≤ length a.rows.items) × (length a.rows.items ≤ MOST_LOTS) };
}

impl Lots {
    /// The lots in order.
    pub fn rows(&self) -> &[LotRow]
        ensures lots { result.now ≡ self.now }
        ensures some { 1 ≤ length result.now }
        ensures few { length result.now ≤ MOST_LOTS }
    {
        self.rows.as_slice()
    }
}

/// The lots of these rows. If there is none, the row where the first would stand is refused.
fn lots_of(rows: Vec<LotRow>) -> Result<Lots, ReadFault>
    requires { length rows.items ≤ MOST_LOTS }
    ensures { Answers (λ lots. lots) (with_lots (Ok rows.items)) result }
{
    if rows.is_empty() {
        return Err(ReadFault::at_row(2, BAD_ROW));
    }
    Ok(Lots { rows })
}

/// The lots of a session file: the row `beet-session,1` and then 1 to 16 rows `LOT,AUCTION,BOOK`, no two of one LOT.
///
/// The first row with a fault is named, as `read_named` does: a row as [`BAD_ROW`] that has not three fields or has a
/// field that is no name. If there is no row 2, it is a bad one.
pub fn read_session(alloc: Global, bytes: &[u8]) -> Result<Lots, ReadFault>
    ensures { Answers (λ lots. lots) (session_of bytes.now) result }
{
    let rows = read_named(alloc, ONE_LOT_TOO_MANY, b"beet-session", bytes)?;
    lots_of(rows)
}
