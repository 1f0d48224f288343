//! Reading the lots of two sessions: those of the first are kept whole, those of the second without words.

ghost use Rattle.std.specs.Prelude.{◌≡◌, ◌≤◌, ◌+◌, ◌*◌, [], IfOk, length};
ghost use Rattle.beet_errand.specs.Fetches.{Reads, ReadsFor};
ghost use Rattle.beet_book.specs.declared.book_file.TheConstants.{MOST_PRODUCT};
ghost use Rattle.beet_lots.specs.declared.lots.TheConstants.{MOST_LOTS};
ghost use Rattle.beet_lot_load.specs.Lots.{each_row};
ghost use Rattle.beet_job_session_pair.specs.Kept.{AreKept, KeepsLot, both_of};
ghost use Rattle.beet_job_session_pair.specs.Reading.{alone_errand, books_errand, both_errand, limited_lot, next_alone};
ghost use Rattle.beet_job_session_pair.specs.Reading.{next_limited};
ghost use Rattle.beet_job_session_pair.specs.Starting.{CanStartEach};

use crate::sessions::{BothSessions, WholeLots};
use beet_bids::Book;
use beet_book::Servers;
use beet_errand::Stop;
use beet_forms::beside;
use beet_load::{check_product, load_curves, load_whole_rest, read_entries, read_grid};
use beet_lot_files::LotRow;
use beet_lot_load::{SessionFiles, load_session, read_lots};
use beet_store::Shelf;
use std::alloc::Global;

/// Reads a lot, counted from 0, and keeps it whole. Right after its book was read, it is refused at row 0 for the
/// reason 6 if its bidders, each counted once for each price, are more than 500,000 with those of the lots before it.
fn read_whole<S: Shelf>(
    alloc: Global,
    shelf: &mut S,
    sources: &Servers,
    lot: u32,
    row: &LotRow,
    lots: &mut WholeLots,
) -> Result<(), Stop>
    requires { lots.old.product ≤ MOST_PRODUCT }
    ensures within { IfOk result (λ done. lots.new.product ≤ MOST_PRODUCT) }
    ensures reads { ReadsFor (λ done limited. KeepsLot lots.old lots.new limited) (S.seen shelf.old) (S.seen shelf.new)
        (limited_lot sources.now lot lots.old.product row.now) result }
{
    let grid = read_grid(alloc, shelf, row.auction.as_str())?;
    let entries = read_entries(alloc, shelf, row.book.as_str())?;
    let count = entries.len();
    check_product(alloc, lots.product, row.book.as_str(), &grid, count)?;
    let prices = grid.prices();
    let product = lots.product + count as u64 * prices as u64;
    let whole = load_whole_rest(alloc, shelf, Some(lot), &grid, sources, entries.as_slice());
    drop(entries);
    let whole = whole?;
    let pushed = lots.push(whole, product);
    Ok(pushed?)
}

/// Reads the lots of the first session in order, with the words of each.
fn read_wholes<S: Shelf>(
    alloc: Global,
    shelf: &mut S,
    sources: &Servers,
    rows: &[LotRow],
) -> Result<WholeLots, Stop>
    requires { length rows.now ≤ MOST_LOTS }
    ensures runs { IfOk result (λ lots. CanStartEach lots.books.items lots.words.items) }
    ensures count { IfOk result (λ lots. length lots.books.items ≡ length rows.now) }
    ensures reads { ReadsFor AreKept (S.seen shelf.old) (S.seen shelf.new)
        (each_row (next_limited sources.now) [] rows.now) result }
{
    let mut lots = WholeLots::new(alloc);
    for (i, row) in rows.iter().enumerate() {
        read_whole(alloc, shelf, sources, i as u32, row, &mut lots)?;
    }
    Ok(lots)
}

/// Reads the book of a lot without its words, over its own grid.
fn read_book<S: Shelf>(
    alloc: Global,
    shelf: &mut S,
    before: u64,
    row: &LotRow,
) -> Result<Book, Stop>
    requires { before ≤ MOST_PRODUCT }
    ensures within { IfOk result (λ book. before + length book.bidders * book.grid.prices ≤ MOST_PRODUCT) }
    ensures reads { Reads (λ book. book) (S.seen shelf.old) (S.seen shelf.new) (alone_errand before row.now) result }
{
    let grid = read_grid(alloc, shelf, row.auction.as_str())?;
    load_curves(alloc, shelf, before, &grid, row.book.as_str())
}

/// What a book takes of the limit.
fn product_of(book: &Book) -> u64
    requires { length book.now.bidders * book.now.grid.prices ≤ MOST_PRODUCT }
    ensures { result ≡ length book.now.bidders * book.now.grid.prices }
{
    book.bidders().len() as u64 * book.grid().prices() as u64
}

/// Reads the books of the lots of the second session in order, for which the limit begins anew.
fn read_books<S: Shelf>(alloc: Global, shelf: &mut S, rows: &[LotRow]) -> Result<Vec<Book>, Stop>
    ensures count { IfOk result (λ books. length books.items ≡ length rows.now) }
    ensures reads { Reads (λ books. books.items) (S.seen shelf.old) (S.seen shelf.new)
        (each_row next_alone [] rows.now) result }
{
    let mut books = Vec::with_capacity(alloc, rows.len())?;
    let mut product = 0;
    for row in rows {
        let book = read_book(alloc, shelf, product, row)?;
        product += product_of(&book);
        books.push_reserved(book);
    }
    Ok(books)
}

/// Reads the file of the second session and its books.
fn read_second<S: Shelf>(alloc: Global, shelf: &mut S, name: &str) -> Result<Vec<Book>, Stop>
    ensures few { IfOk result (λ books. length books.items ≤ MOST_LOTS) }
    ensures reads { Reads (λ books. books.items) (S.seen shelf.old) (S.seen shelf.new) (books_errand name.now) result }
{
    let lots = read_lots(alloc, shelf, name)?;
    let books = read_books(alloc, shelf, lots.rows());
    drop(lots);
    books
}

/// Reads two sessions: the file of the first, the seeds of the servers, and lot after lot; then the file of the second,
/// and lot after lot its books.
pub(crate) fn read_both<S: Shelf>(
    alloc: Global,
    shelf: &mut S,
    first: &str,
    second: &str,
    servers: &str,
) -> Result<BothSessions, Stop>
    ensures runs { IfOk result (λ both. CanStartEach both.lots.books.items both.lots.words.items) }
    ensures count { IfOk result (λ both. length both.lots.books.items ≡ length both.rows) }
    ensures few { IfOk result (λ both. length both.rows ≤ MOST_LOTS) }
    ensures few_seconds { IfOk result (λ both. length both.seconds.items ≤ MOST_LOTS) }
    ensures reads { Reads both_of (S.seen shelf.old) (S.seen shelf.new) (both_errand first.now second.now servers.now)
        result }
{
    let files = SessionFiles {
        session: first,
        servers,
    };
    let (rows, sources) = load_session(alloc, shelf, &files)?;
    let lots = read_wholes(alloc, shelf, &sources, rows.rows());
    drop(sources);
    let (rows, lots) = beside(rows, lots)?;
    let ((rows, lots), seconds) = beside((rows, lots), read_second(alloc, shelf, second))?;
    Ok(BothSessions {
        rows,
        lots,
        seconds,
    })
}
