//! The bidders of a book, and the rows that tell of them.

ghost use Rattle.std.specs.Prelude.{◌≡◌, IfOk, Some};
ghost use Rattle.beet_forms.specs.Faults.{Answers};
ghost use Rattle.beet_book.specs.Entries.{entry_in, entry_of, known_of, source_of};
ghost use Rattle.beet_book.specs.NamedRows.{first_field, reading_at};

use beet_field::Point;
use beet_forms::{BAD_ROW, Name, ReadFault, Row, beside, five_fields};
use beet_words::read_seed;
use std::alloc::{AllocError, Global};

/// The reason against a source that is none of those that its row may have.
pub const BAD_SOURCE: u32 = 3;

/// Where a bidder's words come from.
#[derive(Debug, Drop)]
pub enum BidderSource {
    /// The generator with this seed.
    Seed([u8; 32]),
    /// The tape file of this name.
    Tape(Name),
}

/// One bidder of a book.
#[derive(Debug, Drop)]
pub struct Entry {
    /// What the bidder is called. No two bidders of a book have one name.
    pub name: Name,
    /// The one server that knows the bidder's curve and words, if there is one.
    pub known: Option<Point>,
    /// The name of the file of the bid.
    pub bid: Name,
    pub source: BidderSource,
}

/// The server that knows the bidder; `0` stands for none.
pub fn read_known(text: &[u8]) -> Option<Option<Point>>
    ensures { result ≡ known_of text.now }
{
    if text == b"0".as_slice() {
        return Some(None);
    }
    Point::of_digit(text).map(Some)
}

/// Where a bidder's words come from, by the kind and the text.
pub fn read_source(
    alloc: Global,
    kind: &[u8],
    text: &[u8],
) -> Result<Option<BidderSource>, AllocError>
    ensures { IfOk result (λ source. source ≡ source_of kind.now text.now) }
{
    if kind == b"seed".as_slice() {
        return Ok(read_seed(text).map(BidderSource::Seed));
    }
    if kind == b"tape".as_slice() {
        return Ok(Name::of(alloc, text)?.map(BidderSource::Tape));
    }
    Ok(None)
}

/// The entry of the parts of a row, or the reason against them.
fn entry_of(
    name: Option<Name>,
    known: Option<Option<Point>>,
    bid: Option<Name>,
    source: Option<BidderSource>,
) -> Result<Entry, u32>
    ensures entry { result ≡ entry_of name known bid source }
    ensures name { IfOk result (λ entry. name ≡ Some entry.name) }
{
    let parts = name.zip(known).zip(bid).ok_or(BAD_ROW);
    let (source, ((name, known), bid)) = beside(source, parts)?;
    let ((name, known, bid), source) = beside((name, known, bid), source.ok_or(BAD_SOURCE))?;
    Ok(Entry {
        name,
        known,
        bid,
        source,
    })
}

/// The entry of a bidder's row.
pub(crate) fn read_entry(alloc: Global, number: u32, row: &Row) -> Result<Entry, ReadFault>
    ensures entry { Answers (λ entry. entry) (reading_at number (entry_in row.now)) result }
    ensures name { IfOk result (λ entry. entry.name ≡ first_field row.now) }
{
    let Some((name, known, bid, kind, text)) = five_fields(row) else {
        return Err(ReadFault::at_row(number, BAD_ROW));
    };
    let name = Name::of(alloc, name)?;
    let (name, bid) = beside(name, Name::of(alloc, bid))?;
    let ((name, bid), source) = beside((name, bid), read_source(alloc, kind, text))?;
    match entry_of(name, read_known(known), bid, source) {
        Ok(entry) => Ok(entry),
        Err(reason) => Err(ReadFault::at_row(number, reason)),
    }
}
