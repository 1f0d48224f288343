//! The reader of book files.

ghost use Rattle.std.specs.Prelude.{◌≤◌, length, IfOk};
ghost use Rattle.beet_forms.specs.Faults.{Answers};
ghost use Rattle.beet_book.specs.BookFiles.{book_of};

use crate::entries::{Entry, read_entry};
use crate::named_file::{NamedRow, ONE_TOO_MANY, read_named};
use beet_forms::{LONGEST_FILE, Name, ReadFault, Row};
use beet_words::MOST_BIDDERS;
use std::alloc::Global;

/// The most bytes of a book file.
pub const BOOK_LIMIT: u64 = 4_194_304;

/// The largest product of bidders and prices of which everything is kept: of a book, of a list of envelopes, or of all
/// lots of a session.
pub const MOST_PRODUCT: u64 = 500_000;

/// The reason against a file above that limit, at row 0.
pub const OVER_PRODUCT: u32 = 6;

impl NamedRow for Entry {
    ghost use Rattle.beet_book.specs.Entries.{entry_in};

    ghost value_in = { entry_in };

    ghost name_in = { λ entry. entry.name };

    fn read(alloc: Global, number: u32, row: &Row) -> Result<Entry, ReadFault> {
        read_entry(alloc, number, row)
    }

    fn name(&self) -> &Name {
        &self.name
    }
}

/// The bidders of a book file: the row `beet-book,1` and then at most 2,000 rows `NAME,KNOWN,BID,KIND,SOURCE`.
///
/// The first row with a fault is named, as `read_named` does: a row as [`BAD_ROW`] that has not five fields, whose NAME
/// or BID is no name, or whose KNOWN is not `0`, `1`, `2` or `3`; and as [`BAD_SOURCE`] if the source is neither
/// `seed` with 64 hexadecimal digits nor `tape` with a name.
pub fn read_book(alloc: Global, bytes: &[u8]) -> Result<Vec<Entry>, ReadFault>
    requires { length bytes.now ≤ LONGEST_FILE }
    ensures reads { Answers (λ entries. entries.items) (book_of bytes.now) result }
    ensures few { IfOk result (λ entries. length entries.items ≤ MOST_BIDDERS) }
{
    read_named(alloc, ONE_TOO_MANY, b"beet-book", bytes)
}
