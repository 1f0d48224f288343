//! The reader of lists of envelopes.

ghost use Rattle.std.specs.Prelude.{◌≡◌, ◌≤◌, ℕ, List, Some, length, IfOk};
ghost use Rattle.std.specs.Option.{ok_or};
ghost use Rattle.std.specs.Result.{result_map_both};
ghost use Rattle.beet_forms.specs.Faults.{Answers};
ghost use Rattle.beet_forms.specs.declared.faults.TheConstants.{LONGEST_FILE};
ghost use Rattle.beet_words.specs.declared.bundle.TheConstants.{MOST_BIDDERS};
ghost use Rattle.beet_book.specs.Entries.{name_of};
ghost use Rattle.beet_book.specs.NamedRows.{first_field, reading_at};
ghost use Rattle.beet_farmer.specs.Lists.{entry_in, entry_of, list_of};

use beet_book::{NamedRow, ONE_TOO_MANY, read_named};
use beet_field::Trio;
use beet_forms::{BAD_ROW, Name, ReadFault, Row, beside, four_fields};
use std::alloc::Global;

/// The most bytes of a list of envelopes.
pub const LIST_LIMIT: u64 = 4_194_304;

/// One bidder of a list.
#[derive(Debug, Drop)]
pub struct ListEntry {
    /// What the bidder is called. No two bidders of a list have one name.
    pub name: Name,
    /// The names of the files of the envelopes for the three servers.
    pub envelopes: Trio<Name>,
}

/// The name that a field of a row is.
fn read_name(alloc: Global, number: u32, field: &[u8]) -> Result<Name, ReadFault>
    ensures { Answers (λ name. name) (reading_at number (ok_or (name_of field.now) BAD_ROW)) result }
{
    let Some(name) = Name::of(alloc, field)? else {
        return Err(ReadFault::at_row(number, BAD_ROW));
    };
    Ok(name)
}

/// The names that the last three fields of a row are.
fn read_envelopes(
    alloc: Global,
    number: u32,
    one: &[u8],
    two: &[u8],
    three: &[u8],
) -> Result<Trio<Name>, ReadFault>
    ensures { (name : List ℕ) →
        Answers (λ entry. entry) (reading_at number
        (entry_of (Some name) (name_of one.now) (name_of two.now) (name_of three.now)))
        (result_map_both (λ envelopes. record { name = name; envelopes = envelopes }) (λ fault. fault) result) }
{
    let one = read_name(alloc, number, one)?;
    let (one, two) = beside(one, read_name(alloc, number, two))?;
    let ((one, two), three) = beside((one, two), read_name(alloc, number, three))?;
    Ok(Trio { one, two, three })
}

/// The entry of a bidder's row.
fn read_entry(alloc: Global, number: u32, row: &Row) -> Result<ListEntry, ReadFault>
    ensures entry { Answers (λ entry. entry) (reading_at number (entry_in row.now)) result }
    ensures name { IfOk result (λ entry. entry.name ≡ first_field row.now) }
{
    let Some((name, one, two, three)) = four_fields(row) else {
        return Err(ReadFault::at_row(number, BAD_ROW));
    };
    let name = read_name(alloc, number, name)?;
    let (name, envelopes) = beside(name, read_envelopes(alloc, number, one, two, three))?;
    Ok(ListEntry { name, envelopes })
}

impl NamedRow for ListEntry {
    ghost use Rattle.beet_farmer.specs.Lists.{entry_in};

    ghost value_in = { entry_in };

    ghost name_in = { λ entry. entry.name };

    fn read(alloc: Global, number: u32, row: &Row) -> Result<ListEntry, ReadFault> {
        read_entry(alloc, number, row)
    }

    fn name(&self) -> &Name {
        &self.name
    }
}

/// The bidders of a list: the row `beet-list,1` and then at most 2,000 rows `NAME,E1,E2,E3`.
///
/// The first row with a fault is named, as `read_named` does: a row as [`BAD_ROW`] that has not four fields or has a
/// field that is no name.
pub fn read_list(alloc: Global, bytes: &[u8]) -> Result<Vec<ListEntry>, ReadFault>
    requires { length bytes.now ≤ LONGEST_FILE }
    ensures reads { Answers (λ entries. entries.items) (list_of bytes.now) result }
    ensures few { IfOk result (λ entries. length entries.items ≤ MOST_BIDDERS) }
{
    read_named(alloc, ONE_TOO_MANY, b"beet-list", bytes)
}
