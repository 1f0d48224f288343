//! Files of a header and then rows, each of which begins with a name of its own.

ghost use Rattle.std.specs.Prelude.{◌≡◌, ◌≤◌, ◌+◌, ◌||◌, ◌∷◌, [], ℕ, List, Result, bytes_eq, codes, length, IfOk, OnOk};
ghost use Rattle.std.specs.BTreeSet.{contains_text};
ghost use Rattle.beet_forms.specs.Faults.{Answers};
ghost use Rattle.beet_forms.specs.Rows.{rows_of};
ghost use Rattle.beet_book.specs.NamedRows.{first_field, named_file, named_in, named_rows, reading_at};

use crate::naming::add_name;
use beet_forms::{BAD_HEADER, Name, ReadFault, Row, RowReader};
use beet_words::MOST_BIDDERS;
use std::alloc::Global;
use std::collections::BTreeSet;

/// The reason against a name that stands in an earlier row after the first.
pub const SAME_NAME: u32 = 4;

/// The reason against a row after the last that a file may have.
pub const TOO_MANY: u32 = 5;

/// The number of the row of a book or a list that is one bidder too many.
pub const ONE_TOO_MANY: u32 = MOST_BIDDERS as u32 + 2;

/// What a row that begins with a name is read as.
pub trait NamedRow: Drop {
    /// The value of a row, or the reason against the row.
    ghost value_in: { List (List ℕ) → Result Self ℕ };

    /// The name of a value.
    ghost name_in: { Self → List ℕ };

    /// The value of the row of this number.
    fn read(alloc: Global, number: u32, row: &Row) -> Result<Self, ReadFault>
        ensures value { Answers (λ value. value) (reading_at number (value_in row.now)) result }
        ensures name { IfOk result (λ value. name_in value ≡ first_field row.now) };

    /// The name of the value.
    fn name(&self) -> &Name
        ensures { result.now ≡ name_in self.now };
}

/// The value of the row of this number, if these names were seen in rows before it. Its name is put to them.
fn read_row<V: NamedRow>(
    alloc: Global,
    one_too_many: u32,
    number: u32,
    row: &Row,
    seen: &mut BTreeSet<String>,
) -> Result<V, ReadFault>
    ensures value { Answers (λ value. value)
        (reading_at number
        (named_in V.value_in one_too_many (contains_text seen.old (first_field row.now)) number row.now)) result }
    ensures seen { OnOk result ((text : List ℕ) →
        contains_text seen.new text ≡
        (bytes_eq (first_field row.now) text || contains_text seen.old text)) }
{
    if number == one_too_many {
        return Err(ReadFault::at_row(number, TOO_MANY));
    }
    let value = V::read(alloc, number, row)?;
    if add_name(alloc, seen, value.name().as_str())? {
        Ok(value)
    } else {
        Err(ReadFault::at_row(number, SAME_NAME))
    }
}

/// The values of the rows that are left, the first of which has this number in its file. No two have one name. The
/// first row with a fault is named, with the first reason that stands against it of [`TOO_MANY`], those of its reader,
/// and [`SAME_NAME`].
pub fn read_named_rows<V: NamedRow>(
    alloc: Global,
    first: u32,
    one_too_many: u32,
    rows: &mut RowReader,
    row: &mut Row,
) -> Result<Vec<V>, ReadFault>
    requires { first ≤ one_too_many }
    ensures reads { Answers (λ values. values.items)
        (named_rows V.value_in first one_too_many rows.old) result }
    ensures few { IfOk result (λ values. length values.items + first ≤ one_too_many) }
{
    let mut seen = BTreeSet::new(alloc);
    let mut values = Vec::new(alloc);
    while rows.next(row)? {
        let value = read_row(
            alloc,
            one_too_many,
            values.len() as u32 + first,
            row,
            &mut seen,
        )?;
        values.push(value)?;
    }
    Ok(values)
}

/// The values of all rows, the first of which is of this kind and `1`.
fn read_all<V: NamedRow>(
    alloc: Global,
    one_too_many: u32,
    kind: &[u8],
    rows: &mut RowReader,
    row: &mut Row,
) -> Result<Vec<V>, ReadFault>
    requires { 2 ≤ one_too_many }
    ensures reads { Answers (λ values. values.items)
        (named_file V.value_in one_too_many (kind.now ∷ codes "1" ∷ []) rows.old) result }
    ensures few { IfOk result (λ values. length values.items + 2 ≤ one_too_many) }
{
    if !rows.begins_with(row, kind, b"1")? {
        return Err(ReadFault::at_row(1, BAD_HEADER));
    }
    read_named_rows(alloc, 2, one_too_many, rows, row)
}

/// The values of a file of named rows: the row of this kind and `1`, and then rows with names, no two of one name, of
/// which the last comes before the one that is too many. The first row with a fault is named. Its reason is
/// [`BAD_HEADER`] for row 1, and for a further row that of [`read_named_rows`].
pub fn read_named<V: NamedRow>(
    alloc: Global,
    one_too_many: u32,
    kind: &[u8],
    bytes: &[u8],
) -> Result<Vec<V>, ReadFault>
    requires { 2 ≤ one_too_many }
    ensures reads { Answers (λ values. values.items)
        (named_file V.value_in one_too_many (kind.now ∷ codes "1" ∷ []) (rows_of bytes.now)) result }
    ensures few { IfOk result (λ values. length values.items + 2 ≤ one_too_many) }
{
    let mut rows = RowReader::new(alloc, bytes);
    let mut row = Row::new(alloc);
    read_all(alloc, one_too_many, kind, &mut rows, &mut row)
}
