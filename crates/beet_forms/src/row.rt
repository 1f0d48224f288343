//! The rows of a text file.

ghost use Rattle.std.specs.Prelude.{◌≡◌, ◌↔◌, ◌≤◌, ◌++◌, [], IfOk, OnOk, IsTrue, option_map, vec_len, length};
ghost use Rattle.beet_forms.specs.Rows.{rows_of};
ghost use Rattle.csv.specs.Records.{field_at};

use crate::RowReader;
use csv::ByteRecord;
use std::alloc::{AllocError, Global};
use std::marker::Model;

/// One row: its fields, each a list of bytes.
#[derive(Drop)]
pub struct Row {
    pub(crate) record: ByteRecord,
}

impl Model for Row {
    ghost use Rattle.std.specs.Prelude.{ℕ, List};
    ghost use Rattle.csv.specs.Records.{fields_of};

    ghost Value = { List (List ℕ) };

    ghost view = { λ a. fields_of a.record };
}

impl Row {
    /// A row of no fields.
    pub fn new(alloc: Global) -> Row
        ensures { result ≡ [] }
    {
        Row {
            record: ByteRecord::new(alloc),
        }
    }

    /// How many fields there are.
    pub fn len(&self) -> usize
        ensures { result ≡ length self.now }
    {
        self.record.len()
    }

    /// Whether there is no field.
    pub fn is_empty(&self) -> bool
        ensures { IsTrue result ↔ (self.now ≡ []) }
    {
        self.record.is_empty()
    }

    /// The field at this place, counted from 0.
    pub fn field(&self, i: usize) -> Option<&[u8]>
        ensures { option_map (λ s. s.now) result ≡ field_at self.now i }
    {
        self.record.get(i)
    }
}

/// Appends the rows that are left.
fn push_rows(alloc: Global, reader: &mut RowReader, rows: &mut Vec<Row>) -> Result<(), AllocError>
    ensures { OnOk result (rows.new.items ≡ rows.old.items ++ reader.old) }
{
    let mut row = Row::new(alloc);
    while reader.next(&mut row)? {
        rows.push(row)?;
        row = Row::new(alloc);
    }
    Ok(())
}

/// The rows of a text, all of them. A row takes a byte of the text at least. Want of memory is the only error.
pub fn rows(alloc: Global, bytes: &[u8]) -> Result<Vec<Row>, AllocError>
    ensures records { IfOk result (λ v. v.items ≡ rows_of bytes.now) }
    ensures few { IfOk result (λ v. vec_len v ≤ length bytes.now) }
{
    let mut reader = RowReader::new(alloc, bytes);
    let mut rows = Vec::new(alloc);
    push_rows(alloc, &mut reader, &mut rows)?;
    Ok(rows)
}
