//! The rows of a text file, one at a time.

ghost use Rattle.std.specs.Prelude.{◌≡◌, ◌≤◌, ◌∷◌, [], true, IfOk, OnErr, MatchResult, length};
ghost use Rattle.beet_forms.specs.Rows.{rows_of};
ghost use Rattle.beet_forms.specs.RowReaders.{Gives, Passes, IsReading, rows_left};
ghost use Rattle.csv.specs.Reading.{stops_reader, error_kind};
ghost use Rattle.csv.specs.Records.{fields_of};

use crate::{Row, is_header};
use csv::{ByteRecord, Error, ErrorKind, Reader, ReaderBuilder};
use std::alloc::{AllocError, Global};
use std::marker::Model;

/// The want of memory that an error of reading rows tells. No other kind comes: rows may have any lengths and any
/// bytes. The reader underneath is a slice, which does not fail; `csv` promises nothing of that, so its kind is named
/// here too.
fn want_of_memory(error: Error) -> AllocError
    requires { stops_reader (error_kind error) ≡ true }
{
    match error.kind() {
        ErrorKind::OutOfMemory | ErrorKind::Io(_) => AllocError,
        _ => unreachable!(),
    }
}

/// The next record into `row`, and whether there was one.
fn read(reader: &mut Reader<&[u8]>, row: &mut ByteRecord) -> Result<bool, AllocError>
    requires { IsReading reader.old }
    ensures reading { IsReading reader.new }
    ensures gives { IfOk result
        (λ found. Gives found (rows_left reader.old) (fields_of row.new) (rows_left reader.new)) }
    ensures failed { OnErr result (rows_left reader.new ≡ []) }
{
    reader.read_byte_record(row).map_err(want_of_memory)
}

/// The rows of a text that are left.
#[derive(Drop)]
pub struct RowReader<'a> {
    reader: Reader<&'a [u8]>,
}

impl<'a> Model for RowReader<'a> {
    ghost use Rattle.std.specs.Prelude.{ℕ, List};
    ghost use Rattle.beet_forms.specs.RowReaders.{rows_left, IsReading};

    ghost Value = { List (List (List ℕ)) };

    ghost view = { λ a. rows_left a.reader };

    ghost invariant = { λ a. IsReading a.reader };
}

impl<'a> RowReader<'a> {
    /// The rows of a text: the records of `csv` with comma, no header row and any lengths.
    pub fn new(alloc: Global, bytes: &'a [u8]) -> RowReader<'a>
        ensures rows { result ≡ rows_of bytes.now }
        ensures few { length result ≤ length bytes.now }
    {
        RowReader {
            reader: ReaderBuilder::new()
                .has_headers(false)
                .flexible(true)
                .from_reader(alloc, bytes),
        }
    }

    /// Puts the next row in the place of `row`, and answers whether there was one. Want of memory is the only error. It
    /// ends the reading: each later call answers that no row is left.
    pub fn next(&mut self, row: &mut Row) -> Result<bool, AllocError>
        ensures { MatchResult result (λ found. Gives found self.old row.new self.new) (λ _. self.new ≡ []) }
    {
        read(&mut self.reader, &mut row.record)
    }

    /// Takes the next row, and answers whether there is one and it is these two fields, byte for byte. Want of memory
    /// is the only error, and ends the reading.
    pub fn begins_with(
        &mut self,
        row: &mut Row,
        kind: &[u8],
        version: &[u8],
    ) -> Result<bool, AllocError>
        ensures { MatchResult result
            (λ same. Passes same self.old (kind.now ∷ version.now ∷ []) self.new)
            (λ _. self.new ≡ []) }
    {
        Ok(self.next(row)? && is_header(row, kind, version))
    }
}
