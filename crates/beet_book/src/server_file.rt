//! The reader of servers files.

ghost use Rattle.std.specs.Prelude.{◌≡◌, ◌≤◌, ◌∷◌, ◌⊎◌, length, drop, slice_get, IfOk, OnOk, MatchResult, Ok, None};
ghost use Rattle.std.specs.Prelude.{Some};
ghost use Rattle.beet_forms.specs.Faults.{Answers};
ghost use Rattle.beet_forms.specs.declared.faults.FaultPlace.TheVariants.{Row as AtRow};
ghost use Rattle.beet_forms.specs.declared.faults.ReadFault.TheVariants.{Bad, OutOfMemory};
ghost use Rattle.beet_book.specs.NamedRows.{reading_at};
ghost use Rattle.beet_book.specs.ServerFiles.{begins, bundle_in, last_before, servers_in, servers_of, server_in};
ghost use Rattle.beet_book.specs.ServerFiles.{source_in, sources_in, three_in};

use crate::entries::BAD_SOURCE;
use crate::named_file::TOO_MANY;
use crate::sources::{ServerSource, Servers};
use beet_field::Trio;
use beet_forms::{
    BAD_HEADER, BAD_ROW, LONGEST_FILE, Name, ReadFault, Row, RowReader, beside, four_fields,
    three_fields, two_fields,
};
use beet_words::read_seed;
use std::alloc::{AllocError, Global};

/// The most bytes of a servers file.
pub const SERVERS_LIMIT: u64 = 4_096;

/// Whether the first field of a row is this text.
fn begins_with(row: &Row, text: &[u8]) -> bool
    ensures { result ≡ begins text.now row.now }
{
    match row.field(0) {
        Some(field) => field == text,
        None => false,
    }
}

/// Where a server's words come from, by the fields after its number.
fn read_source(alloc: Global, row: &Row) -> Result<Option<ServerSource>, AllocError>
    ensures { IfOk result (λ source. source ≡ source_in row.now) }
{
    if let Some((_, kind, text)) = three_fields(row) {
        if kind != b"seed".as_slice() {
            return Ok(None);
        }
        return Ok(read_seed(text).map(ServerSource::Seed));
    }
    if let Some((_, kind, coefficients, masks)) = four_fields(row) {
        if kind != b"tape".as_slice() {
            return Ok(None);
        }
        let coefficients = Name::of(alloc, coefficients)?;
        let (coefficients, masks) = beside(coefficients, Name::of(alloc, masks))?;
        if let Some((coefficients, masks)) = coefficients.zip(masks) {
            return Ok(Some(ServerSource::Tapes {
                coefficients,
                masks,
            }));
        }
    }
    Ok(None)
}

/// The source of the server with this digit, of the row of this number.
fn read_server(
    alloc: Global,
    number: u32,
    row: &Row,
    digit: &[u8],
) -> Result<ServerSource, ReadFault>
    ensures { Answers (λ source. source)
        (reading_at number (server_in digit.now (Some row.now))) result }
{
    if !begins_with(row, digit) {
        return Err(ReadFault::at_row(number, BAD_ROW));
    }
    let Some(source) = read_source(alloc, row)? else {
        return Err(ReadFault::at_row(number, BAD_SOURCE));
    };
    Ok(source)
}

/// Takes the next row, which has this number and the source of the server with this digit.
fn next_server(
    alloc: Global,
    number: u32,
    rows: &mut RowReader,
    row: &mut Row,
    digit: &[u8],
) -> Result<ServerSource, ReadFault>
    ensures source { Answers (λ source. source)
        (reading_at number (server_in digit.now (slice_get rows.old 0))) result }
    ensures row { OnOk result (rows.old ≡ row.new ∷ rows.new) }
{
    if !rows.next(row)? {
        return Err(ReadFault::at_row(number, BAD_ROW));
    }
    read_server(alloc, number, row, digit)
}

/// The three servers, of row 2 and those that are left.
fn read_three(alloc: Global, rows: &mut RowReader, row: &mut Row) -> Result<Servers, ReadFault>
    ensures servers { Answers (λ servers. servers) (three_in (row.old ∷ rows.old)) result }
    ensures rest { OnOk result (rows.new ≡ drop 2 rows.old) }
{
    let one = read_server(alloc, 2, row, b"1")?;
    let (one, two) = beside(one, next_server(alloc, 3, rows, row, b"2"))?;
    let ((one, two), three) = beside((one, two), next_server(alloc, 4, rows, row, b"3"))?;
    Ok(Servers::Three(Trio { one, two, three }))
}

/// The bundle of a row 2 that begins so.
fn read_bundle(alloc: Global, row: &Row) -> Result<Servers, ReadFault>
    ensures { Answers (λ servers. servers) (reading_at 2 (bundle_in row.now)) result }
{
    let Some((_, name)) = two_fields(row) else {
        return Err(ReadFault::at_row(2, BAD_SOURCE));
    };
    let Some(name) = Name::of(alloc, name)? else {
        return Err(ReadFault::at_row(2, BAD_SOURCE));
    };
    Ok(Servers::Bundle(name))
}

/// Refuses a row that is left, which has this number.
fn no_more(rows: &mut RowReader, row: &mut Row, number: u32) -> Result<(), ReadFault>
    ensures { MatchResult result (λ _. slice_get rows.old 0 ≡ None)
        (λ fault. (fault ≡ OutOfMemory)
        ⊎ ((slice_get rows.old 0 ≡ Some row.new) × (fault ≡ Bad (AtRow number) TOO_MANY))) }
{
    if rows.next(row)? {
        return Err(ReadFault::at_row(number, TOO_MANY));
    }
    Ok(())
}

/// The servers, unless a row is left, which has this number.
fn without_more(
    rows: &mut RowReader,
    row: &mut Row,
    number: u32,
    servers: Servers,
) -> Result<Servers, ReadFault>
    ensures { Answers (λ servers. servers)
        (last_before number (slice_get rows.old 0) (Ok servers)) result }
{
    let (servers, ()) = beside(servers, no_more(rows, row, number))?;
    Ok(servers)
}

/// What the rows that are left say, which are those after the first.
fn read_sources(alloc: Global, rows: &mut RowReader, row: &mut Row) -> Result<Servers, ReadFault>
    ensures { Answers (λ servers. servers) (sources_in rows.old) result }
{
    if !rows.next(row)? {
        return Err(ReadFault::at_row(2, BAD_ROW));
    }
    if begins_with(row, b"bundle") {
        let servers = read_bundle(alloc, row)?;
        return without_more(rows, row, 3, servers);
    }
    let servers = read_three(alloc, rows, row)?;
    without_more(rows, row, 5, servers)
}

/// What all rows say.
fn read_rows(alloc: Global, rows: &mut RowReader, row: &mut Row) -> Result<Servers, ReadFault>
    ensures { Answers (λ servers. servers) (servers_in rows.old) result }
{
    if !rows.begins_with(row, b"beet-servers", b"1")? {
        return Err(ReadFault::at_row(1, BAD_HEADER));
    }
    read_sources(alloc, rows, row)
}

/// Where the words come from, of a servers file: the row `beet-servers,1` and then either the row `bundle,NAME`, or a
/// row for each of the servers 1, 2 and 3 in order, `S,seed,HEX` or `S,tape,COEFFICIENTS,MASKS`.
///
/// The first row with a fault is named. Its reason is [`BAD_HEADER`] for row 1, and for a further row the first that
/// stands against it of [`BAD_ROW`], [`BAD_SOURCE`] and [`TOO_MANY`].
pub fn read_servers(alloc: Global, bytes: &[u8]) -> Result<Servers, ReadFault>
    requires { length bytes.now ≤ LONGEST_FILE }
    ensures { Answers (λ servers. servers) (servers_of bytes.now) result }
{
    let mut rows = RowReader::new(alloc, bytes);
    let mut row = Row::new(alloc);
    read_rows(alloc, &mut rows, &mut row)
}
