//! The reader of the servers file of five servers: each has a seed.

ghost use Rattle.std.specs.Prelude.{◌≡◌, ◌≤◌, ◌-◌, ◌∷◌, [], codes, length, slice_get};
ghost use Rattle.beet_forms.specs.Faults.{Answers};
ghost use Rattle.beet_forms.specs.Rows.{begins_with as rows_begin_with};
ghost use Rattle.beet_forms.specs.declared.faults.TheConstants.{LONGEST_FILE};
ghost use Rattle.beet_book.specs.NamedRows.{reading_at};
ghost use Rattle.beet_book.specs.ServerFiles.{begins};
ghost use Rattle.beet_five_load.specs.FiveServerFiles.{five_seeds_in, five_seeds_of, is_bundle, seed_at, seed_in};
ghost use Rattle.beet_five_load.specs.FiveServerFiles.{seeds_in};

use beet_book::{BAD_SOURCE, TOO_MANY};
use beet_forms::{BAD_HEADER, BAD_ROW, ReadFault, Row, is_header, rows, three_fields};
use beet_words::read_seed;
use std::alloc::Global;

/// The seeds of five servers, in order.
pub(crate) type Seeds = [[u8; 32]; 5];

/// Whether the first field of a row is this text.
fn begins_with(row: &Row, text: &[u8]) -> bool
    ensures { result ≡ begins text.now row.now }
{
    match row.field(0) {
        Some(field) => field == text,
        None => false,
    }
}

/// The seed of a row `S,seed,HEX`, or none if it is another row.
fn seed_in(row: &Row) -> Option<[u8; 32]>
    ensures { result ≡ seed_in row.now }
{
    let (_, kind, text) = three_fields(row)?;
    if kind == b"seed".as_slice() {
        read_seed(text)
    } else {
        None
    }
}

/// The seed of the server with this digit, of the row of this number.
fn seed_at(rows: &[Row], number: u32, digit: &[u8]) -> Result<[u8; 32], ReadFault>
    requires { 1 ≤ number }
    ensures { Answers (λ seed. seed)
        (reading_at number (seed_at digit.now (slice_get rows.now (number - 1)))) result }
{
    let Some(row) = rows.get(number as usize - 1) else {
        return Err(ReadFault::at_row(number, BAD_ROW));
    };
    if !begins_with(row, digit) {
        return Err(ReadFault::at_row(number, BAD_ROW));
    }
    match seed_in(row) {
        Some(seed) => Ok(seed),
        None => Err(ReadFault::at_row(number, BAD_SOURCE)),
    }
}

/// Whether row 2 begins as that of a bundle.
fn have_bundle(rows: &[Row]) -> bool
    ensures { result ≡ is_bundle (slice_get rows.now 1) }
{
    match rows.get(1) {
        Some(row) => begins_with(row, b"bundle"),
        None => false,
    }
}

/// The seeds of the servers, of all rows.
fn read_seeds(rows: &[Row]) -> Result<Seeds, ReadFault>
    ensures { Answers (λ seeds. seeds) (seeds_in rows.now) result }
{
    if have_bundle(rows) {
        return Err(ReadFault::at_row(2, BAD_SOURCE));
    }
    let mut seeds = [[0; 32]; 5];
    for i in 0..5 {
        seeds[i] = seed_at(rows, i as u32 + 2, &[b'1' + i as u8])?;
    }
    Ok(seeds)
}

/// Whether the first of the rows is the header.
fn have_header(rows: &[Row]) -> bool
    ensures { result ≡ rows_begin_with rows.now (codes "beet-servers" ∷ codes "5" ∷ []) }
{
    match rows.first() {
        Some(row) => is_header(row, b"beet-servers", b"5"),
        None => false,
    }
}

/// What all rows say.
fn read_rows(rows: &[Row]) -> Result<Seeds, ReadFault>
    ensures { Answers (λ seeds. seeds) (five_seeds_in rows.now) result }
{
    if !have_header(rows) {
        return Err(ReadFault::at_row(1, BAD_HEADER));
    }
    let seeds = read_seeds(rows)?;
    if rows.len() > 6 {
        return Err(ReadFault::at_row(7, TOO_MANY));
    }
    Ok(seeds)
}

/// The seeds of a servers file of five servers: the row `beet-servers,5` and then a row `S,seed,HEX` for each of the
/// servers 1 to 5 in order.
///
/// The first row with a fault is named. Its reason is [`BAD_HEADER`] for row 1, and for a further row the first that
/// stands against it of [`BAD_ROW`], if it is missing or does not begin with the server's number, [`BAD_SOURCE`], if it
/// has not three fields or no seed, and [`TOO_MANY`]. A row 2 that begins with `bundle` has no seed.
pub(crate) fn read_five_seeds(alloc: Global, bytes: &[u8]) -> Result<Seeds, ReadFault>
    requires { length bytes.now ≤ LONGEST_FILE }
    ensures { Answers (λ seeds. seeds) (five_seeds_of bytes.now) result }
{
    let rows = rows(alloc, bytes)?;
    read_rows(rows.as_slice())
}
