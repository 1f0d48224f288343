//! Envelopes: the points of a bidder for one server.

ghost use Rattle.std.specs.Prelude.{◌≡◌, ◌≤◌, ◌+◌, ◌*◌, length, All, IfOk, OnOk, Ok};
ghost use Rattle.beet_field.specs.Field.{IsElement};
ghost use Rattle.beet_forms.specs.Faults.{Answers};
ghost use Rattle.beet_forms.specs.declared.faults.TheConstants.{LONGEST_FILE};
ghost use Rattle.beet_bids.specs.Grids.{IsGrid};
ghost use Rattle.beet_farmer.specs.Envelopes.{only as only_number, below_p, after_header, envelope_of, header_bytes};
ghost use Rattle.beet_farmer.specs.Envelopes.{envelope_bytes};

use beet_bids::Grid;
use beet_field::{P, Point};
use beet_forms::ReadFault;
use beet_words::{
    Allowed, BAD_MAGIC, FeList, push_number, push_points, read_end, read_magic, read_number,
    read_points,
};
use std::alloc::{AllocError, Global};

/// The points of a bidder for one server.
#[derive(Drop)]
pub struct Envelope {
    /// The server that the points are for.
    pub server: Point,
    /// The points: buy at each place of the grid, and then sell at each place.
    pub points: FeList,
}

/// The most bytes of an envelope.
pub const ENVELOPE_LIMIT: u64 = 131_072;

/// The reason against a base, a tick or a number of prices that is not the grid's.
pub const WRONG_GRID: u32 = 2;

/// The reason against a field that is cut off.
pub const TRUNCATED_ENVELOPE: u32 = 3;

/// The reason against a point of 2^61 - 1 or more.
pub const BAD_POINT: u32 = 4;

/// The reason against bytes after the last point.
pub const AFTER_POINTS: u32 = 5;

/// The reason against another server.
pub const WRONG_SERVER: u32 = 6;

/// The text that an envelope begins with.
const MAGIC: &[u8] = b"BEETENV1";

/// How many bytes stand before the points.
const HEADER: usize = 40;

/// How many bytes the two points at a price have.
const PRICE: usize = 16;

/// The one number that a field may hold.
fn only(number: u64, reason: u32) -> Allowed
    ensures { result ≡ only_number number reason }
{
    Allowed {
        low: number,
        high: number,
        truncated: TRUNCATED_ENVELOPE,
        outside: reason,
    }
}

/// The numbers that a point may be.
fn point() -> Allowed
    ensures { result ≡ below_p }
{
    Allowed {
        low: 0,
        high: P - 1,
        truncated: TRUNCATED_ENVELOPE,
        outside: BAD_POINT,
    }
}

/// The offset after the fields before the points, which have to name this server and this grid.
#[tactic(auto, unfolding(crate::specs::Envelopes::after_header))]
fn read_header(grid: &Grid, server: Point, bytes: &[u8]) -> Result<usize, ReadFault>
    ensures header { Answers (λ at. at) (after_header grid.now server bytes.now) result }
    ensures within { IfOk result (λ at. at ≤ length bytes.now) }
{
    let at = read_magic(bytes, MAGIC, BAD_MAGIC)?;
    let (_, at) = read_number(bytes, only(server.number(), WRONG_SERVER), at)?;
    let (_, at) = read_number(bytes, only(grid.base(), WRONG_GRID), at)?;
    let (_, at) = read_number(bytes, only(grid.tick(), WRONG_GRID), at)?;
    let (_, at) = read_number(bytes, only(grid.prices() as u64, WRONG_GRID), at)?;
    Ok(at)
}

/// The envelope for this server, of this grid.
///
/// The first place from the left that breaks the format is named: the front as [`BAD_MAGIC`]; a field that is cut off
/// as [`TRUNCATED_ENVELOPE`]; the server as [`WRONG_SERVER`]; a base, a tick or a number of prices as [`WRONG_GRID`]; a
/// point as [`BAD_POINT`]; the first byte after the last point as [`AFTER_POINTS`]. The file is gone over once, and
/// memory is taken for no more points than it can hold.
#[tactic(auto, unfolding(crate::specs::Envelopes::envelope_of))]
pub fn read_envelope(
    alloc: Global,
    grid: &Grid,
    server: Point,
    bytes: &[u8],
) -> Result<Envelope, ReadFault>
    requires { length bytes.now ≤ LONGEST_FILE }
    ensures reads { Answers (λ envelope. envelope) (envelope_of grid.now server bytes.now) result }
    ensures lengths { IfOk result (λ envelope. length envelope.points ≡ 2 * grid.now.prices) }
{
    let at = read_header(grid, server, bytes)?;
    let (points, at) = read_points(alloc, bytes, point(), 2 * grid.prices() as u64, at)?;
    read_end(bytes, AFTER_POINTS, at)?;
    Ok(Envelope { server, points })
}

/// A file that has what stands before the points, and room for these.
fn begin_file(alloc: Global, grid: &Grid, server: Point) -> Result<Vec<u8>, AllocError>
    ensures bytes { IfOk result (λ file. file.items ≡ header_bytes grid.now server) }
    ensures limits { OnOk result (IsGrid grid.now) }
{
    let mut file = Vec::with_capacity(alloc, HEADER + PRICE * grid.prices() as usize)?;
    file.extend_from_slice(MAGIC)?;
    push_number(&mut file, server.number())?;
    push_number(&mut file, grid.base())?;
    push_number(&mut file, grid.tick())?;
    push_number(&mut file, grid.prices() as u64)?;
    Ok(file)
}

fn bytes_of(alloc: Global, grid: &Grid, envelope: &Envelope) -> Result<Vec<u8>, AllocError>
    ensures bytes { IfOk result (λ file. file.items ≡ envelope_bytes grid.now envelope.now) }
    ensures limits { OnOk result (IsGrid grid.now) }
    ensures points { OnOk result (All IsElement envelope.now.points) }
{
    let mut file = begin_file(alloc, grid, envelope.server)?;
    push_points(&mut file, envelope.points.as_slice())?;
    Ok(file)
}

/// The file of an envelope of this grid, with two points for each price. Want of memory is the only error.
pub fn write_envelope(
    alloc: Global,
    grid: &Grid,
    envelope: &Envelope,
) -> Result<Vec<u8>, AllocError>
    requires { length envelope.now.points ≡ 2 * grid.now.prices }
    ensures bytes { IfOk result (λ file. file.items ≡ envelope_bytes grid.now envelope.now) }
    ensures again { IfOk result
        (λ file. envelope_of grid.now envelope.now.server file.items ≡ Ok envelope.now) }
    ensures size { IfOk result (λ file. length file.items ≡ HEADER + PRICE * grid.now.prices) }
{
    let file = bytes_of(alloc, grid, envelope)?;
    Ok(file)
}
