ghost use Rattle.std.specs.Prelude.{◌≡◌, ◌*◌, length};
ghost use Rattle.beet_bids.specs.Curves.{IsOfGrid};
ghost use Rattle.beet_book.specs.Dealing.{HasLengths};
ghost use Rattle.beet_farmer.specs.Sealing.{points_in};

use super::samples::{
    Kind, POINTS, Refused, are, expect_offset, expect_refusals, grid_of, tape_of_eight,
};
use beet_bids::{Curve, Grid, read_bid};
use beet_farmer::{Envelope, ListEntry, read_envelope, read_list, seal, write_envelope};
use beet_field::{P, Point, Trio};
use beet_forms::ReadFault;
use beet_words::Tape;
use std::alloc::Global;
use std::process::Abort;

/// The envelopes of a curve, by which the tape is used up.
fn seal_all(
    rt: &impl Abort,
    alloc: Global,
    grid: &Grid,
    curve: &Curve,
    tape: &mut Tape,
) -> Trio<Envelope>
    requires { IsOfGrid grid.now curve.now }
    ensures { HasLengths (points_in result) (2 * grid.now.prices) }
{
    assert!(rt; tape.accepted_left() >= 2 * grid.prices());
    let envelopes = seal(alloc, grid, curve, tape).expect(rt, "memory");
    assert!(rt; tape.masks_left() == 0);
    envelopes
}

/// The envelopes of a buyer, dealt by the words from 1 to 8.
fn sealed(rt: &impl Abort, alloc: Global, grid: &Grid) -> Trio<Envelope>
    ensures { HasLengths (points_in result) (2 * grid.now.prices) }
{
    let bid = b"beet-bid,1\n100,45,0\n110,30,0\n115,10,0\n";
    let curve = read_bid(alloc, grid, bid).expect(rt, "a curve");
    let mut tape = tape_of_eight(rt, alloc);
    seal_all(rt, alloc, grid, &curve, &mut tape)
}

/// Whether the file is one of 104 bytes, which the server reads as its envelope with these points.
fn is_file(
    rt: &impl Abort,
    alloc: Global,
    grid: &Grid,
    server: Point,
    file: &[u8],
    points: &[u64],
) -> bool {
    assert!(rt; file.len() == SIZE);
    read_envelope(alloc, grid, server, file).is_ok_and(|read| read.server == server
        && are(read.points.as_slice(), points))
}

/// Compares an envelope, and its file, with one for this server with these points.
fn expect_envelope(
    rt: &impl Abort,
    alloc: Global,
    grid: &Grid,
    envelope: &Envelope,
    server: Point,
    points: &[u64],
)
    requires { length envelope.now.points ≡ 2 * grid.now.prices }
{
    assert!(rt; envelope.server == server);
    assert!(rt; are(envelope.points.as_slice(), points));
    let file = write_envelope(alloc, grid, envelope).expect(rt, "memory");
    assert!(rt; is_file(rt, alloc, grid, server, &file, points));
}

/// Compares the envelopes of the buyer.
fn expect_envelopes(rt: &impl Abort, alloc: Global, grid: &Grid, envelopes: &Trio<Envelope>)
    requires { HasLengths (points_in envelopes.now) (2 * grid.now.prices) }
{
    let Trio { one, two, three } = envelopes;
    expect_envelope(rt, alloc, grid, one, Point::One, POINTS.one);
    expect_envelope(rt, alloc, grid, two, Point::Two, POINTS.two);
    expect_envelope(rt, alloc, grid, three, Point::Three, POINTS.three);
}

#[test]
fn sealing(rt: HostRuntime) {
    let grid = grid_of(&rt, 4);
    let envelopes = sealed(&rt, rt.alloc(), &grid);
    expect_envelopes(&rt, rt.alloc(), &grid, &envelopes);
}

/// How many bytes an envelope of four prices has.
const SIZE: usize = 104;

/// The buyer's envelope for server 1 as a file.
fn file_one(rt: &impl Abort, alloc: Global) -> Vec<u8> {
    let grid = grid_of(rt, 4);
    let envelopes = sealed(rt, alloc, &grid);
    write_envelope(alloc, &grid, &envelopes.one).expect(rt, "memory")
}

/// Expects that the first bytes of an envelope are refused by a server.
fn expect_refused(
    rt: &impl Abort,
    alloc: Global,
    server: Point,
    file: &[u8],
    count: usize,
    offset: u64,
    reason: u32,
) {
    assert!(rt; count <= file.len() && count <= 200);
    let found = read_envelope(alloc, &grid_of(rt, 4), server, &file[..count]).err();
    expect_offset(rt, found, offset, reason);
}

/// Gives the buyer's envelope to another server, and changes its tick.
fn expect_others(rt: &impl Abort, alloc: Global, file: &mut [u8]) {
    assert!(rt; file.len() == SIZE);
    expect_refused(rt, alloc, Point::Two, file, SIZE, 8, 6);
    file[31] = 6;
    expect_refused(rt, alloc, Point::One, file, SIZE, 24, 2);
    expect_refused(rt, alloc, Point::Two, file, SIZE, 8, 6);
}

#[test]
fn other_envelopes(rt: HostRuntime) {
    expect_others(&rt, rt.alloc(), &mut file_one(&rt, rt.alloc()));
}

/// Cuts the buyer's envelope off before each of its bytes.
fn expect_cuts(rt: &impl Abort, alloc: Global, file: &[u8]) {
    for count in 0..8 {
        expect_refused(rt, alloc, Point::One, file, count, 0, 1);
    }
    for count in 8..SIZE {
        let whole = count as u64 / 8 * 8;
        expect_refused(rt, alloc, Point::One, file, count, whole, 3);
    }
    expect_refused(rt, alloc, Point::Two, file, 15, 8, 3);
}

#[test]
fn cut_envelopes(rt: HostRuntime) {
    expect_cuts(&rt, rt.alloc(), &file_one(&rt, rt.alloc()));
}

/// Puts the numbers p and p - 1 in the place of the first point.
fn expect_numbers(rt: &impl Abort, alloc: Global, file: &mut [u8]) {
    assert!(rt; file.len() == SIZE);
    file[40..48].copy_from_slice(&P.to_be_bytes());
    expect_refused(rt, alloc, Point::One, file, SIZE, 40, 4);
    file[47] = 0xfe;
    let points = [P - 1, 47, 33, 14, 5, 6, 7, 8];
    assert!(rt; is_file(rt, alloc, &grid_of(rt, 4), Point::One, file, &points));
}

#[test]
fn points(rt: HostRuntime) {
    let mut file = file_one(&rt, rt.alloc());
    expect_numbers(&rt, rt.alloc(), &mut file);
    file.push(0).expect(&rt, "memory");
    expect_refused(&rt, rt.alloc(), Point::One, &file, SIZE + 1, 104, 5);
}

/// Lists, and how they are refused.
const LISTS: [Refused; 4] = [
    (Some((1, 1)), &["", "beet-book,1\n"]),
    (Some((2, 2)), &["beet-list,1\nanna,a.1,a.2\n"]),
    (Some((3, 2)), &["beet-list,1\nbo,1,2,3\nanna,a.1,,a.3\n"]),
    (Some((3, 4)), &["beet-list,1\nbo,1,2,3\nbo,4,5,6\n"]),
];

fn entries_of(rt: &impl Abort, alloc: Global, text: &str) -> Result<Vec<ListEntry>, ReadFault> {
    assert!(rt; text.len() <= 4_194_304);
    read_list(alloc, text.as_bytes())
}

/// Compares the entries of two bidders.
fn expect_two(rt: &impl Abort, entries: &[ListEntry]) {
    assert!(rt; entries.len() == 2);
    assert!(rt; entries[0].name.as_str() == "anna");
    assert!(rt; entries[1].envelopes.one.as_str() == "b.1");
    assert!(rt; entries[1].envelopes.three.as_str() == "b.3");
}

/// Compares how many entries a list has.
fn expect_count(rt: &impl Abort, alloc: Global, text: &str, count: usize) {
    let entries = entries_of(rt, alloc, text).expect(rt, "a list");
    assert!(rt; entries.len() == count);
}

#[test]
fn lists(rt: HostRuntime) {
    expect_refusals(&rt, rt.alloc(), Kind::List, &LISTS);
    expect_count(&rt, rt.alloc(), "beet-list,1\n", 0);
    let text = "beet-list,1\nanna,a.1,a.2,a.3\nbo,b.1,b.2,b.3\n";
    let entries = entries_of(&rt, rt.alloc(), text).expect(&rt, "a list");
    expect_two(&rt, &entries);
}
