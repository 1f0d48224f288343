//! Many bidders that are dealt at the same time, and blocks of them that are added.

ghost use Rattle.std.specs.Prelude.{◌≡◌, ◌≤◌, ◌*◌, All, length};
ghost use Rattle.beet_book.specs.Dealing.{HasLengths};

use super::samples::grid_of;
use beet_bids::{Curve, Grid};
use beet_book::{Dealt, MOST_IN_BLOCK, Totals, deal_bidder, deal_many};
use beet_field::{Point, Trio};
use beet_words::{FeList, Tape};
use std::alloc::Global;
use std::marker::Sync;
use std::process::Abort;
use std::thread::Threads;

/// Deals these curves by these tapes.
pub fn deal_all<R: Abort + Threads + Sync>(
    rt: &R,
    alloc: Global,
    grid: &Grid,
    curves: &[Curve],
    tapes: &mut [Tape],
) -> Vec<Dealt>
    ensures { All (λ points. HasLengths points (2 * grid.now.prices)) result.items }
{
    assert!(rt; curves.iter().all(|curve| curve.is_of(grid)));
    assert!(rt;
        tapes
            .iter()
            .all(|tape| tape.accepted_left() >= 2 * grid.prices())
    );
    assert!(rt; tapes.len() == curves.len());
    deal_many(rt, alloc, grid, curves, tapes).expect(rt, "memory")
}

/// The curve of the bidder of this number, at four prices.
fn curve_of(rt: &impl Abort, alloc: Global, grid: &Grid, number: u32) -> Curve {
    let step = u64::from(number);
    let buy = Vec::from_slice(alloc, &[3 * step, 2 * step, step, 0]).expect(rt, "memory");
    let sell = Vec::from_slice(alloc, &[0, 1, step + 1, step + 7]).expect(rt, "memory");
    Curve::of(grid, buy, sell).expect(rt, "a curve")
}

/// The curves of so many bidders.
fn curves_of(rt: &impl Abort, alloc: Global, grid: &Grid, count: u32) -> Vec<Curve> {
    let mut curves = Vec::new(alloc);
    for number in 0..count {
        curves
            .push(curve_of(rt, alloc, grid, number))
            .expect(rt, "memory");
    }
    curves
}

/// The tapes of so many bidders, each of ten words of its own, of which two are left over.
fn tapes_of(rt: &impl Abort, alloc: Global, count: u32) -> Vec<Tape> {
    let mut tapes = Vec::new(alloc);
    for number in 0..count {
        let tape = Tape::of_seed(alloc, &[9; 32], u64::from(number), 10).expect(rt, "memory");
        tapes.push(tape).expect(rt, "memory");
    }
    tapes
}

/// Whether two bidders have the same points at each server.
fn agree(one: &Dealt, other: &Dealt) -> bool {
    one.points(Point::One) == other.points(Point::One)
        && one.points(Point::Two) == other.points(Point::Two)
        && one.points(Point::Three) == other.points(Point::Three)
}

/// Compares the points of a bidder, and how far its tape is passed, with what it is dealt alone by a tape as it was
/// before.
fn expect_alone(
    rt: &impl Abort,
    alloc: Global,
    grid: &Grid,
    curve: &Curve,
    before: &mut Tape,
    dealt: &Dealt,
    tape: &Tape,
) {
    assert!(rt; curve.is_of(grid));
    assert!(rt; before.accepted_left() >= 2 * grid.prices());
    let alone = deal_bidder(alloc, grid, curve, before).expect(rt, "memory");
    let agree = agree(dealt, &alone);
    drop(alone);
    assert!(rt; agree);
    assert!(rt; tape.masks_left() == 2 && before.masks_left() == 2);
}

/// Compares each of so many bidders with what it is dealt alone by its tape as it was before.
fn expect_all_alone(
    rt: &impl Abort,
    alloc: Global,
    grid: &Grid,
    curves: &[Curve],
    before: &mut [Tape],
    dealt: &[Dealt],
    tapes: &[Tape],
) {
    assert!(rt; curves.len() == dealt.len() && tapes.len() == dealt.len());
    for (i, before) in before.iter_mut().enumerate() {
        assert!(rt; i < dealt.len());
        expect_alone(rt, alloc, grid, &curves[i], before, &dealt[i], &tapes[i]);
    }
}

/// Deals so many bidders at once, and compares each with what it is dealt alone.
fn expect_each_alone<R: Abort + Threads + Sync>(rt: &R, alloc: Global, grid: &Grid, count: u32) {
    let curves = curves_of(rt, alloc, grid, count);
    let mut tapes = tapes_of(rt, alloc, count);
    let mut before = tapes_of(rt, alloc, count);
    let dealt = deal_all(rt, alloc, grid, &curves, &mut tapes);
    assert!(rt; dealt.len() == count as usize);
    expect_all_alone(rt, alloc, grid, &curves, &mut before, &dealt, &tapes);
}

#[test]
fn many_are_dealt_as_each_alone(rt: HostRuntime) {
    let grid = grid_of(&rt, 4);
    for count in [0, 1, 2, 63, 64, 65] {
        expect_each_alone(&rt, rt.alloc(), &grid, count);
    }
}

/// The totals of bidders that are added one by one.
fn added_each(rt: &impl Abort, alloc: Global, grid: &Grid, dealt: &[Dealt]) -> Totals
    requires { All (λ points. HasLengths points (2 * grid.now.prices)) dealt.now }
    ensures { result.prices ≡ grid.now.prices }
{
    let mut totals = Totals::new(alloc, grid).expect(rt, "memory");
    for bidder in dealt {
        totals.add(bidder);
    }
    totals
}

/// The totals of bidders that are added as a block.
fn added_block(rt: &impl Abort, alloc: Global, grid: &Grid, dealt: &[Dealt]) -> Totals
    requires few { length dealt.now ≤ MOST_IN_BLOCK }
    requires lengths { All (λ points. HasLengths points (2 * grid.now.prices)) dealt.now }
{
    let mut totals = Totals::new(alloc, grid).expect(rt, "memory");
    totals.add_block(dealt);
    totals
}

/// The totals of bidders that are added in two parts, which are merged.
fn merged(rt: &impl Abort, alloc: Global, grid: &Grid, few: &[Dealt], rest: &[Dealt]) -> Totals
    requires few { All (λ points. HasLengths points (2 * grid.now.prices)) few.now }
    requires rest { All (λ points. HasLengths points (2 * grid.now.prices)) rest.now }
{
    let mut totals = added_each(rt, alloc, grid, few);
    let others = added_each(rt, alloc, grid, rest);
    totals.merge(&others);
    totals
}

/// Whether each server has the same points twice.
fn are_same_points(one: &Trio<FeList>, other: &Trio<FeList>) -> bool {
    one.one.as_slice() == other.one.as_slice()
        && one.two.as_slice() == other.two.as_slice()
        && one.three.as_slice() == other.three.as_slice()
}

/// Whether two totals are the same.
fn are_same(one: Totals, other: Totals) -> bool {
    let (one, other) = (one.inputs(), other.inputs());
    are_same_points(&one, &other)
}

/// Compares the totals of bidders that are added as a block, and in two parts, with those of each added by itself.
fn expect_block(rt: &impl Abort, alloc: Global, grid: &Grid, dealt: &[Dealt])
    requires { All (λ points. HasLengths points (2 * grid.now.prices)) dealt.now }
{
    assert!(rt; dealt.len() <= MOST_IN_BLOCK);
    let block = added_block(rt, alloc, grid, dealt);
    assert!(rt; are_same(block, added_each(rt, alloc, grid, dealt)));
    let (few, rest) = dealt.split_at(dealt.len() / 2);
    let parts = merged(rt, alloc, grid, few, rest);
    assert!(rt; are_same(parts, added_each(rt, alloc, grid, dealt)));
}

/// Deals so many bidders, and adds them as a block.
fn expect_block_of<R: Abort + Threads + Sync>(rt: &R, alloc: Global, grid: &Grid, count: u32) {
    let curves = curves_of(rt, alloc, grid, count);
    let mut tapes = tapes_of(rt, alloc, count);
    let dealt = deal_all(rt, alloc, grid, &curves, &mut tapes);
    assert!(rt; dealt.len() == count as usize);
    expect_block(rt, alloc, grid, &dealt);
}

#[test]
fn a_block_is_added_as_each_by_itself(rt: HostRuntime) {
    let grid = grid_of(&rt, 4);
    for count in [0, 1, 64] {
        expect_block_of(&rt, rt.alloc(), &grid, count);
    }
}
