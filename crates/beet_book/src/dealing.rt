//! Dealing the quantities of bidders.

ghost use Rattle.std.specs.Prelude.{◌≡◌, ◌≤◌, ◌<◌, ◌*◌, ◌++◌, slice_index, length, All, IfOk, IsOkAnd, OnErr};
ghost use Rattle.beet_field.specs.Trio.{member};
ghost use Rattle.beet_words.specs.Tapes.{drawn_from, left_of};
ghost use Rattle.beet_bids.specs.Curves.{IsOfGrid};
ghost use Rattle.beet_shamir.specs.Line.{points_of};
ghost use Rattle.beet_book.specs.Columns.{HasRoom, pushed};
ghost use Rattle.beet_book.specs.Dealing.{AreShares, CanDealEach, DealsBidder, DealsEach, DealsOver, HasLengths};
ghost use Rattle.beet_book.specs.Dealing.{quantities};

use crate::columns::Columns;
use beet_bids::{Curve, Grid};
use beet_field::{Fe, Point, Trio};
use beet_forms::beside;
use beet_parts::{Parts, in_parts};
use beet_shamir::deal;
use beet_words::{FeList, Tape};
use std::alloc::{AllocError, Global};
use std::marker::{Model, Sync};
use std::thread::Threads;

/// The points of one bidder at the three servers: buy at each place of the grid, and then sell at each place.
#[derive(Drop)]
pub struct Dealt {
    points: Trio<FeList>,
}

impl Model for Dealt {
    ghost use Rattle.std.specs.Prelude.{ℕ, List};
    ghost use Rattle.beet_field.specs.declared.trio.Trio.{Trio as Each};

    ghost Value = { Each (List ℕ) };

    ghost view = { λ a. a.points };
}

impl Dealt {
    /// The points that the three servers were given. They need not lie on lines.
    pub fn of(grid: &Grid, points: Trio<FeList>) -> Dealt
        requires { HasLengths points (2 * grid.now.prices) }
        ensures { result ≡ points }
    {
        Dealt { points }
    }

    /// The points of one server.
    pub fn points(&self, at: Point) -> &[Fe]
        ensures { result.now ≡ member self.now at }
    {
        self.points.get(at).as_slice()
    }

    /// The points of all three servers, given away.
    pub fn into_points(self) -> Trio<FeList>
        ensures { result ≡ self }
    {
        self.points
    }
}

/// Deals one value, by the next number of the tape.
fn deal_next(columns: &mut Columns, value: u64, tape: &mut Tape)
    requires room { HasRoom columns.old }
    requires word { 0 < length (left_of tape.old) }

    ensures points { columns.new ≡
        pushed columns.old (points_of value (slice_index (left_of tape.old) 0)) }
    ensures drawn { tape.new ≡ drawn_from tape.old 1 }
{
    let slope = tape.draw();
    columns.push(deal(Fe::reduce(value as u128), slope));
}

/// Deals the quantities of a bidder to the three servers, by Shamir's lines (1979). The slopes are drawn from the tape,
/// first for buy at each place of the grid and then for sell. If memory runs out, the tape is as before.
pub fn deal_bidder(
    alloc: Global,
    grid: &Grid,
    curve: &Curve,
    tape: &mut Tape,
) -> Result<Dealt, AllocError>
    requires of_grid { IsOfGrid grid.now curve.now }
    requires words { 2 * grid.now.prices ≤ length (left_of tape.old) }

    ensures dealt { IfOk result (λ dealt. DealsBidder curve.now tape.old tape.new dealt) }
    ensures shares { IfOk result (AreShares (quantities curve.now)) }
    ensures lengths { IfOk result (λ dealt. HasLengths dealt (2 * grid.now.prices)) }
    ensures refused { OnErr result (tape.new ≡ tape.old) }
{
    let prices = grid.prices();
    let mut columns = Columns::new(alloc, 2 * prices)?;
    for place in 0..prices {
        deal_next(&mut columns, curve.buy(place), tape);
    }
    for place in 0..prices {
        deal_next(&mut columns, curve.sell(place), tape);
    }
    Ok(Dealt::of(grid, columns.into_points()))
}

/// Deals the curves one after another.
fn deal_in_order(
    alloc: Global,
    grid: &Grid,
    curves: &[Curve],
    tapes: &mut [Tape],
) -> Result<Vec<Dealt>, AllocError>
    requires { CanDealEach grid.now curves.now tapes.old }
    ensures { IfOk result (λ dealt. DealsOver grid.now curves.now tapes.old tapes.new dealt.items) }
{
    let mut dealt = Vec::with_capacity(alloc, curves.len())?;
    for (i, tape) in tapes.iter_mut().enumerate() {
        dealt.push_reserved(deal_bidder(alloc, grid, &curves[i], tape)?);
    }
    Ok(dealt)
}

/// The points of two parts as one list.
fn joined(
    few: Result<Vec<Dealt>, AllocError>,
    rest: Result<Vec<Dealt>, AllocError>,
) -> Result<Vec<Dealt>, AllocError>
    ensures { IfOk result (λ dealt. IsOkAnd few (λ front. IsOkAnd rest (λ back.
        dealt.items ≡ front.items ++ back.items))) }
{
    let (rest, dealt) = beside(rest, few)?;
    let (mut dealt, mut others) = beside(dealt, rest)?;
    dealt.append(&mut others)?;
    Ok(dealt)
}

/// The curves of a grid, each of which is dealt by a tape that is lent to it.
#[derive(Drop)]
struct Curves<'a> {
    grid: &'a Grid,
    curves: &'a [Curve],
}

impl Parts<Tape, Result<Vec<Dealt>, AllocError>> for Curves<'_> {
    ghost use Rattle.std.specs.Prelude.{◌+◌};
    ghost use Rattle.std.specs.List.{slice_range};
    ghost use Rattle.beet_book.specs.Dealing.{CanDealPart};
    ghost use Rattle.beet_book.specs.Splits.{deal-splits};

    ghost can = { λ s from count tapes. CanDealPart s.grid.now s.curves.now from count tapes };

    ghost does = { λ s from count old new result. IfOk result
        (λ dealt. DealsOver s.grid.now (slice_range s.curves.now from (from + count)) old new dealt.items) };

    ghost splits = { λ s from few rest front back. deal-splits s.grid.now s.curves.now from few rest front back };

    fn in_order(
        &self,
        alloc: Global,
        from: usize,
        count: usize,
        own: &mut [Tape],
    ) -> Result<Vec<Dealt>, AllocError> {
        deal_in_order(alloc, self.grid, &self.curves[from..from + count], own)
    }

    fn join(
        &self,
        few: Result<Vec<Dealt>, AllocError>,
        rest: Result<Vec<Dealt>, AllocError>,
    ) -> Result<Vec<Dealt>, AllocError> {
        joined(few, rest)
    }
}

/// Deals each curve by its own tape, as `deal_bidder` does, by a thread for each processor. If memory runs out,
/// nothing is known of how far the tapes are passed.
pub fn deal_many<R: Threads + Sync>(
    rt: &R,
    alloc: Global,
    grid: &Grid,
    curves: &[Curve],
    tapes: &mut [Tape],
) -> Result<Vec<Dealt>, AllocError>
    requires paired { length tapes.old ≡ length curves.now }
    requires of_grid { All (IsOfGrid grid.now) curves.now }
    requires words { All (λ tape. 2 * grid.now.prices ≤ length (left_of tape)) tapes.old }

    ensures dealt { IfOk result (λ dealt. DealsEach curves.now tapes.old tapes.new dealt.items) }
    ensures lengths { IfOk result
        (λ dealt. All (λ points. HasLengths points (2 * grid.now.prices)) dealt.items) }
{
    in_parts(rt, alloc, &Curves { grid, curves }, curves.len(), tapes)
}
