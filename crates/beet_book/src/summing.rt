//! The summed points of bidders.

ghost use Rattle.std.specs.Prelude.{◌≡◌, ◌≤◌, ◌<◌, ◌*◌, All, IfOk, length, min};
ghost use Rattle.beet_field.specs.Field.{add_of, mul_of};
ghost use Rattle.beet_words.specs.Seeds.{seed_words};
ghost use Rattle.beet_words.specs.Tapes.{drawn_from, left_of};
ghost use Rattle.beet_words.specs.Words.{accepted};
ghost use Rattle.beet_bids.specs.declared.curve.TheConstants.{LARGEST_QUANTITY};
ghost use Rattle.beet_book.specs.Dealing.{dealt_points, points_by, quantities, shares_of, HasLengths};
ghost use Rattle.beet_book.specs.PointSums.{AddsBlock};
ghost use Rattle.beet_book.specs.Totals.{added, all_added, field_sums, items_of, none_of, wires_of, AddsAllValues};
ghost use Rattle.beet_book.specs.Totals.{AddsQuantities, AddsValues, CarriesValues};

use crate::dealing::Dealt;
use beet_bids::{Curve, Grid};
use beet_field::{Fe, Point, Trio};
use beet_words::{FeList, Tape, draw_seed};
use std::alloc::{AllocError, Global};
use std::marker::Model;

/// The most bidders of a block whose points are added at once.
pub const MOST_IN_BLOCK: usize = 64;

/// The points of several bidders, added up server by server.
#[derive(Drop)]
pub struct Totals {
    prices: u32,
    points: Trio<Vec<Fe>>,
    /// Room for the slopes of a bidder that is dealt.
    slopes: Vec<Fe>,
}

impl Model for Totals {
    ghost use Rattle.std.specs.Prelude.{◌≡◌, ◌*◌, length};
    ghost use Rattle.beet_book.specs.Dealing.{HasLengths};
    ghost use Rattle.beet_book.specs.Totals.{items_of, Totals as Seen};

    ghost Value = { Seen };

    ghost view = { λ a. record { prices = a.prices; points = items_of a.points } };

    ghost invariant = { λ a. HasLengths (items_of a.points) (2 * a.prices)
        × (length a.slopes.items ≡ 2 * a.prices) };
}

/// Adds the points to the sums, place by place.
fn add_each(sums: &mut [Fe], points: &[Fe])
    requires { length points.now ≡ length sums.old }
    ensures { sums.new ≡ field_sums sums.old points.now }
{
    for (i, sum) in sums.iter_mut().enumerate() {
        *sum = sum.add(points[i]);
    }
}

/// The sum with one more point: that at `AT` of the line with this value and slope.
fn with_point<const AT: u64>(sum: Fe, value: u64, slope: Fe) -> Fe
    requires at { AT ≤ 3 }
    requires value { value ≤ LARGEST_QUANTITY }
    ensures { result ≡ add_of sum (add_of value (mul_of slope AT)) }
{
    Fe::reduce_u64(sum.value() + value + AT * slope.value())
}

/// Adds to the sums, place by place, the points at `AT` of the lines with these values and slopes.
fn add_lines<const AT: u64>(sums: &mut [Fe], values: &[u64], slopes: &[Fe])
    requires at { AT ≤ 3 }
    requires values { length values.now ≡ length sums.old }
    requires slopes { length slopes.now ≡ length sums.old }
    requires limit { All (λ value. value ≤ LARGEST_QUANTITY) values.now }
    ensures { sums.new ≡ field_sums sums.old (points_by AT values.now slopes.now) }
{
    for (i, sum) in sums.iter_mut().enumerate() {
        *sum = with_point::<AT>(*sum, values[i], slopes[i]);
    }
}

/// Adds to the sums the points at `AT` of a curve that is dealt with these slopes.
fn add_curve<const AT: u64>(sums: &mut [Fe], curve: &Curve, slopes: &[Fe])
    requires at { AT ≤ 3 }
    requires sums { length (quantities curve.now) ≡ length sums.old }
    requires slopes { length slopes.now ≡ length sums.old }
    ensures { sums.new ≡ field_sums sums.old (points_by AT (quantities curve.now) slopes.now) }
{
    let prices = curve.bought().len();
    let (buying, selling) = slopes.split_at(prices);
    let (bought, sold) = sums.split_at_mut(prices);
    add_lines::<AT>(bought, curve.bought(), buying);
    add_lines::<AT>(sold, curve.sold(), selling);
}

/// Adds to the sums of each server its points of a curve that is dealt with these slopes.
fn add_curve_to_each(sums: &mut Trio<Vec<Fe>>, curve: &Curve, slopes: &[Fe])
    requires sums { HasLengths (items_of sums.old) (length (quantities curve.now)) }
    requires slopes { length slopes.now ≡ length (quantities curve.now) }
    ensures sums { items_of sums.new
        ≡ added (items_of sums.old) (shares_of (quantities curve.now) slopes.now) }
    ensures lengths { HasLengths (items_of sums.new) (length (quantities curve.now)) }
{
    add_curve::<1>(&mut sums.one, curve, slopes);
    add_curve::<2>(&mut sums.two, curve, slopes);
    add_curve::<3>(&mut sums.three, curve, slopes);
}

impl Totals {
    /// The totals of no bidder.
    pub fn new(alloc: Global, grid: &Grid) -> Result<Totals, AllocError>
        ensures { IfOk result (λ totals. totals ≡ none_of grid.now.prices) }
    {
        let prices = grid.prices();
        let count = 2 * prices as usize;
        Ok(Totals {
            prices,
            points: Trio::try_of(|_| vec![in alloc; Fe::default(); count])?,
            slopes: vec![in alloc; Fe::default(); count]?,
        })
    }

    /// Adds the points of a bidder of the same grid at the three servers.
    pub fn add_points(&mut self, one: &[Fe], two: &[Fe], three: &[Fe])
        requires { HasLengths (record { one = one.now; two = two.now; three = three.now })
            (2 * self.old.prices) }
        ensures sums { self.new ≡ record self.old {
          points = added self.old.points (record { one = one.now; two = two.now; three = three.now });
        } }
        ensures values { AddsValues self.old.points
            (record { one = one.now; two = two.now; three = three.now }) self.new.points }
    {
        add_each(&mut self.points.one, one);
        add_each(&mut self.points.two, two);
        add_each(&mut self.points.three, three);
    }

    /// Adds the points of a bidder of the same grid.
    pub fn add(&mut self, dealt: &Dealt)
        requires { HasLengths dealt.now (2 * self.old.prices) }
        ensures sums { self.new ≡ record self.old { points = added self.old.points dealt.now } }
        ensures values { AddsValues self.old.points dealt.now self.new.points }
    {
        self.add_points(
            dealt.points(Point::One),
            dealt.points(Point::Two),
            dealt.points(Point::Three),
        );
    }

    /// Adds the points of a block of bidders of the same grid, as `add` does with each in order.
    pub fn add_block(&mut self, block: &[Dealt])
        requires few { length block.now ≤ MOST_IN_BLOCK }
        requires lengths { All (λ points. HasLengths points (2 * self.old.prices)) block.now }
        ensures sums { self.new ≡ record self.old { points = all_added self.old.points block.now } }
        ensures values { AddsAllValues self.old.points block.now self.new.points }
        ensures block { AddsBlock self.old block.now self.new }
    {
        for dealt in block {
            self.add(dealt);
        }
    }

    /// Adds the totals of other bidders of the same grid.
    pub fn merge(&mut self, other: &Totals)
        requires { other.now.prices ≡ self.old.prices }
        ensures sums { self.new ≡ record self.old { points = added self.old.points other.now.points } }
        ensures values { AddsValues self.old.points other.now.points self.new.points }
    {
        self.add_points(&other.points.one, &other.points.two, &other.points.three);
    }

    /// Deals the quantities of a bidder straight into the sums: what `deal_bidder` and then `add` do, with no list of
    /// the bidder's points between.
    pub fn deal(&mut self, curve: &Curve, tape: &mut Tape)
        requires buy { length curve.now.buy ≡ self.old.prices }
        requires sell { length curve.now.sell ≡ self.old.prices }
        requires words { 2 * self.old.prices ≤ length (left_of tape.old) }

        ensures sums { self.new ≡ record self.old {
          points = added self.old.points (dealt_points curve.now (left_of tape.old));
        } }
        ensures values { AddsQuantities curve.now self.old.points self.new.points }
        ensures drawn { tape.new ≡ drawn_from tape.old (2 * self.old.prices) }
    {
        tape.draw_each(&mut self.slopes);
        add_curve_to_each(&mut self.points, curve, &self.slopes);
    }

    /// Deals the quantities of a bidder as `deal` does by a tape of the first `n` words of a seed and a stream, with no
    /// list of the words between. Tells how many numbers it drew. If there were too few, the sums are as before.
    pub fn deal_seed(&mut self, curve: &Curve, seed: &[u8; 32], stream: u64, n: u32) -> usize
        requires buy { length curve.now.buy ≡ self.old.prices }
        requires sell { length curve.now.sell ≡ self.old.prices }

        ensures drawn { result
            ≡ min (2 * self.old.prices) (length (accepted (seed_words seed.now stream n))) }
        ensures sums { result ≡ 2 * self.old.prices → self.new ≡ record self.old {
          points = added self.old.points (dealt_points curve.now (accepted (seed_words seed.now stream n)));
        } }
        ensures values { result ≡ 2 * self.old.prices
            → AddsQuantities curve.now self.old.points self.new.points }
        ensures too_few { result < 2 * self.old.prices → self.new ≡ self.old }
    {
        let drawn = draw_seed(seed, stream, n, &mut self.slopes);
        if drawn < self.slopes.len() {
            return drawn;
        }
        add_curve_to_each(&mut self.points, curve, &self.slopes);
        drawn
    }

    /// The inputs of the servers: for each the summed supply points at each place, and then the summed demand points.
    pub fn inputs(self) -> Trio<FeList>
        ensures points { result ≡ wires_of self }
        ensures values { CarriesValues self result }
    {
        let middle = self.prices as usize;
        let mut points = self.points;
        points.one.rotate_left(middle);
        points.two.rotate_left(middle);
        points.three.rotate_left(middle);
        points.map(|_, points| FeList::of(points))
    }
}
