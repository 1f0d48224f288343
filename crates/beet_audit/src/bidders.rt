//! Whether each bidder of three views bids a curve, and the points of all, added up.

ghost use Rattle.std.specs.Prelude.{◌≡◌, ◌<◌, ◌≤◌, ◌*◌, ◌+◌, [], ℕ, IfOk, OnOk, length};
ghost use Rattle.beet_field.specs.Trio.{member};
ghost use Rattle.beet_field.specs.declared.point.Point.{Point};
ghost use Rattle.beet_shamir.specs.Line.{AreElements};
ghost use Rattle.beet_words.specs.declared.bundle.TheConstants.{MOST_BIDDERS};
ghost use Rattle.beet_bids.specs.declared.grid.TheConstants.{MOST_PRICES};
ghost use Rattle.beet_book.specs.PointSums.{AddsUp};
ghost use Rattle.beet_book.specs.Totals.{points_on};
ghost use Rattle.beet_view.specs.Views.{IsView};
ghost use Rattle.beet_audit.specs.Audits.{HasPoints, HaveElements, HeaderFits, OneBidder, all_points, points_from};
ghost use Rattle.beet_audit.specs.Audits.{points_of_bidder};
ghost use Rattle.beet_audit.specs.Parts.{CanJudge, JudgesPart};
ghost use Rattle.beet_audit.specs.Verdicts.{EachBelow, Judges};

use crate::curves::{check_lines, check_monotone};
use crate::fault::{AuditFault, Side};
use crate::knowing::check_known;
use crate::points::points_in;
use beet_bids::Grid;
use beet_book::Totals;
use beet_field::Trio;
use beet_forms::beside;
use beet_parts::{Parts, in_parts};
use beet_view::View;
use std::alloc::Global;
use std::marker::Sync;
use std::thread::Threads;

/// Refuses a bidder at the first thing that is wrong with it.
fn check_bidder(
    alloc: Global,
    views: &Trio<View>,
    bidder: u32,
    prices: u32,
) -> Result<(), AuditFault>
    requires lengths { HasPoints prices views.now bidder }
    requires few { bidder < MOST_BIDDERS }
    requires limit { prices ≤ MOST_PRICES }
    requires bidder { (s : Point) → bidder < length (member views.now s).bidders }
    requires prices { (s : Point) → (member views.now s).grid.prices ≡ prices }
    ensures bidder { Judges (OneBidder prices views.now bidder) result }
    ensures elements { IfOk result (λ done. (n : ℕ) → n < 2 * prices
        → AreElements (points_on (points_of_bidder views.now bidder) n)) }
{
    check_lines(views, bidder, prices, Side::Buy)?;
    check_lines(views, bidder, prices, Side::Sell)?;
    check_monotone(views, bidder, prices)?;
    check_known(alloc, views, bidder, prices)?;
    Ok(())
}

/// Adds up the points of so many bidders from one on, or refuses the first with which something is wrong.
fn add_in_order(
    alloc: Global,
    grid: &Grid,
    views: &Trio<View>,
    from: usize,
    count: usize,
    totals: &mut Totals,
) -> Result<(), AuditFault>
    requires can { CanJudge grid.now views.now from count }
    requires none { AddsUp grid.now totals.old [] }
    ensures bidders { Judges (EachBelow count (λ k. OneBidder grid.now.prices views.now (from + k))) result }
    ensures elements { IfOk result (λ done. (k : ℕ) → k < count → (n : ℕ) → n < 2 * grid.now.prices
        → AreElements (points_on (points_of_bidder views.now (from + k)) n)) }
    ensures sums { OnOk result (AddsUp grid.now totals.new (points_from views.now from count)) }
{
    let prices = grid.prices();
    for place in 0..count {
        let bidder = (from + place) as u32;
        check_bidder(alloc, views, bidder, prices)?;
        totals.add_points(
            points_in(&views.one, bidder),
            points_in(&views.two, bidder),
            points_in(&views.three, bidder),
        );
    }
    Ok(())
}

/// The summed points of so many bidders from one on. Refuses the first with which something is wrong.
fn sum_in_order(
    alloc: Global,
    grid: &Grid,
    views: &Trio<View>,
    from: usize,
    count: usize,
) -> Result<Totals, AuditFault>
    requires { CanJudge grid.now views.now from count }
    ensures { JudgesPart grid.now views.now from count result }
{
    let mut totals = Totals::new(alloc, grid)?;
    add_in_order(alloc, grid, views, from, count, &mut totals)?;
    Ok(totals)
}

/// The bidders of three views over a grid.
#[derive(Drop)]
struct Bidders<'a> {
    grid: &'a Grid,
    views: &'a Trio<View>,
}

impl Parts<(), Result<Totals, AuditFault>> for Bidders<'_> {
    ghost use Rattle.beet_audit.specs.Parts.{CanJudge, JudgesPart, judge-splits};

    ghost can = { λ s from count own. CanJudge s.grid.now s.views.now from count };

    ghost does = { λ s from count old new result. JudgesPart s.grid.now s.views.now from count result };

    ghost splits = { λ s from few rest front back least. judge-splits s.grid.now s.views.now from few rest };

    fn in_order(
        &self,
        alloc: Global,
        from: usize,
        count: usize,
        _own: &mut [()],
    ) -> Result<Totals, AuditFault> {
        sum_in_order(alloc, self.grid, self.views, from, count)
    }

    fn join(
        &self,
        few: Result<Totals, AuditFault>,
        rest: Result<Totals, AuditFault>,
    ) -> Result<Totals, AuditFault> {
        let (rest, totals) = beside(rest, few)?;
        let (mut totals, others) = beside(totals, rest)?;
        totals.merge(&others);
        Ok(totals)
    }
}

/// The summed points of so many bidders. Refuses the first with which something is wrong. They are judged and added up
/// by a thread for each processor.
fn sum_in_parts<R: Threads + Sync>(
    rt: &R,
    alloc: Global,
    bidders: &Bidders<'_>,
    count: usize,
) -> Result<Totals, AuditFault>
    requires can { CanJudge bidders.now.grid.now bidders.now.views.now 0 count }
    ensures { JudgesPart bidders.now.grid.now bidders.now.views.now 0 count result }
{
    in_parts(rt, alloc, bidders, count, &mut [])
}

/// The points of all bidders, added up. Refuses the first with which something is wrong.
pub(crate) fn sum_bidders<R: Threads + Sync>(
    rt: &R,
    alloc: Global,
    grid: &Grid,
    views: &Trio<View>,
) -> Result<Totals, AuditFault>
    requires fit { (s : Point) → HeaderFits grid.now views.now.one s (member views.now s) }
    requires limits { (s : Point) → IsView (member views.now s) }
    ensures bidders { Judges (EachBelow (length views.now.one.bidders) (OneBidder grid.now.prices views.now)) result }
    ensures elements { IfOk result (λ totals. HaveElements grid.now views.now) }
    ensures sums { IfOk result (λ totals. AddsUp grid.now totals (all_points views.now)) }
{
    let count = views.one.bidders().len();
    sum_in_parts(rt, alloc, &Bidders { grid, views }, count)
}
