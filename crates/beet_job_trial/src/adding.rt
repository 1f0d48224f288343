//! Dealing the bidders of a trial straight into sums, by threads that each draw one bidder's numbers after another's.

ghost use Rattle.std.specs.Prelude.{◌≡◌, ◌≤◌, ◌<◌, ◌+◌};
ghost use Rattle.beet_job_trial.specs.Adding.{AddsPart, CanDealPart, DealsPart};
ghost use Rattle.beet_job_trial.specs.Rules.{trial_curves};
ghost use Rattle.beet_words.specs.declared.bundle.TheConstants.{MOST_BIDDERS};

use crate::rules::{curve_at, curves_of, seed_of};
use beet_bids::{Curve, Grid};
use beet_book::Totals;
use beet_errand::Stop;
use beet_forms::beside;
use beet_load::{auction_wants, check_accepted};
use beet_parts::{Parts, in_parts};
use beet_plan::words_kept;
use std::alloc::Global;
use std::marker::Sync;
use std::thread::Threads;

/// Makes bidder `i`, from 0, deals its quantities and adds their points.
fn add_bidder(
    alloc: Global,
    grid: &Grid,
    curves: &[Curve],
    i: u32,
    totals: &mut Totals,
) -> Result<(), Stop>
    requires few { i < MOST_BIDDERS }
    requires curves { curves.now ≡ trial_curves grid.now }
    requires prices { totals.old.prices ≡ grid.now.prices }
    ensures { AddsPart grid.now i 1 totals.old totals.new result }
{
    let curve = curve_at(curves, i);
    let drawn = totals.deal_seed(curve, &seed_of(i), 0, words_kept(grid));
    check_accepted(alloc, &auction_wants(None, grid), i + 1, drawn as u32)
}

/// Adds so many bidders from bidder `from` on, one after another.
fn add_in_order(
    alloc: Global,
    grid: &Grid,
    curves: &[Curve],
    from: u32,
    count: u32,
    totals: &mut Totals,
) -> Result<(), Stop>
    requires can { CanDealPart grid.now curves.now from count }
    requires prices { totals.old.prices ≡ grid.now.prices }
    ensures { AddsPart grid.now from count totals.old totals.new result }
{
    for i in from..from + count {
        add_bidder(alloc, grid, curves, i, totals)?;
    }
    Ok(())
}

/// Deals so many bidders from bidder `from` on, one after another, into totals of their own.
fn deal_in_order(
    alloc: Global,
    grid: &Grid,
    curves: &[Curve],
    from: u32,
    count: u32,
) -> Result<Totals, Stop>
    requires { CanDealPart grid.now curves.now from count }
    ensures { DealsPart grid.now from count result }
{
    let mut totals = Totals::new(alloc, grid)?;
    add_in_order(alloc, grid, curves, from, count, &mut totals)?;
    Ok(totals)
}

/// The bidders of a trial over a grid, and the curves that they have. Nothing is lent to them: each draws its own
/// numbers.
#[derive(Drop)]
struct Bidders<'a> {
    grid: &'a Grid,
    curves: &'a [Curve],
}

impl Parts<(), Result<Totals, Stop>> for Bidders<'_> {
    ghost use Rattle.beet_job_trial.specs.Adding.{CanDealPart, DealsPart};
    ghost use Rattle.beet_job_trial.specs.Splits.{deal-splits};

    ghost can = { λ s from count _. CanDealPart s.grid.now s.curves.now from count };

    ghost does = { λ s from count _ _ result. DealsPart s.grid.now from count result };

    ghost splits = { λ s from few rest _ _ _ can. deal-splits s.grid.now s.curves.now from few rest can };

    fn in_order(
        &self,
        alloc: Global,
        from: usize,
        count: usize,
        own: &mut [()],
    ) -> Result<Totals, Stop> {
        deal_in_order(alloc, self.grid, self.curves, from as u32, count as u32)
    }

    fn join(&self, few: Result<Totals, Stop>, rest: Result<Totals, Stop>) -> Result<Totals, Stop> {
        let (rest, totals) = beside(rest, few)?;
        let (mut totals, others) = beside(totals, rest)?;
        totals.merge(&others);
        Ok(totals)
    }
}

/// Deals so many bidders, whose curves are among these, by a thread for each processor.
fn deal_by_threads<R: Threads + Sync>(
    rt: &R,
    alloc: Global,
    grid: &Grid,
    curves: &[Curve],
    bidders: u32,
) -> Result<Totals, Stop>
    requires { CanDealPart grid.now curves.now 0 bidders }
    ensures { DealsPart grid.now 0 bidders result }
{
    in_parts(
        rt,
        alloc,
        &Bidders { grid, curves },
        bidders as usize,
        &mut [],
    )
}

/// Makes and deals so many bidders, by a thread for each processor, and adds up their points. The curves are made once,
/// as many as differ. Each thread draws the numbers of its own bidders and adds to totals of its own. If some bidders
/// have too few words, the first in order is named.
pub(crate) fn deal_bidders<R: Threads + Sync>(
    rt: &R,
    alloc: Global,
    grid: &Grid,
    bidders: u32,
) -> Result<Totals, Stop>
    requires { bidders ≤ MOST_BIDDERS }
    ensures { DealsPart grid.now 0 bidders result }
{
    let curves = curves_of(alloc, grid)?;
    deal_by_threads(rt, alloc, grid, &curves, bidders)
}
