//! Who wins a sale, and for how much; and what its comparisons lose in a second sale.

ghost use Rattle.std.specs.Prelude.{◌≡◌, ◌≤◌, ◌<◌, ◌++◌, ◌∷◌, [], min, length, slice_index, All, IfOk, OnOk};
ghost use Rattle.beet_compare.specs.Compare.{doubled};
ghost use Rattle.beet_sale_plan.specs.Kept.{kept_after, kept_first};
ghost use Rattle.beet_sale_plan.specs.Outcome.{IsBid};
ghost use Rattle.beet_sale_plan.specs.declared.TheConstants.{LARGEST_BID};
ghost use Rattle.beet_sale_map.specs.Bids.{AreSaleBids, bids_of};
ghost use Rattle.beet_sale_map.specs.Disagreement.{IsResult};
ghost use Rattle.beet_sale_map.specs.KeptBids.{AreSmall};
ghost use Rattle.beet_sale_map.specs.Losses.{lost};
ghost use Rattle.beet_sale_map.specs.Worlds.{losses_between};

use beet_field::Fe;
use beet_sale_file::SaleBid;
use std::alloc::{AllocError, Global};
use std::marker::Model;

/// The bidder that wins, counted from 1, and the price that it pays.
#[derive(Clone, Copy, PartialEq, Eq, Debug)]
pub struct SaleResult {
    pub winner: u32,
    pub price: u64,
}

/// What a sale keeps of the bids so far: the greatest, its bidder, and the second greatest.
#[derive(Clone, Copy)]
struct SoFar {
    best: u64,
    who: u32,
    next: u64,
}

impl Model for SoFar {
    ghost use Rattle.beet_sale_plan.specs.Kept.{Kept};

    ghost Value = { Kept };

    ghost view = { λ a. record { best = a.best; who = a.who; next = a.next } };

    ghost inverse = { λ v. record { best = v.best; who = v.who; next = v.next } };
}

fn bid_at(bids: &[SaleBid], place: usize) -> u64
    requires limits { All (λ b. IsBid b.bid) bids.now }
    requires place { place < length bids.now }
    ensures value { result ≡ slice_index (bids_of bids.now) place }
    ensures small { result ≤ LARGEST_BID }
{
    bids[place].bid
}

/// What is kept of a first bid.
fn first_kept(bid: u64) -> SoFar
    requires { bid ≤ LARGEST_BID }
    ensures value { result ≡ kept_first (λ _. bid) }
    ensures small { AreSmall result }
{
    SoFar {
        best: bid,
        who: 1,
        next: 0,
    }
}

/// What is kept with one more bid, of the bidder with this number.
fn kept_with(kept: SoFar, bid: u64, bidder: u32) -> SoFar
    requires kept { AreSmall kept }
    requires bid { bid ≤ LARGEST_BID }
    ensures value { result ≡ kept_after kept bid bidder }
    ensures small { AreSmall result }
{
    if bid <= kept.best {
        SoFar {
            best: kept.best,
            who: kept.who,
            next: kept.next.max(bid),
        }
    } else {
        SoFar {
            best: bid,
            who: bidder,
            next: kept.next.max(kept.best),
        }
    }
}

/// Who wins the sale of these bids, and for how much.
pub fn result_of(bids: &[SaleBid]) -> SaleResult
    requires { AreSaleBids bids.now }
    ensures { IsResult bids.now result }
{
    let mut kept = first_kept(bid_at(bids, 0));
    for i in 1..bids.len() {
        kept = kept_with(kept, bid_at(bids, i), i as u32 + 1);
    }
    SaleResult {
        winner: kept.who,
        price: kept.next,
    }
}

/// Twice the difference of two bids, modulo p.
fn twice(left: u64, right: u64) -> Fe
    requires left { left ≤ LARGEST_BID }
    requires right { right ≤ LARGEST_BID }
    ensures { result ≡ doubled left right }
{
    let left = Fe::reduce(left as u128);
    let right = Fe::reduce(right as u128);
    Fe::reduce(2).mul(left.sub(right))
}

/// Appends what both comparisons for one more bid lose.
fn push_losses(
    losses: &mut Vec<Fe>,
    here: SoFar,
    there: SoFar,
    one: u64,
    other: u64,
) -> Result<(), AllocError>
    requires here { AreSmall here }
    requires there { AreSmall there }
    requires one { one ≤ LARGEST_BID }
    requires other { other ≤ LARGEST_BID }
    ensures { OnOk result (losses.new.items ≡ losses.old.items
        ++ lost ((here.best, one), (there.best, other))
        ∷ lost ((here.next, min here.best one), (there.next, min there.best other)) ∷ []) }
{
    losses.push(twice(here.best, one).sub(twice(there.best, other)))?;
    let (lesser, other_lesser) = (here.best.min(one), there.best.min(other));
    losses.push(twice(here.next, lesser).sub(twice(there.next, other_lesser)))?;
    Ok(())
}

/// What each comparison of the first sale loses in the second, in their order.
pub(crate) fn losses(
    alloc: Global,
    first: &[SaleBid],
    second: &[SaleBid],
) -> Result<Vec<Fe>, AllocError>
    requires first { AreSaleBids first.now }
    requires second { AreSaleBids second.now }
    requires many { length second.now ≡ length first.now }
    ensures { IfOk result (λ losses. losses.items ≡ losses_between first.now second.now) }
{
    let mut losses = Vec::with_capacity(alloc, 2 * first.len())?;
    let mut here = first_kept(bid_at(first, 0));
    let mut there = first_kept(bid_at(second, 0));
    for i in 1..first.len() {
        let (one, other) = (bid_at(first, i), bid_at(second, i));
        push_losses(&mut losses, here, there, one, other)?;
        here = kept_with(here, one, i as u32 + 1);
        there = kept_with(there, other, i as u32 + 1);
    }
    Ok(losses)
}
