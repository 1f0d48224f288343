//! Whether one server can tell two sales apart by what it knows and by what is opened.

ghost use Rattle.std.specs.Prelude.{◌≡◌, ◌≢◌, ◌<◌, ◌≤◌, ◌↔◌, ◌^◌, Some, length, IsTrue, IsFalse, IsOk};
ghost use Rattle.std.specs.Prelude.{MatchOption, IfErr, IfSome};
ghost use Rattle.beet_map.specs.Refused.{DifferFirst};
ghost use Rattle.beet_sale_plan.specs.declared.TheConstants.{MOST_SALE_BIDDERS};
ghost use Rattle.beet_sale_map.specs.Bids.{Agree, AreSaleBids, HaveOneShape, SameOwn, marks_of};
ghost use Rattle.beet_sale_map.specs.Disagreement.{OwnDiffersAt, Refuses};

use crate::bids::row_at;
use crate::results::{SaleResult, result_of};
use beet_field::Point;
use beet_sale_file::SaleBid;
use std::alloc::AllocError;
use thiserror::Error;

/// Why the words of a sale are not mapped to those of a second one: the first thing that tells the sales apart, or want
/// of memory.
#[derive(Clone, Copy, PartialEq, Eq, Debug, Error)]
pub enum SaleFault {
    /// The first bidder, counted from 1, that one sale lacks, or that is not known to the same server in both.
    #[error("bidder {0} is not in both sales with the same mark")]
    ShapeDiffers(u32),
    /// The first bidder, counted from 1, that is known to the server and has another bid in the second sale.
    #[error("bidder {0} is known to the server and has another bid in the second sale")]
    OwnBidsDiffer(u32),
    /// The results, of the first sale and of the second.
    #[error("the sales have different results")]
    SalesDiffer(SaleResult, SaleResult),
    /// Memory ran out.
    #[error("out of memory")]
    OutOfMemory,
}

impl From<AllocError> for SaleFault {
    ghost use Rattle.std.specs.Prelude.{◌≡◌};
    ghost use Rattle.beet_sale_map.specs.declared.agreeing.SaleFault.TheVariants.{OutOfMemory};

    ghost from_gives = { λ _ fault. fault ≡ OutOfMemory };

    fn from(_error: AllocError) -> SaleFault {
        SaleFault::OutOfMemory
    }
}

/// Whether the same server knows both bids, or none does.
fn same_mark(first: &SaleBid, second: &SaleBid) -> bool
    ensures same { IsTrue result → first.now.known ≡ second.now.known }
    ensures other { IsFalse result → first.now.known ≢ second.now.known }
{
    first.known == second.known
}

/// The first place at which the marks of two sales differ, or at which one sale has no bidder.
fn other_mark(first: &[SaleBid], second: &[SaleBid]) -> Option<u32>
    requires { length first.now ≤ MOST_SALE_BIDDERS }
    ensures place { MatchOption result (HaveOneShape first.now second.now)
        (λ n. DifferFirst (marks_of first.now) (marks_of second.now) n) }
    ensures below { IfSome result (λ n. n ≤ MOST_SALE_BIDDERS) }
{
    let fewer = first.len().min(second.len());
    for i in 0..fewer {
        let (one, other) = (row_at(first, i), row_at(second, i));
        if !same_mark(&one, &other) {
            return Some(i as u32);
        }
    }
    if first.len() == second.len() {
        None
    } else {
        Some(fewer as u32)
    }
}

/// Whether a bid is known to the server and is another in the second sale.
fn is_changed(me: Point, first: &SaleBid, second: &SaleBid) -> bool
    ensures changed { IsTrue result → (first.now.known ≡ Some me) × (second.now.bid ≢ first.now.bid) }
    ensures kept { IsFalse result → first.now.known ≡ Some me → second.now.bid ≡ first.now.bid }
{
    first.known == Some(me) && second.bid != first.bid
}

/// The first place at which a bid is known to the server and is another in the second sale.
fn other_own_bid(me: Point, first: &[SaleBid], second: &[SaleBid]) -> Option<u32>
    requires few { length first.now ≤ MOST_SALE_BIDDERS }
    requires shape { HaveOneShape first.now second.now }
    ensures place { MatchOption result (SameOwn me first.now second.now) (λ n. OwnDiffersAt me first.now second.now n) }
    ensures below { IfSome result (λ n. n ≤ MOST_SALE_BIDDERS) }
{
    for i in 0..first.len() {
        if is_changed(me, &first[i], &second[i]) {
            return Some(i as u32);
        }
    }
    None
}

/// Whether two sales agree for a server: as many bidders with the same marks, the same bids of those known to the
/// server, and the same winner and price. It tells the first of these that does not hold. It takes no memory, and never
/// answers that it ran out.
pub fn agreement(me: Point, first: &[SaleBid], second: &[SaleBid]) -> Result<(), SaleFault>
    requires first { AreSaleBids first.now }
    requires second { AreSaleBids second.now }
    ensures agreed { IsOk result ↔ Agree me first.now second.now }
    ensures refused { IfErr result (Refuses me first.now second.now) }
{
    if let Some(place) = other_mark(first, second) {
        return Err(SaleFault::ShapeDiffers(place + 1));
    }
    if let Some(place) = other_own_bid(me, first, second) {
        return Err(SaleFault::OwnBidsDiffer(place + 1));
    }
    let (one, other) = (result_of(first), result_of(second));
    if one == other {
        Ok(())
    } else {
        Err(SaleFault::SalesDiffer(one, other))
    }
}
