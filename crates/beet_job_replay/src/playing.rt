//! The lots of a session are taken through a schedule.

ghost use Rattle.std.specs.Prelude.{◌≡◌, ◌<◌, ◌≤◌, All, IfOk, List, length};
ghost use Rattle.beet_errand.specs.Fetches.{IsDone};
ghost use Rattle.beet_load.specs.Loading.{AuctionWithBidders};
ghost use Rattle.beet_lots.specs.declared.lots.TheConstants.{MOST_LOTS};
ghost use Rattle.beet_job_replay.specs.Begun.{AreBegun};
ghost use Rattle.beet_job_replay.specs.Replay.{replayed};

use crate::beginning::Begun;
use crate::telling::{reply_of, tell_lots};
use beet_errand::Reply;
use beet_lot_files::LotRow;
use beet_lots::{LotDelivery, LotWorld};
use std::alloc::{AllocError, Global};

/// Delivers the messages in order, and tells how the servers of each lot stand after them.
pub(crate) fn play(
    alloc: Global,
    rows: &[LotRow],
    begun: Begun,
    schedule: &[LotDelivery],
) -> Result<Reply, AllocError>
    requires some { 1 ≤ length rows.now }
    requires few { length rows.now ≤ MOST_LOTS }
    requires begun { (lots : List AuctionWithBidders) × AreBegun rows.now begun lots }
    requires within { All (λ delivery. delivery.lot < length rows.now) schedule.now }
    ensures done { IfOk result (λ reply. IsDone reply.status) }
    ensures tells { (lots : List AuctionWithBidders) → AreBegun rows.now begun lots →
        IfOk result (λ reply. reply ≡ replayed rows.now lots schedule.now) }
{
    let Begun { grids, cores } = begun;
    let mut world = LotWorld::of(alloc, cores)?;
    world.play(schedule);
    let told = tell_lots(alloc, rows, grids.as_slice(), &world);
    let undelivered = world.undelivered();
    drop(world);
    let reply = reply_of(alloc, told?, undelivered)?;
    Ok(reply)
}
