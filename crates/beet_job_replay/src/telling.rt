//! What is told of the servers of each lot.

ghost use Rattle.std.specs.Prelude.{◌≡◌, ◌<◌, ◌≤◌, ◌++◌, IfOk, List, OnOk, Some};
ghost use Rattle.std.specs.Prelude.{if◌then◌else◌, length, slice_get};
ghost use Rattle.beet_field.specs.Trio.{member};
ghost use Rattle.beet_field.specs.declared.point.Point.{Point as At};
ghost use Rattle.beet_errand.specs.Errands.{Answer, text_answer};
ghost use Rattle.beet_errand.specs.Fetches.{IsDone};
ghost use Rattle.beet_errand.specs.declared.answer.Status.TheVariants.{Done, MasksSpent};
ghost use Rattle.beet_lot_load.specs.Telling.{TellsLot, TellsLots};
ghost use Rattle.beet_lots.specs.declared.lots.TheConstants.{MOST_LOTS};
ghost use Rattle.beet_plan.specs.Auction.{Auction};
ghost use Rattle.beet_world.specs.Worlds.{World};
ghost use Rattle.beet_job_rehearse.specs.Rehearsing.{Tells};
ghost use Rattle.beet_job_rehearse.specs.StandingTexts.{undelivered_line};
ghost use Rattle.beet_job_replay.specs.Playing.{AnswerForEach, AnswersFor};

use beet_bids::Grid;
use beet_errand::Reply;
use beet_field::{Point, Trio};
use beet_job_rehearse::{Standing, push_undelivered, servers_reply, standing_at};
use beet_lot_files::LotRow;
use beet_lot_load::LotsTold;
use beet_lots::LotWorld;
use beet_search::AuctionScript;
use std::alloc::{AllocError, Global};

/// How a server of a lot stands.
fn standing_in(world: &LotWorld<AuctionScript>, lot: u32, at: Point) -> Standing
    requires { lot < length world.now }
    ensures { (w : World Auction) → slice_get world.now lot ≡ Some w → Tells w at result }
{
    standing_at(world.core(lot, at))
}

/// How the servers of a lot stand.
fn standings_in(world: &LotWorld<AuctionScript>, lot: u32) -> Trio<Standing>
    requires { lot < length world.now }
    ensures { (w : World Auction) → slice_get world.now lot ≡ Some w → (s : At) → Tells w s (member result s) }
{
    Trio {
        one: standing_in(world, lot, Point::One),
        two: standing_in(world, lot, Point::Two),
        three: standing_in(world, lot, Point::Three),
    }
}

/// Tells how the servers of a lot stand.
fn tell_lot(
    alloc: Global,
    world: &LotWorld<AuctionScript>,
    lot: u32,
    row: &LotRow,
    grid: &Grid,
    told: &mut LotsTold,
) -> Result<(), AllocError>
    requires { lot < length world.now }
    ensures { (w : World Auction) (answer : Answer) → slice_get world.now lot ≡ Some w →
        AnswersFor w grid.now answer → OnOk result (TellsLot row.now answer told.old told.new) }
{
    let servers = standings_in(world, lot);
    let reply = servers_reply(alloc, grid, &servers)?;
    let added = told.add(alloc, row.name.as_str(), &reply);
    drop(reply);
    added?;
    Ok(())
}

/// Tells how the servers of each lot stand.
pub(crate) fn tell_lots(
    alloc: Global,
    rows: &[LotRow],
    grids: &[Grid],
    world: &LotWorld<AuctionScript>,
) -> Result<LotsTold, AllocError>
    requires few { length rows.now ≤ MOST_LOTS }
    requires worlds { length world.now ≡ length rows.now }
    requires grids { length grids.now ≡ length rows.now }
    ensures { (answers : List Answer) → length answers ≡ length rows.now →
        AnswerForEach world.now grids.now answers → IfOk result (TellsLots rows.now answers) }
{
    let mut told = LotsTold::new(alloc);
    for (i, row) in rows.iter().enumerate() {
        tell_lot(alloc, world, i as u32, row, &grids[i], &mut told)?;
    }
    Ok(told)
}

/// The reply that tells this, and how many messages of all lots are not delivered.
pub(crate) fn reply_of(
    alloc: Global,
    mut told: LotsTold,
    undelivered: u32,
) -> Result<Reply, AllocError>
    ensures done { IfOk result (λ reply. IsDone reply.status) }
    ensures reply { IfOk result (λ reply. reply ≡ text_answer (if told.spent then MasksSpent else Done)
        (told.text.items ++ undelivered_line undelivered)) }
{
    push_undelivered(alloc, &mut told.text, undelivered)?;
    Ok(told.into_reply(alloc))
}
