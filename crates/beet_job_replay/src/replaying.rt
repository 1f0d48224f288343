//! The job `replay`.

ghost use Rattle.std.specs.Prelude.{◌<◌, All, IfOk};
ghost use Rattle.beet_errand.specs.Errands.{reads};
ghost use Rattle.beet_errand.specs.Fetches.{IsDone, Reads};
ghost use Rattle.beet_lot_files.specs.LotSchedules.{lot_schedule_of};
ghost use Rattle.beet_world.specs.declared.schedule.TheConstants.{SCHEDULE_LIMIT};
ghost use Rattle.beet_job_replay.specs.Replay.{replay_job};

use crate::beginning::Begun;
use crate::playing::play;
use beet_errand::{Reply, Stop, fetch_file, judge};
use beet_forms::beside;
use beet_lot_files::read_lot_schedule;
use beet_lot_load::{SessionFiles, load_session, take_lots};
use beet_lots::LotDelivery;
use beet_store::Shelf;
use beet_world::SCHEDULE_LIMIT;
use std::alloc::Global;

/// The deliveries of a schedule file for so many lots.
fn read_deliveries<S: Shelf>(
    alloc: Global,
    shelf: &mut S,
    lots: u32,
    name: &str,
) -> Result<Vec<LotDelivery>, Stop>
    ensures within { IfOk result (λ deliveries. All (λ delivery. delivery.lot < lots) deliveries.items) }
    ensures reads { Reads (λ deliveries. deliveries.items) (S.seen shelf.old) (S.seen shelf.new)
        (reads name.now SCHEDULE_LIMIT (lot_schedule_of lots)) result }
{
    let bytes = fetch_file(alloc, shelf, name, SCHEDULE_LIMIT)?;
    judge(
        alloc,
        name,
        read_lot_schedule(alloc, lots, bytes.as_slice()),
    )
}

/// How three servers stand in each lot of a session after the deliveries of a schedule, in order:
/// `replay SESSION SERVERS SCHEDULE`. A message that is not sent when its turn comes is passed over. All lots are read
/// before the schedule.
pub fn replay<S: Shelf>(
    alloc: Global,
    shelf: &mut S,
    files: &SessionFiles<'_>,
    schedule: &str,
) -> Result<Reply, Stop>
    ensures done { IfOk result (λ reply. IsDone reply.status) }
    ensures reads { Reads (λ reply. reply) (S.seen shelf.old) (S.seen shelf.new)
        (replay_job files.now.session.now files.now.servers.now schedule.now) result }
{
    let (lots, sources) = load_session(alloc, shelf, files)?;
    let rows = lots.rows();
    let begun = take_lots::<S, Begun>(alloc, shelf, &sources, rows);
    drop(sources);
    let begun = begun?;
    let deliveries = read_deliveries(alloc, shelf, rows.len() as u32, schedule);
    let (begun, deliveries) = beside(begun, deliveries)?;
    let reply = play(alloc, rows, begun, deliveries.as_slice());
    drop(lots);
    Ok(reply?)
}
