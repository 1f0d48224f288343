//! The job `rehearse`.

ghost use Rattle.std.specs.Prelude.{◌≡◌, ◌*◌, IfErr, IfOk, length};
ghost use Rattle.beet_errand.specs.Errands.{reads};
ghost use Rattle.beet_errand.specs.Fetches.{IsDone, Reads};
ghost use Rattle.beet_field.specs.Trio.{member};
ghost use Rattle.beet_field.specs.declared.point.Point.{Point};
ghost use Rattle.beet_load.specs.Files.{of_files};
ghost use Rattle.beet_load.specs.Counts.{counts_of};
ghost use Rattle.beet_load.specs.Loading.{IsKeptOf, AuctionWithBidders};
ghost use Rattle.beet_load.specs.Servers.{HaveEnough};
ghost use Rattle.beet_world.specs.Schedules.{schedule_of};
ghost use Rattle.beet_world.specs.Worlds.{named_in};
ghost use Rattle.beet_job_rehearse.specs.Rehearse.{rehearse_job, rehearsed};
ghost use Rattle.beet_job_rehearse.specs.Rehearsing.{Rehearses};
ghost use Rattle.beet_world.specs.declared.schedule.TheConstants.{SCHEDULE_LIMIT};

use crate::standing::{Rehearsal, standing_in};
use crate::telling::rehearsal_reply;
use beet_bids::Grid;
use beet_errand::{Reply, Stop, fetch_file, judge};
use beet_field::Trio;
use beet_load::{AuctionFiles, Loaded, ServerWords, load};
use beet_run::start_servers;
use beet_store::Shelf;
use beet_words::FeList;
use beet_world::{Delivery, SCHEDULE_LIMIT, World, read_schedule};
use std::alloc::Global;

/// The deliveries of a schedule file.
fn read_deliveries<S: Shelf>(
    alloc: Global,
    shelf: &mut S,
    name: &str,
) -> Result<Vec<Delivery>, Stop>
    ensures { Reads (λ deliveries. deliveries.items) (S.seen shelf.old) (S.seen shelf.new)
        (reads name.now SCHEDULE_LIMIT schedule_of) result }
{
    let bytes = fetch_file(alloc, shelf, name, SCHEDULE_LIMIT)?;
    judge(alloc, name, read_schedule(alloc, bytes.as_slice()))
}

/// Three servers begin with these points and words, the messages are delivered in order, and then they are looked at.
/// Want of memory is the only error, and comes before the first delivery.
fn play(
    alloc: Global,
    grid: &Grid,
    inputs: Trio<FeList>,
    words: Trio<ServerWords>,
    schedule: &[Delivery],
) -> Result<Rehearsal, Stop>
    requires enough { HaveEnough (counts_of grid.now) words }
    requires inputs { (i : Point) → length (member inputs i) ≡ 2 * grid.now.prices }
    ensures memory { IfErr result (λ stop. stop ≡ Stop.OutOfMemory) }
    ensures rehearses { IfOk result (Rehearses grid.now inputs words (named_in schedule.now)) }
{
    let cores = start_servers(alloc, grid, inputs, words)?;
    let mut world = World::of(alloc, cores)?;
    world.play(schedule);
    let servers = Trio::of(|at| standing_in(&world, at));
    let undelivered = world.undelivered();
    drop(world);
    Ok(Rehearsal {
        servers,
        undelivered,
    })
}

/// What the job answers once its files are read.
fn answer(alloc: Global, loaded: Loaded, schedule: &[Delivery]) -> Result<Reply, Stop>
    requires { (i : Point) → length (member loaded.inputs i) ≡ 2 * loaded.grid.prices }
    ensures memory { IfErr result (λ stop. stop ≡ Stop.OutOfMemory) }
    ensures done { IfOk result (λ reply. IsDone reply.status) }
    ensures tells { (read : AuctionWithBidders) → IsKeptOf loaded read →
        IfOk result (λ reply. reply ≡ rehearsed read schedule.now) }
{
    let Loaded {
        grid,
        servers,
        inputs,
    } = loaded;
    let rehearsal = play(alloc, &grid, inputs, servers, schedule)?;
    Ok(rehearsal_reply(alloc, &grid, &rehearsal)?)
}

/// How three servers stand in the auction of a book after the deliveries of a schedule, in order:
/// `rehearse AUCTION SERVERS BOOK SCHEDULE`. A message that is not sent when its turn comes is passed over.
pub fn rehearse<S: Shelf>(
    alloc: Global,
    shelf: &mut S,
    files: &AuctionFiles<'_>,
    schedule: &str,
) -> Result<Reply, Stop>
    ensures done { IfOk result (λ reply. IsDone reply.status) }
    ensures reads { Reads (λ reply. reply) (S.seen shelf.old) (S.seen shelf.new)
        (of_files rehearse_job files.now schedule.now) result }
{
    let loaded = load(alloc, shelf, files)?;
    let deliveries = read_deliveries(alloc, shelf, schedule);
    match deliveries {
        Ok(deliveries) => answer(alloc, loaded, deliveries.as_slice()),
        Err(stop) => {
            drop(loaded);
            Err(stop)
        }
    }
}
