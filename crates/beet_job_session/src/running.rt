//! The job `session`.

ghost use Rattle.std.specs.Prelude.{IfOk};
ghost use Rattle.beet_errand.specs.Fetches.{IsDone, Reads};
ghost use Rattle.beet_job_session.specs.Sessions.{session_job};

use crate::telling::ClearedLots;
use beet_errand::{Reply, Stop};
use beet_lot_load::{SessionFiles, load_session, take_lots};
use beet_store::Shelf;
use std::alloc::Global;

/// The outcome of each lot of a session, and the rounds in which three servers find it: `session SESSION SERVERS`. Each
/// lot is read and run before the next one is read, in lockstep on the caller's thread.
pub fn session<S: Shelf>(
    alloc: Global,
    shelf: &mut S,
    files: &SessionFiles<'_>,
) -> Result<Reply, Stop>
    ensures done { IfOk result (λ reply. IsDone reply.status) }
    ensures reads { Reads (λ reply. reply) (S.seen shelf.old) (S.seen shelf.new)
        (session_job files.now.session.now files.now.servers.now) result }
{
    let (lots, sources) = load_session(alloc, shelf, files)?;
    let cleared = take_lots::<S, ClearedLots>(alloc, shelf, &sources, lots.rows());
    drop(sources);
    drop(lots);
    Ok(cleared?.told.into_reply(alloc))
}
