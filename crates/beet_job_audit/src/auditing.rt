//! The job `audit`.

ghost use Rattle.beet_errand.specs.Tasks.{DoesTask};
ghost use Rattle.beet_job_audit.specs.Ending.{audit_task};

use crate::answering::answer_views;
use crate::reading::{AuditFiles, read_views};
use beet_errand::{Reply, Stop};
use beet_store::Shelf;
use std::alloc::Global;
use std::marker::Sync;
use std::thread::Threads;

/// Tells how the run ended of which three transcripts are the views, those of servers 1, 2 and 3; or refuses them by
/// the first thing that is wrong. The messages in the transcripts are compared with those of the run, and nothing is
/// taken from them.
pub fn audit_files<S: Shelf, R: Threads + Sync>(
    rt: &R,
    alloc: Global,
    shelf: &mut S,
    files: &AuditFiles<'_>,
) -> Result<Reply, Stop>
    ensures { DoesTask (audit_task files.now.auction.now files.now.one.now files.now.two.now files.now.three.now)
        (S.seen shelf.old) (S.seen shelf.new) result }
{
    let read = read_views(alloc, shelf, files)?;
    answer_views(rt, alloc, &read)
}
