//! The answer for three views.

ghost use Rattle.std.specs.Prelude.{IfOk};
ghost use Rattle.beet_errand.specs.Fetches.{IsDone};
ghost use Rattle.beet_job_audit.specs.Ending.{AnswersViews};

use crate::reading::ReadViews;
use crate::refusing::refusal;
use beet_audit::audit;
use beet_errand::{Reply, Stop};
use beet_run::outcome_reply;
use std::alloc::Global;
use std::marker::Sync;
use std::thread::Threads;

/// Tells how the run of three views ended, or refuses them by the first thing that is wrong.
pub(crate) fn answer_views<R: Threads + Sync>(
    rt: &R,
    alloc: Global,
    read: &ReadViews,
) -> Result<Reply, Stop>
    ensures done { IfOk result (λ reply. IsDone reply.status) }
    ensures answers { AnswersViews read.now result }
{
    match audit(rt, alloc, &read.grid, &read.views) {
        Ok(audited) => Ok(outcome_reply(alloc, &read.grid, audited.finish, audited.rounds)?),
        Err(fault) => Err(refusal(alloc, fault)),
    }
}
