//! Doing the job that the words name.

ghost use Rattle.std.specs.Prelude.{Some, map, string_bytes};
ghost use Rattle.beet_errand.specs.Tasks.{DoesNamed, DoesTask, ToAnswer};
ghost use Rattle.beet_pair_words.specs.Commands.{job_for};
ghost use Rattle.beet_session_app.specs.Commands.{errand_for};
ghost use Rattle.beet_session_app.specs.Doing.{task_of};
ghost use Rattle.beet_session_app.specs.Jobs.{job_of};

use crate::commands::LotsCommand;
use beet_errand::{Reply, Stop};
use beet_job_replay::replay;
use beet_job_session::session;
use beet_job_session_pair::pair;
use beet_pair_words::{Command, read_command};
use beet_store::Shelf;
use std::alloc::Global;
use std::marker::Sync;
use std::thread::Threads;

/// Does the job of a command besides `pair`.
fn do_own<S: Shelf>(alloc: Global, shelf: &mut S, command: LotsCommand<'_>) -> Result<Reply, Stop>
    ensures { DoesTask (ToAnswer (errand_for command.entry)) (S.seen shelf.old) (S.seen shelf.new) result }
{
    match command {
        LotsCommand::Session(files) => session(alloc, shelf, &files),
        LotsCommand::Replay(files, schedule) => replay(alloc, shelf, &files, schedule),
    }
}

/// Does the job of a command.
fn do_job<S: Shelf, R: Threads + Sync>(
    rt: &R,
    alloc: Global,
    shelf: &mut S,
    command: Command<'_, LotsCommand<'_>>,
) -> Result<Reply, Stop>
    ensures { DoesTask (task_of (Some (job_for errand_for command.entry))) (S.seen shelf.old) (S.seen shelf.new)
        result }
{
    match command {
        Command::Own(own) => do_own(alloc, shelf, own),
        Command::Pair(files, server) => pair(rt, alloc, shelf, &files, server),
    }
}

/// Does the job that the words name, if they name one.
pub(crate) fn do_named<S: Shelf, R: Threads + Sync>(
    rt: &R,
    alloc: Global,
    shelf: &mut S,
    words: &[String],
) -> Option<Result<Reply, Stop>>
    ensures { DoesNamed (task_of (job_of (map string_bytes words.now))) (S.seen shelf.old) (S.seen shelf.new) result }
{
    match read_command(words) {
        Some(command) => Some(do_job(rt, alloc, shelf, command)),
        None => None,
    }
}
