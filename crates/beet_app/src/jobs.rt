//! Doing the job that the words name.

ghost use Rattle.std.specs.Prelude.{◌≡◌, Some, false, map, string_bytes};
ghost use Rattle.beet_errand.specs.Tasks.{DoesNamed, DoesTask};
ghost use Rattle.beet_app.specs.Commands.{HasSizes, job_for};
ghost use Rattle.beet_app.specs.Doing.{task_of};
ghost use Rattle.beet_app.specs.Jobs.{is_of_five, job_of};

use crate::commands::{Command, read_command};
use beet_errand::{Reply, Stop};
use beet_job_audit::audit_files;
use beet_job_clear::clear;
use beet_job_envelopes::{open_envelopes, seal_bid};
use beet_job_record::record;
use beet_job_rehearse::rehearse;
use beet_job_tally::tally;
use beet_job_trial::trial;
use beet_job_watch::watch;
use beet_job_witness::witness;
use beet_job_worlds::worlds;
use beet_link::Gate;
use beet_store::Shelf;
use std::alloc::Global;
use std::sync::Wait;
use std::thread::Threads;
use std::time::Clock;

/// Does the job of a command.
fn do_job<S: Shelf, R: Threads + Wait + Clock + Sync, G: Gate>(
    rt: &R,
    alloc: Global,
    shelf: &mut S,
    command: Command<'_>,
    gate: &G,
) -> Result<Reply, Stop>
    requires sizes { HasSizes command }
    ensures { DoesTask (task_of (Some (job_for command.entry))) (S.seen shelf.old) (S.seen shelf.new) result }
{
    match command {
        Command::Tally { auction, book } => tally(alloc, shelf, auction, book),
        Command::Clear(files) => clear(rt, alloc, shelf, &files, gate),
        Command::Watch(files) => watch(rt, alloc, shelf, &files),
        Command::Rehearse(files, schedule) => rehearse(alloc, shelf, &files, schedule),
        Command::Record(files, out) => record(rt, alloc, shelf, &files, out, gate),
        Command::Audit(files) => audit_files(rt, alloc, shelf, &files),
        Command::Worlds(files, server) => worlds(rt, alloc, shelf, &files, server),
        Command::Seal(files, source) => seal_bid(alloc, shelf, &files, source),
        Command::Open(files) => open_envelopes(rt, alloc, shelf, &files, gate),
        Command::Witness(files, out) => witness(rt, alloc, shelf, &files, out, gate),
        Command::Trial { bidders, prices } => trial(rt, alloc, bidders, prices, gate),
    }
}

/// Does the job that the words of a command among three servers name, if they name one.
pub(crate) fn do_named<S: Shelf, R: Threads + Wait + Clock + Sync, G: Gate>(
    rt: &R,
    alloc: Global,
    shelf: &mut S,
    words: &[String],
    gate: &G,
) -> Option<Result<Reply, Stop>>
    requires { is_of_five (map string_bytes words.now) ≡ false }
    ensures { DoesNamed (task_of (job_of (map string_bytes words.now))) (S.seen shelf.old) (S.seen shelf.new) result }
{
    match read_command(words) {
        Some(command) => Some(do_job(rt, alloc, shelf, command, gate)),
        None => None,
    }
}
