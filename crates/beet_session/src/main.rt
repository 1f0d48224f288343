//! The program of sessions: the real files and standard output, and one call of `beet_session_app::run_session`.
#![tactic(auto)]

ghost use Rattle.std.specs.Prelude.{map, option_map, string_bytes};
ghost use Rattle.std.specs.Process.{exit_status};
ghost use Rattle.beet_command.specs.Ending.{RunsWords};
ghost use Rattle.beet_errand.specs.Runs.{IsStatus};
ghost use Rattle.beet_session_app.specs.Doing.{task_of};
ghost use Rattle.beet_session_app.specs.Jobs.{job_of};

use beet_command::{end_program, words_of};
use beet_errand::Status;
use beet_session_app::run_session;
use beet_store::{Desk, HostDesk, HostShelf, Shelf};
use std::alloc::Global;
use std::marker::Sync;
use std::process::ExitCode;
use std::thread::Threads;

/// Runs the words, if there was memory for them, and tells what standard output does not. The exit status is that of
/// the run.
fn end_of<S: Shelf, K: Desk, R: Threads + Sync + Eprint>(
    rt: &R,
    alloc: Global,
    words: Option<Vec<String>>,
    shelf: &mut S,
    desk: &mut K,
) -> ExitCode
    ensures known { IsStatus (exit_status result) }
    ensures runs { RunsWords (λ words. task_of (job_of words))
        (option_map (λ words. map string_bytes words.items) words) (S.seen shelf.old) (S.seen shelf.new)
        (K.seen desk.old) (K.seen desk.new) (exit_status result) }
{
    let status = match words {
        Some(words) => run_session(rt, alloc, &words, shelf, desk),
        None => Status::OutOfMemory.code(),
    };
    end_program(rt, status)
}

fn main(rt: HostRuntime) -> ExitCode {
    let alloc = rt.alloc();
    let words = words_of(&rt, alloc);
    let mut shelf = HostShelf::new(&rt);
    let mut desk = HostDesk::new(&rt);
    end_of(&rt, alloc, words, &mut shelf, &mut desk)
}
