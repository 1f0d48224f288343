//! The jobs of the program of sessions, over any shelf and desk.
#![tactic(auto)]

ghost use Rattle.std.specs.Prelude.{map, string_bytes};
ghost use Rattle.beet_errand.specs.Tasks.{DoesRun};
ghost use Rattle.beet_session_app.specs.Doing.{task_of};
ghost use Rattle.beet_session_app.specs.Jobs.{job_of};

mod commands;
mod jobs;

use beet_errand::end_run;
use beet_store::{Desk, Shelf};
use std::alloc::Global;
use std::marker::Sync;
use std::thread::Threads;

/// Does the job that the words after the program's name ask for. Words that stand for files are names of 1 to 200
/// bytes.
///
/// - `session SESSION SERVERS` runs the auctions of several lots among three servers, one after another.
/// - `replay SESSION SERVERS SCHEDULE` delivers the messages of a schedule, each in its lot, and tells how each server
///   stands in each lot.
/// - `pair SESSION1 SESSION2 SERVERS SERVER OUT` writes what a server sees of two sessions, with the words of the
///   second with which it sees the same of each lot, to `OUT.first`, `OUT.second` and `OUT.words`.
///
/// Answers the exit status, as the program `beet` does for its jobs: 0 if the job is done; 1 for want of memory, and
/// then nothing is said; 2 if the words name no job; 3 if a file cannot be fetched; 4 if a file or the text is not
/// taken; 5 for a file that is too long, breaks its format or breaks a limit of the job; 6 if the run of a lot, or in
/// `replay` a server of some lot, has met the third rejected mask, which is said with the job's text; 7 if two sessions
/// do not agree for the server; 9 for a bidder or a server whose tape holds too few words, which is said with its lot.
/// At 2, 3, 5, 7 and 9 the line that tells the cause is said, and no file is put. The text is said after all files were
/// put.
///
/// The servers run in lockstep on the caller's thread. `session` and `replay` start no thread, and wait for nobody;
/// `pair` deals the points of large books in several threads, which it joins.
pub fn run_session<S: Shelf, K: Desk, R: Threads + Sync>(
    rt: &R,
    alloc: Global,
    words: &[String],
    shelf: &mut S,
    desk: &mut K,
) -> u8
    ensures { DoesRun (task_of (job_of (map string_bytes words.now))) (S.seen shelf.old) (S.seen shelf.new)
        (K.seen desk.old) (K.seen desk.new) result }
{
    end_run(alloc, desk, jobs::do_named(rt, alloc, shelf, words))
}
