//! The jobs of the program, over any shelf and desk.
#![tactic(auto)]

ghost use Rattle.std.specs.Prelude.{◌≡◌, ◌⊎◌, map, string_bytes};
ghost use Rattle.beet_errand.specs.Tasks.{DoesRun};
ghost use Rattle.beet_app.specs.Doing.{task_of};
ghost use Rattle.beet_app.specs.Jobs.{job_of};
ghost use Rattle.beet_app.specs.Showing.{Shows};

mod commands;
mod five;
mod jobs;

use beet_errand::end_run;
use beet_link::Gate;
use beet_store::{Desk, Shelf};
pub use five::{names_five, run_five};
use std::alloc::Global;
use std::sync::Wait;
use std::thread::Threads;
use std::time::Clock;

/// Does the job that the words after the program's name ask for. Words that stand for files are names of 1 to 200
/// bytes.
///
/// - `tally AUCTION BOOK` opens the sums of supply and demand at an auction of one price.
/// - `clear AUCTION SERVERS BOOK` runs the auction of a book among three servers.
/// - `watch AUCTION SERVERS BOOK` does the same, and counts what each server tells an audit desk of its rounds.
/// - `rehearse AUCTION SERVERS BOOK SCHEDULE` delivers the messages of a schedule, and tells how each server stands.
/// - `record AUCTION SERVERS BOOK OUT` writes what each server has seen of a run to `OUT.1`, `OUT.2` and `OUT.3`.
/// - `audit AUCTION T1 T2 T3` tells how the run ended of which three transcripts are what the three servers have seen.
/// - `worlds AUCTION SERVERS BOOK1 BOOK2 SERVER OUT` writes what a server sees in the runs of two books, with the words
///   of the second run with which it sees the same, to `OUT.first`, `OUT.second` and `OUT.words`.
/// - `seal AUCTION BID SOURCE OUT` writes a bid in three envelopes, `OUT.1`, `OUT.2` and `OUT.3`; the source of its
///   words is `seed:` and 64 hexadecimal digits, or `tape:` and a name.
/// - `open AUCTION SERVERS LIST` runs the auction of the envelopes that a list names.
/// - `witness AUCTION SERVERS LIST OUT` does the same, and writes what each server has seen of it as `record` does.
/// - `five AUCTION SERVERS BOOK` runs the auction of a book among five servers.
/// - `five_worlds AUCTION SERVERS BOOK1 BOOK2 A B OUT` writes what servers `A` and `B` of five see together in the runs
///   of two books, as `worlds` does for one server of three; `A` is below `B`.
/// - `trial BIDDERS PRICES` runs the auction of a book that is made by a rule, of 0 to 2,000 bidders and 1 to 4,096
///   prices.
///
/// Answers the exit status: 0 if the job is done; 1 for want of memory, and then nothing is said; 2 if the words
/// name no job; 3 if a file cannot be fetched; 4 if a file or the text is not taken; 5 for a file that is too
/// long, breaks its format or breaks a limit of the job; 6 if a run, or in `rehearse` a server, has ended with the
/// third rejected mask, which is said with the job's text; 7 if two books do not agree for a server, or for two of
/// five; 8 if three transcripts are not those of one run; 9 for a bidder or a server whose tape holds too few words.
/// At 2, 3, 5, 7, 8 and 9 the line that tells the cause is said, and no file is put. The text is said after all files
/// were put.
///
/// In `clear`, `watch`, `record`, `open`, `witness` and `trial` three servers run at the same time. Each meets the gate
/// once in each round, before it puts its messages of the round; in `watch` there is no gate. So `run` may wait, and
/// what is promised holds if it returns. If a worker cannot be started or a link finds no memory, no server has begun,
/// and the same three run in lockstep, without the gate.
pub fn run<S: Shelf, K: Desk, R: Threads + Wait + Clock + Sync, G: Gate>(
    rt: &R,
    alloc: Global,
    words: &[String],
    shelf: &mut S,
    desk: &mut K,
    gate: &G,
) -> u8
    // The files fetched, the files put, the text said and the status are those of the job, and each status has its
    // cause.
    ensures does { DoesRun (task_of (job_of (map string_bytes words.now))) (S.seen shelf.old) (S.seen shelf.new)
        (K.seen desk.old) (K.seen desk.new) result }

    // Two worlds that were compared are shown to look the same to the server, or to two of five, and three transcripts
    // to be of one run.
    ensures shows { (result ≡ 0) ⊎ (result ≡ 6) → Shows (job_of (map string_bytes words.now))
        (S.seen shelf.old).told (S.seen shelf.new).told (K.seen desk.old).told.given (K.seen desk.new).told.given }
{
    if names_five(words) {
        return run_five(alloc, words, shelf, desk);
    }
    end_run(alloc, desk, jobs::do_named(rt, alloc, shelf, words, gate))
}
