//! The jobs of the program of sales, over any shelf and desk.
#![tactic(auto)]

ghost use Rattle.std.specs.Prelude.{map, string_bytes};
ghost use Rattle.beet_errand.specs.Tasks.{DoesRun};
ghost use Rattle.beet_sale_app.specs.Doing.{task_of};
ghost use Rattle.beet_sale_app.specs.Jobs.{job_of};

mod commands;
mod jobs;

use beet_errand::end_run;
use beet_store::{Desk, Shelf};
use std::alloc::Global;

/// Does the job that the words after the program's name ask for. Words that stand for files are names of 1 to 200
/// bytes.
///
/// - `sale SALE SERVERS` holds a sealed sale at the second price among three servers.
/// - `pair SALE1 SALE2 SERVERS SERVER OUT` holds two sales, the second with words with which it looks the same to a
///   server, and puts the transcripts `OUT.first` and `OUT.second` and the words of the second, `OUT.words`.
///
/// Answers the exit status, as the program `beet` does for its jobs: 0 if the job is done; 1 for want of memory,
/// and then nothing is said; 2 if the words name no job; 3 if a file cannot be fetched; 4 if a file or the text is not
/// taken; 5 for a file that is too long or breaks its format, or if the second sale has other gates than the first; 6
/// if the run has met the third rejected mask, which is said with the job's text; 7 if two sales do not agree for the
/// server; 9 for a bidder or a server whose tape holds too few words. At 2, 3, 5, 7 and 9 the line that tells the cause
/// is said.
///
/// The servers run in lockstep on the caller's thread, so the call waits for nobody.
pub fn run_sale<S: Shelf, K: Desk>(
    alloc: Global,
    words: &[String],
    shelf: &mut S,
    desk: &mut K,
) -> u8
    ensures { DoesRun (task_of (job_of (map string_bytes words.now))) (S.seen shelf.old) (S.seen shelf.new)
        (K.seen desk.old) (K.seen desk.new) result }
{
    end_run(alloc, desk, jobs::do_named(alloc, shelf, words))
}
