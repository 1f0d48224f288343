//! The job `pair`.

ghost use Rattle.beet_errand.specs.Tasks.{DoesTask};
ghost use Rattle.beet_pair_words.specs.Pairs.{of_pair};
ghost use Rattle.beet_job_session_pair.specs.Ending.{pair_task};

use crate::answering::answer_sessions;
use crate::reading::read_both;
use beet_errand::{Reply, Stop};
use beet_field::Point;
use beet_pair_words::PairFiles;
use beet_store::Shelf;
use std::alloc::Global;
use std::marker::Sync;
use std::thread::Threads;

/// Runs the lots of the first session with the words that are read, and those of the second with words with which each
/// looks the same to the server: `pair SESSION1 SESSION2 SERVERS SERVER OUT`. It answers what the server has seen of
/// either session, which are the same bytes, and the words of the second.
pub fn pair<S: Shelf, R: Threads + Sync>(
    rt: &R,
    alloc: Global,
    shelf: &mut S,
    files: &PairFiles<'_>,
    server: Point,
) -> Result<Reply, Stop>
    ensures { DoesTask (of_pair pair_task files.now server) (S.seen shelf.old) (S.seen shelf.new) result }
{
    let both = read_both(alloc, shelf, files.first, files.second, files.servers)?;
    let reply = answer_sessions(rt, alloc, server, files.out, &both);
    drop(both);
    reply
}
