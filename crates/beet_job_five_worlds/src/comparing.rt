//! The job `five_worlds`.

ghost use Rattle.beet_errand.specs.Tasks.{DoesTask};
ghost use Rattle.beet_job_five_worlds.specs.Ending.{five_worlds_task};

use crate::answering::answer_both;
use crate::reading::load_both;
use beet_book_differences::WorldsFiles;
use beet_coalition_map::Watchers;
use beet_errand::{Reply, Stop};
use beet_store::Shelf;
use std::alloc::Global;

/// Runs the auction of the first book among five servers with the words that are read, and that of the second with
/// words with which it looks the same to the two servers together. It answers the joint transcripts of the two, which
/// are equal, and the words of the second auction. All runs are on the caller's thread.
///
/// Books that the two servers can tell apart are refused by the line of the first difference, as in the job `worlds`:
/// bidders that are marked by one of the two must have the same bids in both.
pub fn five_worlds<S: Shelf>(
    alloc: Global,
    shelf: &mut S,
    files: &WorldsFiles<'_>,
    watchers: Watchers,
) -> Result<Reply, Stop>
    ensures { DoesTask (five_worlds_task files.now.auction.now files.now.servers.now files.now.first.now
        files.now.second.now watchers.a watchers.b files.now.out.now)
        (S.seen shelf.old) (S.seen shelf.new) result }
{
    let (whole, second) = load_both(alloc, shelf, files)?;
    let reply = answer_both(alloc, watchers, files.out, &whole, &second);
    drop(second);
    drop(whole);
    reply
}
