//! The job `worlds`.

ghost use Rattle.beet_errand.specs.Tasks.{DoesTask};
ghost use Rattle.beet_job_worlds.specs.Ending.{worlds_task};

use crate::answering::answer_both;
use beet_book_differences::WorldsFiles;
use beet_errand::{Reply, Stop};
use beet_field::Point;
use beet_forms::beside;
use beet_load::{AuctionFiles, load_curves, load_whole};
use beet_store::Shelf;
use std::alloc::Global;
use std::marker::Sync;
use std::thread::Threads;

/// Runs the auction of the first book with the words that are read, and that of the second with words with which it
/// looks the same to the server. It answers the transcripts of the server, which are equal, and the words of the second
/// auction.
pub fn worlds<S: Shelf, R: Threads + Sync>(
    rt: &R,
    alloc: Global,
    shelf: &mut S,
    files: &WorldsFiles<'_>,
    server: Point,
) -> Result<Reply, Stop>
    ensures { DoesTask (worlds_task files.now.auction.now files.now.servers.now files.now.first.now
        files.now.second.now server files.now.out.now)
        (S.seen shelf.old) (S.seen shelf.new) result }
{
    let first = AuctionFiles {
        auction: files.auction,
        servers: files.servers,
        book: files.first,
    };
    let whole = load_whole(alloc, shelf, &first)?;
    let second = load_curves(alloc, shelf, 0, whole.book.grid(), files.second);
    let (whole, second) = beside(whole, second)?;
    answer_both(rt, alloc, server, files.out, whole, second)
}
