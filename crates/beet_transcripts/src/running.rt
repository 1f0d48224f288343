//! Three servers run the auction of a book, and what each of them has seen is shown.

ghost use Rattle.std.specs.Prelude.{◌≡◌, IfErr, IfOk, [], map, false, true};
ghost use Rattle.beet_field.specs.Trio.{member};
ghost use Rattle.beet_bids.specs.Books.{IsBook};
ghost use Rattle.beet_bids.specs.Grids.{IsGrid};
ghost use Rattle.beet_book.specs.Farmers.{book_inputs, farmers_of};
ghost use Rattle.beet_load.specs.Counts.{counts_of};
ghost use Rattle.beet_load.specs.Servers.{cut_servers};
ghost use Rattle.beet_load.specs.Wholes.{CanStart};
ghost use Rattle.beet_auction.specs.Endings.{book_finish, book_rounds};
ghost use Rattle.beet_transcripts.specs.DealtBooks.{shows};
ghost use Rattle.beet_view.specs.BookViews.{seen_at, transcript_for};

use crate::dealing::{SeenByAll, deal_book};
use beet_bids::{Book, Grid};
use beet_errand::Stop;
use beet_field::{Point, Trio};
use beet_forms::beside;
use beet_load::{ServerWords, auction_counts, cut_three};
use beet_plan::Finish;
use beet_run::{finish_at, start_servers};
use beet_view::transcript_of;
use beet_words::{FeList, Words};
use beet_world::lockstep;
use std::alloc::{AllocError, Global};
use std::marker::Sync;
use std::thread::Threads;

/// The grid of a book, which is within its limits.
fn grid_of(book: &Book) -> Grid
    ensures value { result ≡ book.now.grid }
    ensures limits { IsGrid result }
    ensures book { IsBook book.now }
{
    let grid = *book.grid();
    let _prices = grid.prices();
    grid
}

/// What three servers begin with for a book: the grid, the bidders as each server sees them for which they are kept,
/// the points of the inputs, and the words of the servers.
#[derive(Drop)]
pub struct Ready {
    pub grid: Grid,
    pub seen: SeenByAll,
    pub inputs: Trio<FeList>,
    pub tapes: Trio<ServerWords>,
}

/// Deals the bidders of a book on all processors, and keeps as many of each server's words as of a tape. The bidders
/// are kept for one server alone, or for all three if none is named.
pub fn make_ready<R: Threads + Sync>(
    rt: &R,
    alloc: Global,
    whom: Option<Point>,
    book: &Book,
    words: &Words,
) -> Result<Ready, AllocError>
    requires { CanStart book.now words.now }
    ensures book { IfOk result (λ ready. IsBook book.now) }
    ensures grid { IfOk result (λ ready. ready.grid ≡ book.now.grid) }
    ensures seen { IfOk result (λ ready. (s : Point) → shows whom s ≡ true → member ready.seen s
        ≡ map (seen_at book.now.grid s) (farmers_of book.now.bidders words.now.bidders)) }
    ensures not_seen { IfOk result (λ ready. (s : Point) → shows whom s ≡ false → member ready.seen s ≡ []) }
    ensures inputs { IfOk result (λ ready. ready.inputs
        ≡ book_inputs book.now.grid.prices (farmers_of book.now.bidders words.now.bidders)) }
    ensures tapes { IfOk result (λ ready. ready.tapes ≡ cut_servers (counts_of ready.grid) words.now) }
{
    let grid = grid_of(book);
    let dealt = deal_book(rt, alloc, whom, book, words.bidders.as_slice())?;
    let (dealt, tapes) = beside(dealt, cut_three(alloc, &auction_counts(&grid), words))?;
    Ok(Ready {
        grid,
        seen: dealt.seen,
        inputs: dealt.inputs,
        tapes,
    })
}

/// How a run ended, after how many rounds, and the transcript of one server.
#[derive(Drop)]
pub struct SeenRun {
    pub finish: Finish,
    pub rounds: u32,
    pub transcript: Vec<u8>,
}

/// Runs the auction of a book among three servers, which begin with these words, to its end on the caller's thread, and
/// writes what one of them has seen. The bidders are dealt on all processors, and kept for this server alone. Want of
/// memory is the only error.
pub fn see_whole<R: Threads + Sync>(
    rt: &R,
    alloc: Global,
    at: Point,
    book: &Book,
    words: &Words,
) -> Result<SeenRun, Stop>
    requires { CanStart book.now words.now }
    ensures memory { IfErr result (λ stop. stop ≡ Stop.OutOfMemory) }
    ensures transcript { IfOk result (λ run. run.transcript.items ≡ transcript_for book.now words.now at) }
    ensures finish { IfOk result (λ run. run.finish ≡ book_finish book.now words.now.masks) }
    ensures rounds { IfOk result (λ run. run.rounds ≡ book_rounds book.now words.now.masks) }
{
    let begun = make_ready(rt, alloc, Some(at), book, words)?;
    let grid = begun.grid;
    let seen = begun.seen.into_one(at);
    let cores = lockstep(start_servers(alloc, &grid, begun.inputs, begun.tapes)?);
    let finish = finish_at(&cores.one);
    let rounds = cores.one.round();
    let transcript = transcript_of(alloc, cores.get(at), &grid, seen);
    drop(cores);
    Ok(SeenRun {
        finish,
        rounds,
        transcript: transcript?,
    })
}
