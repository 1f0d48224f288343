//! The answer for two books.

ghost use Rattle.std.specs.Prelude.{◌≡◌, IfErr, IfOk};
ghost use Rattle.beet_load.specs.Wholes.{CanStart};
ghost use Rattle.beet_job_worlds.specs.Answering.{agreed_answer};
ghost use Rattle.beet_view.specs.BookViews.{transcript_for};
ghost use Rattle.beet_job_worlds.specs.Ending.{AnswersBooks};

use crate::seeing::{BookWithWords, see_first};
use beet_auction_map::world_map;
use beet_bids::Book;
use beet_book_differences::refuse_books;
use beet_errand::{Reply, Stop};
use beet_field::Point;
use beet_load::Whole;
use beet_words::Words;
use std::alloc::Global;
use std::marker::Sync;
use std::thread::Threads;

/// Runs both worlds of books that agree, and answers with both transcripts and the words of the second. What the first
/// world was run on is dropped before the second is run, and the second book before its words are written.
fn agreed_reply<R: Threads + Sync>(
    rt: &R,
    alloc: Global,
    me: Point,
    out: &str,
    first: Whole,
    second: Book,
    mapped: &Words,
) -> Result<Reply, Stop>
    requires second_runs { CanStart second mapped.now }
    requires same { transcript_for second mapped.now me ≡ transcript_for first.book first.words me }
    ensures memory { IfErr result (λ stop. stop ≡ Stop.OutOfMemory) }
    ensures answer { IfOk result (λ reply. reply ≡ agreed_answer out.now first.book first.words
        (transcript_for first.book first.words me) mapped.now) }
{
    let world = BookWithWords {
        book: &first.book,
        words: &first.words,
    };
    let seen = see_first(rt, alloc, me, &world);
    drop(first);
    let world = BookWithWords {
        book: &second,
        words: mapped,
    };
    let seen = seen?.and_second(rt, alloc, me, &world);
    drop(second);
    let seen = seen?.with_words(alloc, mapped)?;
    Ok(
        seen.reply
            .telling_worlds(alloc, out, seen.first, seen.second, seen.words)?,
    )
}

/// The answer for two books over one grid: they are refused if they do not agree for server `me`.
pub(crate) fn answer_both<R: Threads + Sync>(
    rt: &R,
    alloc: Global,
    me: Point,
    out: &str,
    first: Whole,
    second: Book,
) -> Result<Reply, Stop>
    requires { second.grid ≡ first.book.grid }
    ensures { AnswersBooks me out.now first.book first.words second result }
{
    match world_map(alloc, me, &first.book, &second, &first.words) {
        Ok(mapped) => agreed_reply(rt, alloc, me, out, first, second, &mapped),
        Err(fault) => Err(refuse_books(alloc, fault)),
    }
}
