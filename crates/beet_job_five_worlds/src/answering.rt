//! The answer for two books.

ghost use Rattle.std.specs.Prelude.{◌≡◌, IfErr, IfOk};
ghost use Rattle.beet_five_dealing.specs.FiveWords.{CanRun};
ghost use Rattle.beet_five_load.specs.FiveWholes.{read_of};
ghost use Rattle.beet_five_run.specs.FiveRuns.{HasFewWords};
ghost use Rattle.beet_job_five_worlds.specs.Answering.{agreed_answer};
ghost use Rattle.beet_job_five_worlds.specs.Ending.{AnswersForTwo};

use crate::seeing::see_book;
use beet_bids::Book;
use beet_book_differences::refuse_books;
use beet_coalition_map::Watchers;
use beet_errand::{Reply, Stop};
use beet_five_dealing::FiveWords;
use beet_five_load::FiveWhole;
use beet_five_map::five_map;
use beet_five_view::write_five_words;
use beet_run::outcome_reply;
use std::alloc::Global;

/// Runs both worlds of books that agree, one after the other, and answers with both joint transcripts and the words of
/// the second.
fn agreed_reply(
    alloc: Global,
    two: Watchers,
    out: &str,
    whole: &FiveWhole,
    second: &Book,
    mapped: &FiveWords,
) -> Result<Reply, Stop>
    requires grids { second.now.grid ≡ whole.now.book.grid }
    requires runs { CanRun second.now mapped.now }
    requires few { HasFewWords mapped.now }
    ensures memory { IfErr result (λ stop. stop ≡ Stop.OutOfMemory) }
    ensures answer { IfOk result (λ reply.
        reply ≡ agreed_answer two.a two.b out.now (read_of whole.now) second.now mapped.now) }
{
    let one = see_book(alloc, two, &whole.book, &whole.words)?;
    let other = see_book(alloc, two, second, mapped)?;
    let words = write_five_words(alloc, mapped)?;
    let reply = outcome_reply(alloc, whole.book.grid(), one.finish, one.rounds)?;
    Ok(reply.telling_worlds(alloc, out, one.transcript, other.transcript, words)?)
}

/// The answer for two books over one grid: they are refused if the two servers can tell them apart.
pub(crate) fn answer_both(
    alloc: Global,
    two: Watchers,
    out: &str,
    whole: &FiveWhole,
    second: &Book,
) -> Result<Reply, Stop>
    requires { second.now.grid ≡ whole.now.book.grid }
    ensures { AnswersForTwo two.a two.b out.now (read_of whole.now) second.now result }
{
    // The second book is within its limits.
    let _grid = second.grid();
    match five_map(alloc, two, &whole.book, second, &whole.words) {
        Ok(mapped) => agreed_reply(alloc, two, out, whole, second, &mapped),
        Err(fault) => Err(refuse_books(alloc, fault)),
    }
}
