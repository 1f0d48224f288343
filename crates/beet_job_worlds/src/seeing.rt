//! What one server sees of an auction in two worlds.

ghost use Rattle.std.specs.Prelude.{◌≡◌, IfErr, IfOk};
ghost use Rattle.beet_words.specs.Bundles.{bundle_bytes, FitsBundle};
ghost use Rattle.beet_auction.specs.Endings.{book_finish, book_rounds};
ghost use Rattle.beet_view.specs.BookViews.{transcript_for};
ghost use Rattle.beet_load.specs.Wholes.{CanStart};
ghost use Rattle.beet_run.specs.Outcomes.{outcome_answer};

use beet_bids::Book;
use beet_errand::{Reply, Stop};
use beet_field::Point;
use beet_run::outcome_reply;
use beet_transcripts::see_whole;
use beet_words::{Words, write_bundle};
use std::alloc::Global;
use std::marker::Sync;
use std::thread::Threads;

/// A world of an auction: its book, and the words of its servers and of its bidders.
#[derive(Clone, Copy)]
pub struct BookWithWords<'a> {
    pub book: &'a Book,
    pub words: &'a Words,
}

/// An auction in two worlds: how it ended in the first, and what the server has seen in each.
#[derive(Drop)]
pub struct SeenBoth {
    pub reply: Reply,
    pub first: Vec<u8>,
    pub second: Vec<u8>,
}

/// An auction in two worlds: how it ended in the first, what the server has seen in each, and the bundle of the words
/// of the second.
#[derive(Drop)]
pub struct SeenWorlds {
    pub reply: Reply,
    pub first: Vec<u8>,
    pub second: Vec<u8>,
    pub words: Vec<u8>,
}

/// The first world of two: how its auction ended, and what the server has seen.
#[derive(Drop)]
pub struct SeenFirst {
    pub reply: Reply,
    pub transcript: Vec<u8>,
}

/// Runs the auction in the first world, and writes what one server has seen. Want of memory is the only error.
pub fn see_first<R: Threads + Sync>(
    rt: &R,
    alloc: Global,
    me: Point,
    first: &BookWithWords<'_>,
) -> Result<SeenFirst, Stop>
    requires runs { CanStart first.now.book.now first.now.words.now }
    ensures memory { IfErr result (λ stop. stop ≡ Stop.OutOfMemory) }
    ensures reply { IfOk result (λ seen. seen.reply ≡ outcome_answer first.now.book.now.grid
        (book_finish first.now.book.now first.now.words.now.masks)
        (book_rounds first.now.book.now first.now.words.now.masks)) }
    ensures transcript { IfOk result (λ seen. seen.transcript.items
        ≡ transcript_for first.now.book.now first.now.words.now me) }
{
    let run = see_whole(rt, alloc, me, first.book, first.words)?;
    let reply = outcome_reply(alloc, first.book.grid(), run.finish, run.rounds)?;
    Ok(SeenFirst {
        reply,
        transcript: run.transcript,
    })
}

impl SeenFirst {
    /// Runs the auction in the second world, for which the first is no longer needed, and writes what the server has
    /// seen. Want of memory is the only error.
    pub fn and_second<R: Threads + Sync>(
        self,
        rt: &R,
        alloc: Global,
        me: Point,
        second: &BookWithWords<'_>,
    ) -> Result<SeenBoth, Stop>
        requires runs { CanStart second.now.book.now second.now.words.now }
        ensures memory { IfErr result (λ stop. stop ≡ Stop.OutOfMemory) }
        ensures reply { IfOk result (λ seen. seen.reply ≡ self.reply) }
        ensures first { IfOk result (λ seen. seen.first.items ≡ self.transcript.items) }
        ensures second { IfOk result (λ seen. seen.second.items
            ≡ transcript_for second.now.book.now second.now.words.now me) }
        ensures fits { IfOk result (λ seen. FitsBundle second.now.words.now) }
    {
        // The limits of the grid keep the lists of words short enough for a bundle.
        let _within_limits = second.book.grid().prices();
        let run = see_whole(rt, alloc, me, second.book, second.words)?;
        Ok(SeenBoth {
            reply: self.reply,
            first: self.transcript,
            second: run.transcript,
        })
    }
}

impl SeenBoth {
    /// Adds the bundle of the words of the second world, for which its book is no longer needed. Want of memory is the
    /// only error.
    pub fn with_words(self, alloc: Global, words: &Words) -> Result<SeenWorlds, Stop>
        requires { FitsBundle words.now }
        ensures memory { IfErr result (λ stop. stop ≡ Stop.OutOfMemory) }
        ensures reply { IfOk result (λ seen. seen.reply ≡ self.reply) }
        ensures first { IfOk result (λ seen. seen.first.items ≡ self.first.items) }
        ensures second { IfOk result (λ seen. seen.second.items ≡ self.second.items) }
        ensures words { IfOk result (λ seen. seen.words.items ≡ bundle_bytes words.now) }
    {
        let words = write_bundle(alloc, words)?;
        Ok(SeenWorlds {
            reply: self.reply,
            first: self.first,
            second: self.second,
            words,
        })
    }
}
