//! The answer for two sessions.

ghost use Rattle.std.specs.Prelude.{◌≡◌, ◌≤◌, [], false, if◌then◌else◌, IfErr, IfOk, OnOk, length};
ghost use Rattle.beet_errand.specs.Errands.{text_answer};
ghost use Rattle.beet_errand.specs.Worlds.{files_of_worlds, telling_equal};
ghost use Rattle.beet_errand.specs.declared.answer.Status.TheVariants.{Done, MasksSpent};
ghost use Rattle.beet_lots.specs.declared.lots.TheConstants.{MOST_LOTS};
ghost use Rattle.beet_lot_map.specs.LotMaps.{SessionMapped};
ghost use Rattle.beet_lot_view.specs.SessionViews.{lots_start, view_magic, words_magic};
ghost use Rattle.beet_job_session_pair.specs.Answering.{ShowsTheSame};
ghost use Rattle.beet_job_session_pair.specs.Ending.{AnswersSessions};
ghost use Rattle.beet_job_session_pair.specs.Kept.{both_of};
ghost use Rattle.beet_job_session_pair.specs.Seeing.{AddsLot, AreSeen};
ghost use Rattle.beet_job_session_pair.specs.Starting.{CanStartEach};

use crate::refusing::refusal;
use crate::sessions::{BothSessions, WholeLots};
use beet_bids::Book;
use beet_errand::{Reply, Stop};
use beet_field::Point;
use beet_job_worlds::{BookWithWords, SeenWorlds, see_first};
use beet_lot_files::LotRow;
use beet_lot_load::LotsTold;
use beet_lot_map::session_map;
use beet_lot_view::LotsFile;
use beet_words::Words;
use std::alloc::{AllocError, Global};
use std::marker::Sync;
use std::thread::Threads;

/// What is put and told of two sessions, as far as their lots are seen: the files of what the server has seen in each,
/// and that of the words of the second.
#[derive(Drop)]
pub struct SeenSessions {
    pub first: LotsFile,
    pub second: LotsFile,
    pub words: LotsFile,
    pub told: LotsTold,
}

impl SeenSessions {
    /// Of so many lots none is seen yet.
    fn new(alloc: Global, lots: u64) -> Result<SeenSessions, AllocError>
        ensures first { IfOk result (λ seen. seen.first ≡ lots_start view_magic lots) }
        ensures second { IfOk result (λ seen. seen.second ≡ lots_start view_magic lots) }
        ensures words { IfOk result (λ seen. seen.words ≡ lots_start words_magic lots) }
        ensures told { IfOk result (λ seen. (seen.told.text.items ≡ []) × (seen.told.spent ≡ false)) }
    {
        Ok(SeenSessions {
            first: LotsFile::of_views(alloc, lots)?,
            second: LotsFile::of_views(alloc, lots)?,
            words: LotsFile::of_words(alloc, lots)?,
            told: LotsTold::new(alloc),
        })
    }

    /// One lot more, of this row.
    fn add(&mut self, alloc: Global, row: &LotRow, lot: &SeenWorlds) -> Result<(), AllocError>
        ensures { OnOk result (AddsLot row.now lot.now self.old self.new) }
    {
        self.first.push(lot.first.as_slice())?;
        self.second.push(lot.second.as_slice())?;
        self.words.push(lot.words.as_slice())?;
        self.told.add(alloc, row.name.as_str(), &lot.reply)
    }

    /// The reply that puts these files and tells this, and that the transcripts are equal.
    fn into_reply(self, alloc: Global, out: &str) -> Result<Reply, AllocError>
        ensures { IfOk result (λ reply. reply ≡ telling_equal
            (text_answer (if self.told.spent then MasksSpent else Done) self.told.text.items)
            (files_of_worlds out.now self.first self.second self.words)) }
    {
        let SeenSessions {
            first,
            second,
            words,
            told,
        } = self;
        told.into_reply(alloc).telling_worlds(
            alloc,
            out,
            first.into_bytes(),
            second.into_bytes(),
            words.into_bytes(),
        )
    }
}

/// Runs the auctions of all lots with both books, one lot after another.
fn see_lots<R: Threads + Sync>(
    rt: &R,
    alloc: Global,
    me: Point,
    rows: &[LotRow],
    lots: &WholeLots,
    seconds: &[Book],
    mapped: &[Words],
) -> Result<SeenSessions, Stop>
    requires runs { CanStartEach lots.now.books.items lots.now.words.items }
    requires count { length lots.now.books.items ≡ length rows.now }
    requires mapped { SessionMapped me lots.now.books.items lots.now.words.items seconds.now mapped.now }
    ensures memory { IfErr result (λ stop. stop ≡ Stop.OutOfMemory) }
    ensures seen { IfOk result (AreSeen me rows.now lots.now.books.items lots.now.words.items mapped.now) }
{
    let books = lots.books.as_slice();
    let words = lots.words.as_slice();
    let mut seen = SeenSessions::new(alloc, rows.len() as u64)?;
    for (i, row) in rows.iter().enumerate() {
        let first = BookWithWords {
            book: &books[i],
            words: &words[i],
        };
        let second = BookWithWords {
            book: &seconds[i],
            words: &mapped[i],
        };
        let lot = see_first(rt, alloc, me, &first)?
            .and_second(rt, alloc, me, &second)?
            .with_words(alloc, second.words)?;
        let added = seen.add(alloc, row, &lot);
        drop(lot);
        added?;
    }
    Ok(seen)
}

/// The reply for sessions that look the same.
fn same_reply<R: Threads + Sync>(
    rt: &R,
    alloc: Global,
    me: Point,
    out: &str,
    both: &BothSessions,
    mapped: &[Words],
) -> Result<Reply, Stop>
    requires runs { CanStartEach both.now.lots.books.items both.now.lots.words.items }
    requires count { length both.now.lots.books.items ≡ length both.now.rows }
    requires mapped { SessionMapped me both.now.lots.books.items both.now.lots.words.items both.now.seconds.items
        mapped.now }
    ensures memory { IfErr result (λ stop. stop ≡ Stop.OutOfMemory) }
    ensures shows { IfOk result (ShowsTheSame me out.now (both_of both.now)) }
{
    let seconds = both.seconds.as_slice();
    let seen = see_lots(rt, alloc, me, both.rows.rows(), &both.lots, seconds, mapped)?;
    Ok(seen.into_reply(alloc, out)?)
}

/// The answer for two sessions: they are refused if they do not agree for server `me`.
pub(crate) fn answer_sessions<R: Threads + Sync>(
    rt: &R,
    alloc: Global,
    me: Point,
    out: &str,
    both: &BothSessions,
) -> Result<Reply, Stop>
    requires runs { CanStartEach both.now.lots.books.items both.now.lots.words.items }
    requires count { length both.now.lots.books.items ≡ length both.now.rows }
    requires few { length both.now.rows ≤ MOST_LOTS }
    requires few_seconds { length both.now.seconds.items ≤ MOST_LOTS }
    ensures { AnswersSessions me out.now (both_of both.now) result }
{
    let books = both.lots.books.as_slice();
    let words = both.lots.words.as_slice();
    match session_map(alloc, me, books, both.seconds.as_slice(), words) {
        Ok(mapped) => same_reply(rt, alloc, me, out, both, mapped.as_slice()),
        Err(fault) => Err(refusal(alloc, fault)),
    }
}
