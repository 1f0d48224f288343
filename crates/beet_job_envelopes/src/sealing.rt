//! The job `seal`.

ghost use Rattle.std.specs.Prelude.{◌≡◌, ◌≤◌, ◌*◌, [], ◌∷◌, IfOk, length, None};
ghost use Rattle.beet_words.specs.Words.{accepted};
ghost use Rattle.beet_bids.specs.Curves.{IsOfGrid};
ghost use Rattle.beet_book.specs.Dealing.{HasLengths};
ghost use Rattle.beet_farmer.specs.Envelopes.{envelope_bytes};
ghost use Rattle.beet_farmer.specs.Sealing.{points_in};
ghost use Rattle.beet_load.specs.Counts.{words_wanted};
ghost use Rattle.beet_load.specs.Farmers.{words_errand};
ghost use Rattle.beet_errand.specs.Errands.{file_for};
ghost use Rattle.beet_errand.specs.Fetches.{Reads};
ghost use Rattle.beet_job_envelopes.specs.Seal.{own_words_errand, seal_job, sealed_answer, sealed_text};
ghost use Rattle.beet_job_envelopes.specs.SourceWords.{named_source};

use crate::source_word::SourceWord;
use beet_bids::{Curve, Grid};
use beet_errand::{NewFile, Reply, Status, Stop};
use beet_farmer::{Envelope, seal, write_envelope};
use beet_field::Trio;
use beet_load::{auction_wants, check_words, read_curve, read_grid, read_tape_file};
use beet_plan::words_kept;
use beet_store::Shelf;
use beet_words::Tape;
use std::alloc::{AllocError, Global};

/// The number that a farmer has in a line on too few words.
const FARMER: u32 = 1;

/// The tape of a source, at its first word.
fn read_source<S: Shelf>(
    alloc: Global,
    shelf: &mut S,
    source: SourceWord<'_>,
    kept: u32,
) -> Result<Tape, Stop>
    ensures fresh { IfOk result (λ tape. tape.passed ≡ 0) }
    ensures reads { Reads (λ tape. tape.words) (S.seen shelf.old) (S.seen shelf.new)
        (words_errand None (named_source source.entry) kept) result }
{
    match source {
        SourceWord::Seed(seed) => Ok(Tape::of_seed(alloc, &seed, 0, kept)?),
        SourceWord::Tape(name) => read_tape_file(alloc, shelf, name, kept),
    }
}

/// The tape of a source, at its first word, with enough words for the grid.
fn read_words<S: Shelf>(
    alloc: Global,
    shelf: &mut S,
    grid: &Grid,
    source: SourceWord<'_>,
) -> Result<Tape, Stop>
    ensures fresh { IfOk result (λ tape. tape.passed ≡ 0) }
    ensures enough { IfOk result (λ tape. words_wanted grid.now ≤ length (accepted tape.words)) }
    ensures reads { Reads (λ tape. tape.words) (S.seen shelf.old) (S.seen shelf.new)
        (own_words_errand grid.now (named_source source.entry)) result }
{
    let tape = read_source(alloc, shelf, source, words_kept(grid))?;
    check_words(alloc, &auction_wants(None, grid), FARMER, &tape)?;
    Ok(tape)
}

fn envelope_file(
    alloc: Global,
    grid: &Grid,
    out: &str,
    envelope: &Envelope,
) -> Result<NewFile, AllocError>
    requires { length envelope.now.points ≡ 2 * grid.now.prices }
    ensures { IfOk result (λ file. file ≡
        (file_for out.now envelope.now.server, envelope_bytes grid.now envelope.now)) }
{
    let bytes = write_envelope(alloc, grid, envelope)?;
    NewFile::of_server(alloc, out, envelope.server, bytes)
}

/// The files of the envelopes, in the order of the servers.
fn envelope_files(
    alloc: Global,
    grid: &Grid,
    out: &str,
    envelopes: &Trio<Envelope>,
) -> Result<Vec<NewFile>, AllocError>
    requires { HasLengths (points_in envelopes.now) (2 * grid.now.prices) }
    ensures { IfOk result (λ files. files.items ≡
        (file_for out.now envelopes.now.one.server, envelope_bytes grid.now envelopes.now.one)
        ∷ (file_for out.now envelopes.now.two.server, envelope_bytes grid.now envelopes.now.two)
        ∷ (file_for out.now envelopes.now.three.server, envelope_bytes grid.now envelopes.now.three)
        ∷ []) }
{
    let files = Trio {
        one: envelope_file(alloc, grid, out, &envelopes.one),
        two: envelope_file(alloc, grid, out, &envelopes.two),
        three: envelope_file(alloc, grid, out, &envelopes.three),
    };
    let Trio { one, two, three } = files.transpose()?;
    Ok(vec![in alloc; one, two, three]?)
}

/// The line that tells the number of prices.
fn sealed_line(alloc: Global, prices: u32) -> Result<Vec<u8>, AllocError>
    ensures { IfOk result (λ text. text.items ≡ sealed_text prices) }
{
    Ok(format!(in alloc; "sealed {prices}\n")?.into_bytes())
}

/// What sealing this curve with the words of this tape answers.
fn sealed_reply(
    alloc: Global,
    grid: &Grid,
    curve: &Curve,
    tape: &mut Tape,
    out: &str,
) -> Result<Reply, AllocError>
    requires of_grid { IsOfGrid grid.now curve.now }
    requires fresh { tape.old.passed ≡ 0 }
    requires enough { words_wanted grid.now ≤ length (accepted tape.old.words) }
    ensures { IfOk result (λ reply. reply ≡ sealed_answer grid.now out.now curve.now tape.old.words) }
{
    let envelopes = seal(alloc, grid, curve, tape)?;
    let files = envelope_files(alloc, grid, out, &envelopes);
    // One call lets them go: else the proof of each way out goes through each of their parts.
    drop(envelopes);
    Ok(Reply {
        status: Status::Done,
        files: files?,
        text: sealed_line(alloc, grid.prices())?,
    })
}

/// Seals this curve in three envelopes, one for each server, with the words of a source.
fn seal_curve<S: Shelf>(
    alloc: Global,
    shelf: &mut S,
    grid: &Grid,
    curve: &Curve,
    source: SourceWord<'_>,
    out: &str,
) -> Result<Reply, Stop>
    requires { IsOfGrid grid.now curve.now }
    ensures done { IfOk result (λ reply. reply.status ≡ Status.Done) }
    ensures reads { Reads (λ reply. reply) (S.seen shelf.old) (S.seen shelf.new)
        (λ next. own_words_errand grid.now (named_source source.entry)
        (λ words. next (sealed_answer grid.now out.now curve.now words))) result }
{
    let mut tape = read_words(alloc, shelf, grid, source)?;
    let reply = sealed_reply(alloc, grid, curve, &mut tape, out);
    drop(tape);
    Ok(reply?)
}

/// The names of the files of the job: two that it reads, and what begins the names of those that it puts.
#[derive(Clone, Copy)]
pub struct SealFiles<'a> {
    pub auction: &'a str,
    pub bid: &'a str,
    pub out: &'a str,
}

/// Seals the bid of a file in three envelopes, one for each server, with the words of a source. They are the files
/// `out` with `.1`, `.2` and `.3`.
pub fn seal_bid<S: Shelf>(
    alloc: Global,
    shelf: &mut S,
    files: &SealFiles<'_>,
    source: SourceWord<'_>,
) -> Result<Reply, Stop>
    ensures done { IfOk result (λ reply. reply.status ≡ Status.Done) }
    ensures reads { Reads (λ reply. reply) (S.seen shelf.old) (S.seen shelf.new)
        (seal_job files.now.auction.now files.now.bid.now (named_source source.entry) files.now.out.now) result }
{
    let grid = read_grid(alloc, shelf, files.auction)?;
    let curve = read_curve(alloc, shelf, &grid, files.bid)?;
    let reply = seal_curve(alloc, shelf, &grid, &curve, source, files.out);
    drop(curve);
    reply
}
