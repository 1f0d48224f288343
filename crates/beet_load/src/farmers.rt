//! Reading the bidders of a book.

ghost use Rattle.std.specs.Prelude.{◌≡◌, ◌≤◌, ◌<◌, ◌^◌, ◌+◌, ◌*◌, IfOk, OnOk, length, take, decimal, option_map, None};
ghost use Rattle.beet_forms.specs.Faults.{Answers};
ghost use Rattle.beet_words.specs.Words.{accepted};
ghost use Rattle.beet_words.specs.TapeFiles.{tape_of};
ghost use Rattle.beet_words.specs.Seeds.{seed_words};
ghost use Rattle.beet_bids.specs.Curves.{IsOfGrid, IsCurve, Curve};
ghost use Rattle.beet_bids.specs.BidFiles.{bid_of};
ghost use Rattle.beet_load.specs.WordTexts.{too_few_text};
ghost use Rattle.beet_errand.specs.Errands.{reads};
ghost use Rattle.beet_masking.specs.Masks.{with_spare};
ghost use Rattle.beet_load.specs.Farmers.{words_errand, bidder_errand, farmer_errand};
ghost use Rattle.beet_load.specs.Farmers.{enough_accepted, enough_words};
ghost use Rattle.beet_load.specs.FarmerViews.{farmer_of};
ghost use Rattle.beet_errand.specs.Fetches.{Reads, Refuses, Tests};
ghost use Rattle.beet_bids.specs.declared.bid_file.TheConstants.{BID_LIMIT};
ghost use Rattle.beet_forms.specs.declared.faults.TheConstants.{LONGEST_FILE};
ghost use Rattle.beet_words.specs.declared.tape_file.TheConstants.{TAPE_LIMIT};

use crate::lots::lot_text;
use crate::wanted::Wanted;
use beet_bids::{BID_LIMIT, Curve, Grid, read_bid};
use beet_book::{BidderSource, Entry};
use beet_errand::{Refusal, Stop, fetch_file, judge};
use beet_forms::ReadFault;
use beet_store::Shelf;
use beet_words::{TAPE_LIMIT, Tape, WordList, read_tape};
use std::alloc::{AllocError, Global};

/// The curve of a bid file of at most 1,048,576 bytes, over the places of the grid. A file that cannot be fetched, is
/// too long or breaks the format is refused with its line.
pub fn read_curve<S: Shelf>(
    alloc: Global,
    shelf: &mut S,
    grid: &Grid,
    name: &str,
) -> Result<Curve, Stop>
    ensures of_grid { IfOk result (λ curve. IsOfGrid grid.now curve) }
    ensures reads { Reads (λ curve. curve) (S.seen shelf.old) (S.seen shelf.new)
        (reads name.now BID_LIMIT (bid_of grid.now)) result }
{
    let bytes = fetch_file(alloc, shelf, name, BID_LIMIT)?;
    judge(alloc, name, read_bid(alloc, grid, bytes.as_slice()))
}

/// The tape that a file reads as, cut to the words that are kept.
fn tape_in(alloc: Global, bytes: &[u8], kept: u32) -> Result<Tape, ReadFault>
    requires { length bytes.now ≤ LONGEST_FILE }
    ensures fresh { IfOk result (λ tape. tape.passed ≡ 0) }
    ensures cut { IfOk result (λ tape. length tape.words ≤ kept) }
    ensures answers { Answers (λ tape. tape.words) (tape_of bytes.now kept) result }
{
    match read_tape(alloc, bytes, kept) {
        Ok(words) => Ok(Tape::of_words(words)),
        Err(fault) => Err(fault),
    }
}

/// The tape of a file, cut to the words that are kept.
pub fn read_tape_file<S: Shelf>(
    alloc: Global,
    shelf: &mut S,
    name: &str,
    kept: u32,
) -> Result<Tape, Stop>
    ensures fresh { IfOk result (λ tape. tape.passed ≡ 0) }
    ensures cut { IfOk result (λ tape. length tape.words ≤ kept) }
    ensures reads { Reads (λ tape. tape.words) (S.seen shelf.old) (S.seen shelf.new)
        (reads name.now TAPE_LIMIT (λ bytes. tape_of bytes kept)) result }
{
    let bytes = fetch_file(alloc, shelf, name, TAPE_LIMIT)?;
    judge(alloc, name, tape_in(alloc, bytes.as_slice(), kept))
}

/// The tape of the first words of a list, in memory of its own.
pub fn front(alloc: Global, words: &WordList, kept: u32) -> Result<Tape, AllocError>
    ensures { IfOk result (λ tape. tape ≡ record { words = take kept words.now; passed = 0 }) }
{
    Ok(Tape::of_words(words.front(alloc, kept as usize)?))
}

/// The tape of a source, at its first word.
fn source_tape<S: Shelf>(
    alloc: Global,
    shelf: &mut S,
    source: &BidderSource,
    kept: u32,
) -> Result<Tape, Stop>
    ensures fresh { IfOk result (λ tape. tape.passed ≡ 0) }
    ensures cut { IfOk result (λ tape. length tape.words ≤ kept) }
    ensures reads { Reads (λ tape. tape.words) (S.seen shelf.old) (S.seen shelf.new)
        (words_errand None source.now kept) result }
{
    match source {
        BidderSource::Seed(seed) => Ok(Tape::of_seed(alloc, seed, 0, kept)?),
        BidderSource::Tape(name) => read_tape_file(alloc, shelf, name.as_str(), kept),
    }
}

/// The tape of the words that are given, or else of the source, at its first word.
fn bidder_tape<S: Shelf>(
    alloc: Global,
    shelf: &mut S,
    given: Option<&WordList>,
    source: &BidderSource,
    kept: u32,
) -> Result<Tape, Stop>
    ensures fresh { IfOk result (λ tape. tape.passed ≡ 0) }
    ensures cut { IfOk result (λ tape. length tape.words ≤ kept) }
    ensures reads { Reads (λ tape. tape.words) (S.seen shelf.old) (S.seen shelf.new)
        (words_errand (option_map (λ words. words.now) given.entry) source.now kept) result }
{
    match given {
        Some(words) => Ok(front(alloc, words, kept)?),
        None => source_tape(alloc, shelf, source, kept),
    }
}

/// The line for a bidder whose words are too few.
fn too_few_line(
    alloc: Global,
    lot: Option<u32>,
    number: u32,
    held: u32,
    wanted: u32,
) -> Result<Vec<u8>, AllocError>
    ensures { IfOk result (λ line. line.items ≡ too_few_text lot number held wanted) }
{
    let of = lot_text(alloc, lot)?;
    let line = format!(in alloc; "too few words: {of}bidder {number} {held} of {wanted}\n")?;
    Ok(line.into_bytes())
}

/// Refuses a bidder whose words are too few.
pub(crate) fn too_few_words(
    alloc: Global,
    lot: Option<u32>,
    number: u32,
    held: u32,
    wanted: u32,
) -> Stop
    ensures { Refuses Refusal.TooFewWords (too_few_text lot number held wanted) result }
{
    let line = too_few_line(alloc, lot, number, held, wanted);
    Stop::of_line(Refusal::TooFewWords, line)
}

/// Refuses the bidder of this number if so many accepted words are fewer than it wants, with the line
/// `too few words: bidder N H of W`. Want of memory is the only other error.
pub fn check_accepted(alloc: Global, wanted: &Wanted, number: u32, held: u32) -> Result<(), Stop>
    ensures tests { Tests (enough_accepted wanted.now.lot number wanted.now.counts.words held) result }
    ensures enough { OnOk result (wanted.now.counts.words ≤ held) }
{
    let want = wanted.counts.words();
    if held < want {
        return Err(too_few_words(alloc, wanted.lot, number, held, want));
    }
    Ok(())
}

/// Refuses the bidder of this number as `check_accepted` does, by the accepted words of its tape, at its first word.
pub fn check_words(alloc: Global, wanted: &Wanted, number: u32, tape: &Tape) -> Result<(), Stop>
    requires { tape.now.passed ≡ 0 }
    ensures tests { Tests (enough_words wanted.now.lot number wanted.now.counts.words tape.now.words) result }
    ensures enough { OnOk result (wanted.now.counts.words ≤ length (accepted tape.now.words)) }
{
    check_accepted(alloc, wanted, number, tape.accepted_left())
}

/// The tape of the bidder of this number, at its first word: the words that are given or those of its source, cut to
/// those that are kept. If they are fewer than are wanted, it is refused as by `check_words`; a tape file that
/// cannot be fetched, is too long or breaks the format is refused with its line.
pub fn read_bidder<S: Shelf>(
    alloc: Global,
    shelf: &mut S,
    wanted: &Wanted,
    given: Option<&WordList>,
    number: u32,
    source: &BidderSource,
) -> Result<Tape, Stop>
    ensures fresh { IfOk result (λ tape. tape.passed ≡ 0) }
    ensures enough { IfOk result (λ tape. wanted.now.counts.words ≤ length (accepted tape.words)) }
    ensures cut { IfOk result (λ tape. length tape.words ≤ with_spare wanted.now.counts.words) }
    ensures reads { Reads (λ tape. tape.words) (S.seen shelf.old) (S.seen shelf.new)
        (bidder_errand wanted.now (option_map (λ words. words.now) given.entry) number source.now) result }
{
    let tape = bidder_tape(alloc, shelf, given, source, wanted.counts.words_kept())?;
    check_words(alloc, wanted, number, &tape)?;
    Ok(tape)
}

/// A bidder's curve, and the tape that it deals its quantities with.
#[derive(Drop)]
pub struct BidderWithTape {
    pub curve: Curve,
    pub tape: Tape,
}

/// The bidder of an entry of the book, which has this number, with the words that are given or those of its source.
pub fn read_farmer<S: Shelf>(
    alloc: Global,
    shelf: &mut S,
    wanted: &Wanted,
    grid: &Grid,
    given: Option<&WordList>,
    number: u32,
    entry: &Entry,
) -> Result<BidderWithTape, Stop>
    ensures of_grid { IfOk result (λ farmer. IsOfGrid grid.now farmer.curve) }
    ensures curve { IfOk result (λ farmer. IsCurve farmer.curve) }
    ensures fresh { IfOk result (λ farmer. farmer.tape.passed ≡ 0) }
    ensures enough { IfOk result (λ farmer. wanted.now.counts.words ≤ length (accepted farmer.tape.words)) }
    ensures cut { IfOk result (λ farmer. length farmer.tape.words ≤ with_spare wanted.now.counts.words) }
    ensures reads { Reads (farmer_of entry.now) (S.seen shelf.old) (S.seen shelf.new)
        (farmer_errand wanted.now grid.now (option_map (λ words. words.now) given.entry) number entry.now) result }
{
    let curve = read_curve(alloc, shelf, grid, entry.bid.as_str())?;
    let tape = read_bidder(alloc, shelf, wanted, given, number, &entry.source)?;
    Ok(BidderWithTape { curve, tape })
}
