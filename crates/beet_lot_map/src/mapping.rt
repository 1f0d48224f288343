//! The words of the second session, lot by lot.

ghost use Rattle.std.specs.Prelude.{◌≡◌, ◌<◌, ◌^◌, IfErr, IfOk, length};
ghost use Rattle.beet_auction_map.specs.Enough.{AreEnough};
ghost use Rattle.beet_lot_map.specs.LotMaps.{AreEnoughEach, LotMapped, RefusesLot, RefusesSession, SessionMapped};
ghost use Rattle.beet_lot_map.specs.LotMaps.{fault_in, session_transcripts};

use beet_auction_map::{MapFault, world_map};
use beet_bids::{Book, Outcome};
use beet_field::Point;
use beet_words::Words;
use std::alloc::{AllocFailed, Global};

/// Why the words of a session are not mapped to those of a second one: the first thing that tells the sessions apart,
/// or want of memory. Lots and bidders are counted from 1.
#[derive(Clone, Copy, PartialEq, Eq, Debug)]
pub enum SessionFault {
    /// How many lots there are in the first session, and in the second.
    LotsDiffer(u32, u32),
    /// The books of a lot have different grids.
    GridDiffers(u32),
    /// A lot, and the first bidder that one of its books lacks, or that is not known to the same server in both.
    ShapeDiffers(u32, u32),
    /// A lot, and the first bidder that is known to the server and has another curve in the second book.
    OwnBidsDiffer(u32, u32),
    /// A lot, and its outcomes, of the first book and of the second.
    OutcomesDiffer(u32, Outcome, Outcome),
    /// Memory ran out.
    OutOfMemory,
}

impl<T: Drop> From<AllocFailed<T>> for SessionFault {
    ghost use Rattle.std.specs.Prelude.{◌≡◌};
    ghost use Rattle.beet_lot_map.specs.declared.mapping.SessionFault.TheVariants.{OutOfMemory};

    ghost from_gives = { λ _ fault. fault ≡ OutOfMemory };

    fn from(_error: AllocFailed<T>) -> SessionFault {
        SessionFault::OutOfMemory
    }
}

/// The fault of a session whose lot has this fault.
fn in_lot(lot: u32, fault: MapFault) -> SessionFault
    ensures { result ≡ fault_in lot fault }
{
    match fault {
        MapFault::ShapeDiffers(bidder) => SessionFault::ShapeDiffers(lot, bidder),
        MapFault::OwnBidsDiffer(bidder) => SessionFault::OwnBidsDiffer(lot, bidder),
        MapFault::OutcomesDiffer(one, other) => SessionFault::OutcomesDiffer(lot, one, other),
        MapFault::OutOfMemory => SessionFault::OutOfMemory,
    }
}

/// The words of the second session in a lot, which has this number.
fn map_lot(
    alloc: Global,
    me: Point,
    lot: u32,
    first: &Book,
    second: &Book,
    words: &Words,
) -> Result<Words, SessionFault>
    requires { AreEnough first.now words.now }
    ensures mapped { IfOk result (LotMapped me first.now words.now second.now) }
    ensures refused { IfErr result (RefusesLot me lot first.now second.now) }
{
    if second.grid() != first.grid() {
        return Err(SessionFault::GridDiffers(lot));
    }
    match world_map(alloc, me, first, second, words) {
        Ok(mapped) => Ok(mapped),
        Err(fault) => Err(in_lot(lot, fault)),
    }
}

/// The words with which the second session looks to server `me` as the first does with these words: lot by lot those
/// of `world_map`, each the only ones that go with the words of the first. The sessions are refused if they have
/// different numbers of lots, and then by the first lot in which the grids differ, or the books do not agree for the
/// server; lots are counted from 1. There is one list of words for each first book, with enough words for it. Want of
/// memory comes only at a lot that agrees, as all before it do.
pub fn session_map(
    alloc: Global,
    me: Point,
    first: &[Book],
    second: &[Book],
    words: &[Words],
) -> Result<Vec<Words>, SessionFault>
    requires few { length first.now < 2 ^ 32 }
    requires few_second { length second.now < 2 ^ 32 }
    requires many { length words.now ≡ length first.now }
    requires enough { AreEnoughEach first.now words.now }
    ensures mapped { IfOk result (λ mapped. SessionMapped me first.now words.now second.now mapped.items) }
    ensures looks { IfOk result (λ mapped.
        session_transcripts me second.now mapped.items ≡ session_transcripts me first.now words.now) }
    ensures refused { IfErr result (RefusesSession me first.now second.now) }
{
    if second.len() != first.len() {
        return Err(SessionFault::LotsDiffer(first.len() as u32, second.len() as u32));
    }
    let mut mapped = Vec::new(alloc);
    for i in 0..first.len() {
        let lot = map_lot(alloc, me, i as u32 + 1, &first[i], &second[i], &words[i])?;
        mapped.push(lot)?;
    }
    Ok(mapped)
}
