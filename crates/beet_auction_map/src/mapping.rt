//! The words of the second world.

ghost use Rattle.std.specs.Prelude.{◌≡◌, IfErr, IfOk};
ghost use Rattle.beet_two_books.specs.Agreement.{Agree};
ghost use Rattle.beet_auction_map.specs.Disagreement.{RefusesMap};
ghost use Rattle.beet_auction_map.specs.Enough.{AreEnough};
ghost use Rattle.beet_auction_map.specs.MappedWords.{IsOnlyFirst, IsOnlySecond, Mapped};
ghost use Rattle.beet_auction_map.specs.ViewsWith.{transcript_with, view_with};
ghost use Rattle.beet_auction_map.specs.Worlds.{AlwaysSame, Ends, HasBidders, WorldsMapped};

use crate::agreeing::agreement;
use crate::bidders::map_bidders;
use crate::inputs::input_lines;
use beet_bids::Book;
use beet_field::{Point, Trio};
use beet_search::AuctionScript;
use beet_trades::{all_words, look_at, map_servers};
use beet_two_books::{MapFault, losses};
use beet_words::{WordList, Words};
use std::alloc::{AllocError, Global};

/// The mask words and the coefficient words of the second world, whose bidders have these words.
fn map_for_servers(
    alloc: Global,
    me: Point,
    first: &Book,
    second: &Book,
    words: &Words,
    bidders: &[WordList],
) -> Result<(Trio<WordList>, Trio<WordList>), AllocError>
    requires { HasBidders me first.now words.now second.now bidders.now }
    ensures { IfOk result (λ mapped. WorldsMapped me first.now words.now second.now
        (record { masks = mapped.0; coefficients = mapped.1; bidders = bidders.now })) }
{
    look_at(&words.masks);
    look_at(&words.coefficients);
    // Books are within their limits.
    let _grid = second.grid();
    let script = AuctionScript::over(first.grid());
    let losses = losses(alloc, first, second)?;
    let here = input_lines(alloc, first, words.bidders.as_slice())?;
    let there = input_lines(alloc, second, bidders)?;
    map_servers(alloc, me, &script, losses.as_slice(), here, there, words)
}

/// The words of the second world, of two books that agree for server `me`.
fn map_words(
    alloc: Global,
    me: Point,
    first: &Book,
    second: &Book,
    words: &Words,
) -> Result<Words, AllocError>
    requires enough { AreEnough first.now words.now }
    requires agree { Agree me first.now second.now }
    ensures { IfOk result (WorldsMapped me first.now words.now second.now) }
{
    let bidders = map_bidders(alloc, me, first, second, words.bidders.as_slice())?;
    let servers = map_for_servers(alloc, me, first, second, words, bidders.as_slice());
    all_words(servers, bidders)
}

/// The words with which the auction of the second book looks to server `me` as that of the first book does with these
/// words: it sees the same points, the same messages and the same opened numbers, at every moment.
///
/// They are the only words that are mapped from these, and these are the only words from which they are mapped. The
/// books must agree for the server: they are refused if a bidder stands in one of them alone or has another mark in
/// the other, then if a bidder that the server knows has another curve, and then if the outcomes differ. Want of
/// memory comes only if they agree.
pub fn world_map(
    alloc: Global,
    me: Point,
    first: &Book,
    second: &Book,
    words: &Words,
) -> Result<Words, MapFault>
    requires enough { AreEnough first.now words.now }
    requires grids { second.now.grid ≡ first.now.grid }
    ensures agreed { IfOk result (λ _. Agree me first.now second.now) }
    ensures refused { IfErr result (RefusesMap me first.now second.now) }
    ensures mapped { IfOk result (Mapped me first.now words.now second.now) }
    ensures enough { IfOk result (AreEnough second.now) }
    ensures ends { IfOk result (λ mapped. Ends first.now words.now × Ends second.now mapped) }
    ensures looks { IfOk result (λ mapped. view_with second.now mapped me ≡ view_with first.now words.now me) }
    ensures bytes { IfOk result (λ mapped.
        transcript_with second.now mapped me ≡ transcript_with first.now words.now me) }
    ensures moments { IfOk result (AlwaysSame me first.now words.now second.now) }
    ensures only { IfOk result (IsOnlySecond me first.now words.now second.now) }
    ensures back { IfOk result (IsOnlyFirst me first.now words.now second.now) }
{
    agreement(me, first, second)?;
    let mapped = map_words(alloc, me, first, second, words)?;
    Ok(mapped)
}
