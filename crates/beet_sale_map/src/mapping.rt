//! The words of the second sale.

ghost use Rattle.std.specs.Prelude.{IfErr, IfOk};
ghost use Rattle.beet_sale_map.specs.Bids.{Agree, AreSaleBids, AreTwoSales};
ghost use Rattle.beet_sale_map.specs.Disagreement.{RefusesMap};
ghost use Rattle.beet_sale_map.specs.Enough.{AreEnough};
ghost use Rattle.beet_sale_map.specs.MappedSales.{HasBidders, SalesMapped};

use crate::agreeing::{SaleFault, agreement};
use crate::bidders::{input_lines, map_bidders};
use crate::results::losses;
use beet_field::{Point, Trio};
use beet_gates::Gates;
use beet_sale_file::SaleBid;
use beet_sale_script::SaleScript;
use beet_trades::{all_words, look_at, map_servers};
use beet_words::{WordList, Words};
use std::alloc::{AllocError, Global};

/// The mask words and the coefficient words of the second sale, whose bidders have these words.
fn map_sale_servers(
    alloc: Global,
    me: Point,
    gates: Gates,
    first: &[SaleBid],
    second: &[SaleBid],
    words: &Words,
    bidders: &[WordList],
) -> Result<(Trio<WordList>, Trio<WordList>), AllocError>
    requires { HasBidders me first.now words.now second.now bidders.now }
    ensures { IfOk result (λ mapped. SalesMapped me gates first.now words.now second.now
        (record { masks = mapped.0; coefficients = mapped.1; bidders = bidders.now })) }
{
    look_at(&words.masks);
    look_at(&words.coefficients);
    let Some(script) = SaleScript::new(first.len() as u32, gates) else {
        unreachable!()
    };
    let losses = losses(alloc, first, second)?;
    let here = input_lines(alloc, first, words.bidders.as_slice())?;
    let there = input_lines(alloc, second, bidders)?;
    map_servers(alloc, me, &script, losses.as_slice(), here, there, words)
}

/// The words of the second of two sales that agree for server `me`.
fn map_words(
    alloc: Global,
    me: Point,
    gates: Gates,
    first: &[SaleBid],
    second: &[SaleBid],
    words: &Words,
) -> Result<Words, AllocError>
    requires sales { AreTwoSales me first.now second.now }
    requires enough { AreEnough first.now words.now }
    ensures { IfOk result (SalesMapped me gates first.now words.now second.now) }
{
    let bidders = map_bidders(alloc, me, first, second, words.bidders.as_slice())?;
    let servers = map_sale_servers(alloc, me, gates, first, second, words, bidders.as_slice());
    all_words(servers, bidders)
}

/// The words with which the second sale looks to server `me` as the first does with these words: it sees the same
/// points, the same messages and the same opened numbers.
///
/// They are the only words that are mapped from these, and these are the only words from which they are mapped. The
/// sales must agree for the server: they are refused if a bidder stands in one of them alone or has another mark in the
/// other, then if a bidder that the server knows has another bid, and then if another bidder wins or the price is
/// another. Want of memory comes only if they agree.
pub fn map_sale(
    alloc: Global,
    me: Point,
    gates: Gates,
    first: &[SaleBid],
    second: &[SaleBid],
    words: &Words,
) -> Result<Words, SaleFault>
    requires first { AreSaleBids first.now }
    requires second { AreSaleBids second.now }
    requires enough { AreEnough first.now words.now }
    ensures agreed { IfOk result (λ _. Agree me first.now second.now) }
    ensures refused { IfErr result (RefusesMap me first.now second.now) }
    ensures mapped { IfOk result (SalesMapped me gates first.now words.now second.now) }
{
    agreement(me, first, second)?;
    let mapped = map_words(alloc, me, gates, first, second, words)?;
    Ok(mapped)
}
