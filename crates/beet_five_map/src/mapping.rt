//! The words of the second world.

ghost use Rattle.std.specs.Prelude.{◌≡◌, ◌<◌, ◌*◌, IfErr, IfOk, length};
ghost use Rattle.beet_gates.specs.declared.Gates.TheVariants.{Chain};
ghost use Rattle.beet_book.specs.Farmers.{farmers_of};
ghost use Rattle.beet_plan.specs.FivePlan.{five_over};
ghost use Rattle.beet_five_dealing.specs.FiveTotals.{five_inputs_of};
ghost use Rattle.beet_five_dealing.specs.FiveWords.{AllAccepted, CanRun};
ghost use Rattle.beet_five_map.specs.FiveDisagreement.{Refuses};
ghost use Rattle.beet_five_map.specs.FiveWorlds.{Agree, AreOnePair};

use crate::agreeing::agreement;
use crate::bidders::map_bidders;
use crate::masks::map_masks;
use beet_bids::{Book, Grid};
use beet_coalition_map::{FiveSecrets, Watchers, map_coefficients};
use beet_five_dealing::{FiveWords, five_inputs};
use beet_search::FiveScript;
use beet_two_books::MapFault;
use beet_words::WordList;
use std::alloc::{AllocError, Global};

/// Lists of words, in memory of their own. Want of memory is the only error.
pub fn copy_lists(alloc: Global, lists: &[WordList]) -> Result<Vec<WordList>, AllocError>
    ensures { IfOk result (λ copy. copy.items ≡ lists.now) }
{
    let mut copy = Vec::with_capacity(alloc, lists.len())?;
    for list in lists {
        copy.push(list.copy(alloc)?)?;
    }
    Ok(copy)
}

/// The script of the auction over a grid, which has chain gates.
pub fn script_over(grid: &Grid) -> FiveScript
    requires { grid.now.gates ≡ Chain }
    ensures { result ≡ five_over grid.now }
{
    match FiveScript::new(grid) {
        Some(script) => script,
        None => unreachable!(),
    }
}

/// What the servers begin with in the auction of a book, whose bidders have these words.
fn secrets(
    alloc: Global,
    book: &Book,
    bidders: &[WordList],
    masks: Vec<WordList>,
) -> Result<FiveSecrets, AllocError>
    requires count { length bidders.now ≡ length book.now.bidders }
    requires enough { AllAccepted (2 * (2 * book.now.grid.prices)) bidders.now }
    ensures { IfOk result (λ begins. begins ≡ record {
      inputs = five_inputs_of book.now.grid (farmers_of book.now.bidders bidders.now);
      masks = masks.items;
    }) }
{
    let inputs = five_inputs(alloc, book.grid(), book.bidders(), bidders)?;
    Ok(FiveSecrets { inputs, masks })
}

/// The words of the second world, of two books that agree for two servers.
fn map_words(
    alloc: Global,
    two: Watchers,
    first: &Book,
    second: &Book,
    words: &FiveWords,
) -> Result<FiveWords, AllocError>
    requires chain { first.now.grid.gates ≡ Chain }
    requires runs { CanRun first.now words.now }
    requires agree { Agree two.a two.b first.now second.now }
    ensures { IfOk result (AreOnePair two.a two.b first.now words.now second.now) }
{
    // Books are within their limits.
    let _grid = second.grid();
    let script = script_over(first.grid());
    let masks = map_masks(alloc, two, first, second, words.masks.as_slice())?;
    let bidders = map_bidders(alloc, two, first, second, words.bidders.as_slice())?;
    let here = secrets(
        alloc,
        first,
        words.bidders.as_slice(),
        copy_lists(alloc, words.masks.as_slice())?,
    )?;
    let there = secrets(alloc, second, bidders.as_slice(), masks)?;
    let coefficients = map_coefficients(
        alloc,
        two,
        &script,
        &here,
        &there,
        words.coefficients.as_slice(),
    )?;
    Ok(FiveWords {
        masks: there.masks,
        coefficients,
        bidders,
    })
}

/// The words with which the auction of the second book looks to two servers of five as that of the first book does with
/// these words, whatever the two tell each other: they hold the same shares and the same points, get the same messages
/// and open the same numbers.
///
/// They are the only words that are mapped from these, and these are the only words from which they are mapped. The
/// books must agree for the two servers: they are refused if a bidder stands in one of them alone or has another
/// mark in the other, then if a bidder that is marked by one of the two has another curve, and then if the
/// outcomes differ. Want of memory comes only if they agree.
pub fn five_map(
    alloc: Global,
    two: Watchers,
    first: &Book,
    second: &Book,
    words: &FiveWords,
) -> Result<FiveWords, MapFault>
    requires grids { second.now.grid ≡ first.now.grid }
    requires chain { first.now.grid.gates ≡ Chain }
    requires runs { CanRun first.now words.now }
    ensures agree { IfOk result (λ _. Agree two.a two.b first.now second.now) }
    ensures pair { IfOk result (AreOnePair two.a two.b first.now words.now second.now) }
    ensures refused { IfErr result (Refuses two.a two.b first.now second.now) }
{
    agreement(two, first, second)?;
    let mapped = map_words(alloc, two, first, second, words)?;
    Ok(mapped)
}
