//! Whether there are words enough.

ghost use Rattle.std.specs.Prelude.{◌≤◌, ◌↔◌, ◌<◌, length, IsTrue};
ghost use Rattle.beet_words.specs.declared.bundle.TheConstants.{MOST_WORDS};
ghost use Rattle.beet_gates.specs.Scripts.{HasWords};
ghost use Rattle.beet_trades.specs.Enough.{HasAccepted};
ghost use Rattle.beet_auction_map.specs.Enough.{AreEnough};

use beet_bids::Book;
use beet_field::Trio;
use beet_masking::SPARE_WORDS;
use beet_plan::{most_coefficients, most_masks};
use beet_words::{WordList, Words, count_accepted};

/// Whether so many of the first words are not all ones; the spare words are looked at too.
fn has_accepted(words: &WordList, wanted: usize) -> bool
    requires { wanted ≤ MOST_WORDS }
    ensures { IsTrue result ↔ HasAccepted wanted words.now }
{
    let words = words.as_slice();
    let kept = wanted + SPARE_WORDS as usize;
    let looked_at = if words.len() < kept {
        words.len()
    } else {
        kept
    };
    count_accepted(&words[..looked_at]) >= wanted
}

/// Whether each list has so many words.
fn has_words(words: &Trio<WordList>, wanted: usize) -> bool
    ensures { IsTrue result ↔ HasWords wanted words.now }
{
    words.one.as_slice().len() >= wanted
        && words.two.as_slice().len() >= wanted
        && words.three.as_slice().len() >= wanted
}

/// Whether the words hold one list for each bidder with a number for each of its quantities, and for each server the
/// mask words and the numbers that an auction over the book's grid may ask for.
pub fn enough(book: &Book, words: &Words) -> bool
    ensures { IsTrue result ↔ AreEnough book.now words.now }
{
    let prices = book.grid().prices();
    let masks = most_masks(prices) as usize;
    let numbers = most_coefficients(prices) as usize;
    has_words(&words.masks, masks)
        && has_accepted(&words.coefficients.one, numbers)
        && has_accepted(&words.coefficients.two, numbers)
        && has_accepted(&words.coefficients.three, numbers)
        && words.bidders.len() == book.bidders().len()
        && words
            .bidders
            .iter()
            .all(|list| has_accepted(list, 2 * prices as usize))
}
