//! Whether there are words enough.

ghost use Rattle.std.specs.Prelude.{◌↔◌, ◌≤◌, All, IsTrue, length};
ghost use Rattle.beet_words.specs.Words.{IsWord, accepted};
ghost use Rattle.beet_five_dealing.specs.FiveWords.{CanRun};
ghost use Rattle.beet_five_map.specs.FiveWanted.{AreWanted};

use beet_bids::Book;
use beet_five_dealing::FiveWords;
use beet_plan::{most_coefficients, most_masks};
use beet_words::{WordList, count_accepted};

/// How many servers there are.
const SERVERS: usize = 5;

/// Each word of the lists is below 2^61.
fn look_at(lists: &[WordList])
    ensures { All (λ list. All IsWord list) lists.now }
{
    for list in lists {
        let _below = list.as_slice();
    }
}

/// Whether each list has so many words.
fn have_words(lists: &[WordList], wanted: usize) -> bool
    ensures { IsTrue result ↔ All (λ list. wanted ≤ length list) lists.now }
{
    lists.iter().all(|list| list.len() >= wanted)
}

/// Whether so many words of each list are not all ones.
fn have_accepted(lists: &[WordList], wanted: usize) -> bool
    ensures { IsTrue result ↔ All (λ list. wanted ≤ length (accepted list)) lists.now }
{
    lists
        .iter()
        .all(|list| count_accepted(list.as_slice()) >= wanted)
}

/// Whether there are as many lists and words as an auction over the book may want.
fn are_wanted(book: &Book, words: &FiveWords) -> bool
    ensures { IsTrue result ↔ AreWanted book.now words.now }
{
    let prices = book.grid().prices();
    words.masks.len() == SERVERS
        && words.coefficients.len() == SERVERS
        && words.bidders.len() == book.bidders().len()
        && have_words(&words.masks, most_masks(prices) as usize)
        && have_accepted(&words.coefficients, 2 * most_coefficients(prices) as usize)
        && have_accepted(&words.bidders, 4 * prices as usize)
}

/// Whether the auction of a book can be run among five servers with these words: there is a list of mask words and a
/// list of coefficient words for each server, with as many mask words as the auction may deal and two numbers for each
/// secret that a server may hide; and a list for each bidder, with two numbers for each of its quantities.
pub fn enough(book: &Book, words: &FiveWords) -> bool
    ensures { IsTrue result ↔ CanRun book.now words.now }
{
    look_at(&words.masks);
    look_at(&words.coefficients);
    look_at(&words.bidders);
    are_wanted(book, words)
}
