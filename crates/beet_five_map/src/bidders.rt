//! Bidders' words of the second world.

ghost use Rattle.std.specs.Prelude.{◌≡◌, ◌≤◌, ◌*◌, All, IfOk, length, slice_index};
ghost use Rattle.beet_words.specs.Words.{IsWord, accepted};
ghost use Rattle.beet_bids.specs.Curves.{quantity};
ghost use Rattle.beet_book.specs.Farmers.{farmers_of};
ghost use Rattle.beet_two_books.specs.Agreement.{AreOnePlace, marks_of};
ghost use Rattle.beet_linear_sharing.specs.Schemes.{five_servers};
ghost use Rattle.beet_coalition.specs.Moved.{WordsMoved};
ghost use Rattle.beet_coalition.specs.Watchers.{two_watch};
ghost use Rattle.beet_five_dealing.specs.FiveWords.{AllAccepted};
ghost use Rattle.beet_five_map.specs.PairsMoved.{PairsMoved};
ghost use Rattle.beet_five_map.specs.FiveWorlds.{BidderMapped, BiddersMapped, is_own as is_known};

use beet_bids::{Bidder, Book};
use beet_coalition_map::{Watchers, move_pair};
use beet_field::Fe;
use beet_two_books::{BidderPair, pair_at, quantities_of_both};
use beet_words::{WordList, numbers_in, put_back};
use std::alloc::{AllocError, Global};

/// Whether a bidder is marked by one of the two servers.
fn is_own(two: Watchers, bidder: &Bidder) -> bool
    ensures { result ≡ is_known two.a two.b bidder.now }
{
    let server = match bidder.known {
        Some(server) => server.number() as u32,
        None => 0,
    };
    two.watches(server)
}

/// Moves the two numbers that hide each quantity, so that they hide the second ones.
fn move_numbers(two: Watchers, first: &[Fe], second: &[Fe], numbers: &mut [Fe])
    requires count { length second.now ≡ length first.now }
    requires enough { 2 * length first.now ≤ length numbers.old }
    ensures { PairsMoved (two_watch two.a two.b) (length first.now) (slice_index first.now) (slice_index second.now)
        numbers.old numbers.new }
{
    let (rho, sigma) = two.factors();
    for n in 0..first.len() {
        let less = first[n].sub(second[n]);
        move_pair((rho, sigma), numbers, 2 * n, less);
    }
}

/// The words that hide the second quantities, so that the two servers hold the shares of the first. Two numbers are
/// drawn for each quantity.
fn move_words(
    alloc: Global,
    two: Watchers,
    first: &[Fe],
    second: &[Fe],
    words: &WordList,
) -> Result<WordList, AllocError>
    requires count { length second.now ≡ length first.now }
    requires enough { 2 * length first.now ≤ length (accepted words.now) }
    ensures { IfOk result (WordsMoved five_servers (two_watch two.a two.b) (length first.now) (slice_index first.now)
        (slice_index second.now) words.now) }
{
    let list = words.as_slice();
    let mut numbers = numbers_in(alloc, list)?;
    move_numbers(two, first, second, numbers.as_mut_slice());
    put_back(alloc, list, numbers.as_slice())
}

/// The words of the first bidder of a pair in the second world.
fn words_in_second(
    alloc: Global,
    two: Watchers,
    pair: &BidderPair<'_>,
    words: &WordList,
) -> Result<WordList, AllocError>
    requires pair { AreOnePlace pair.now.grid.now pair.now.first.now pair.now.second.now }
    requires enough { 2 * (2 * pair.now.grid.now.prices) ≤ length (accepted words.now) }
    ensures { IfOk result (λ mapped. BidderMapped two.a two.b pair.now.grid.now.prices
        (record { bidder = pair.now.first.now; words = words.now })
        (record { bidder = pair.now.second.now; words = mapped })) }
{
    if is_own(two, pair.first) {
        return words.copy(alloc);
    }
    let (was, becomes) = quantities_of_both(alloc, pair)?;
    move_words(alloc, two, was.as_slice(), becomes.as_slice(), words)
}

/// The bidders' words of the second world, with which the two servers hold the same shares as with these in the first.
pub(crate) fn map_bidders(
    alloc: Global,
    two: Watchers,
    first: &Book,
    second: &Book,
    words: &[WordList],
) -> Result<Vec<WordList>, AllocError>
    requires grids { second.now.grid ≡ first.now.grid }
    requires marks { marks_of second.now ≡ marks_of first.now }
    requires count { length words.now ≡ length first.now.bidders }
    requires enough { AllAccepted (2 * (2 * first.now.grid.prices)) words.now }
    ensures count { IfOk result (λ mapped. length mapped.items ≡ length words.now) }
    ensures mapped { IfOk result (λ mapped. BiddersMapped two.a two.b first.now.grid.prices
        (farmers_of first.now.bidders words.now) (farmers_of second.now.bidders mapped.items)) }
    ensures below { IfOk result (λ mapped. All (λ list. All IsWord list) mapped.items) }
{
    let mut mapped = Vec::with_capacity(alloc, words.len())?;
    for i in 0..words.len() {
        let pair = pair_at(first, second, i);
        let list = words_in_second(alloc, two, &pair, &words[i])?;
        // A list holds words.
        let _below = list.as_slice();
        mapped.push(list)?;
    }
    Ok(mapped)
}
