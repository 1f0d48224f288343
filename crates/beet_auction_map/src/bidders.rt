//! Bidders' words of the second world.

ghost use Rattle.std.specs.Prelude.{◌≡◌, ◌≤◌, ◌*◌, length, map, IfOk, OnOk, All};
ghost use Rattle.beet_words.specs.Words.{IsWord, accepted};
ghost use Rattle.beet_mapped.specs.Dealers.{DealerMapped};
ghost use Rattle.beet_trades.specs.ListsMapped.{ListsMapped};
ghost use Rattle.beet_two_books.specs.Agreement.{AreOnePlace, marks_of};
ghost use Rattle.beet_auction_map.specs.MappedBidders.{party_of};

use beet_bids::Book;
use beet_field::Point;
use beet_mapped::move_dealer;
use beet_two_books::{BidderPair, pair_at, quantities_of_both};
use beet_words::WordList;
use std::alloc::{AllocError, Global};

/// The words of the first bidder of a pair in the second world.
fn words_in_second(
    alloc: Global,
    me: Point,
    pair: &BidderPair<'_>,
    words: &WordList,
) -> Result<WordList, AllocError>
    requires pair { AreOnePlace pair.now.grid.now pair.now.first.now pair.now.second.now }
    requires enough { 2 * pair.now.grid.now.prices ≤ length (accepted words.now) }
    ensures mapped { IfOk result (λ mapped. DealerMapped me
        (record { party = party_of pair.now.first.now; words = words.now })
        (record { party = party_of pair.now.second.now; words = mapped })) }
    ensures below { OnOk result (All IsWord words.now) }
    ensures words { IfOk result (λ mapped. All IsWord mapped) }
{
    let (was, becomes) = quantities_of_both(alloc, pair)?;
    move_dealer(
        alloc,
        me,
        pair.first.known,
        was.as_slice(),
        becomes.as_slice(),
        words,
    )
}

/// The bidders' words of the second world, with which server `me` holds the same points as with these in the first.
pub fn map_bidders(
    alloc: Global,
    me: Point,
    first: &Book,
    second: &Book,
    words: &[WordList],
) -> Result<Vec<WordList>, AllocError>
    requires grids { second.now.grid ≡ first.now.grid }
    requires marks { marks_of second.now ≡ marks_of first.now }
    requires count { length words.now ≡ length first.now.bidders }
    requires enough { All (λ list. 2 * first.now.grid.prices ≤ length (accepted list)) words.now }
    ensures { IfOk result (λ mapped. ListsMapped me (map party_of first.now.bidders) (map party_of second.now.bidders)
        words.now mapped.items) }
{
    let mut mapped = Vec::with_capacity(alloc, words.len())?;
    for i in 0..words.len() {
        let pair = pair_at(first, second, i);
        mapped.push(words_in_second(alloc, me, &pair, &words[i])?)?;
    }
    Ok(mapped)
}
