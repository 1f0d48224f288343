//! Bidders' words of the second sale, and the lines of a sale's inputs.

ghost use Rattle.std.specs.Prelude.{◌≡◌, ◌≤◌, length, map, IfOk, OnOk, All};
ghost use Rattle.beet_words.specs.Words.{IsWord, accepted};
ghost use Rattle.beet_sale_plan.specs.Outcome.{IsBid};
ghost use Rattle.beet_mapped.specs.Dealers.{DealerMapped};
ghost use Rattle.beet_trades.specs.ListsMapped.{ListsMapped};
ghost use Rattle.beet_sale_map.specs.Bids.{HaveOneShape};
ghost use Rattle.beet_sale_map.specs.InputLines.{dealer_line, dealer_lines};
ghost use Rattle.beet_sale_map.specs.Worlds.{party_of};

use crate::bids::row_at;
use beet_field::{Fe, Point};
use beet_map::number_at;
use beet_mapped::move_dealer;
use beet_sale_file::SaleBid;
use beet_shamir::Line;
use beet_words::{WordList, numbers_in};
use std::alloc::{AllocError, Global};

/// A bid as a number of the field.
fn element(bid: u64) -> Fe
    requires { IsBid bid }
    ensures { result ≡ bid }
{
    Fe::reduce(bid as u128)
}

/// The words of a bidder in the second sale.
fn words_in_second(
    alloc: Global,
    me: Point,
    first: &SaleBid,
    second: &SaleBid,
    words: &WordList,
) -> Result<WordList, AllocError>
    requires mark { second.now.known ≡ first.now.known }
    requires first { IsBid first.now.bid }
    requires second { IsBid second.now.bid }
    requires enough { 1 ≤ length (accepted words.now) }
    ensures mapped { IfOk result (λ mapped. DealerMapped me
        (record { party = party_of first.now; words = words.now })
        (record { party = party_of second.now; words = mapped })) }
    ensures below { OnOk result (All IsWord words.now) }
    ensures words { IfOk result (λ mapped. All IsWord mapped) }
{
    let was = [element(first.bid)];
    let becomes = [element(second.bid)];
    move_dealer(alloc, me, first.known, &was, &becomes, words)
}

/// The bidders' words of the second sale, with which server `me` holds the same points as with these in the first.
pub fn map_bidders(
    alloc: Global,
    me: Point,
    first: &[SaleBid],
    second: &[SaleBid],
    words: &[WordList],
) -> Result<Vec<WordList>, AllocError>
    requires first { All (λ b. IsBid b.bid) first.now }
    requires second { All (λ b. IsBid b.bid) second.now }
    requires shape { HaveOneShape first.now second.now }
    requires count { length words.now ≡ length first.now }
    requires enough { All (λ list. 1 ≤ length (accepted list)) words.now }
    ensures { IfOk result (λ mapped. ListsMapped me (map party_of first.now) (map party_of second.now)
        words.now mapped.items) }
{
    let mut mapped = Vec::with_capacity(alloc, words.len())?;
    for i in 0..words.len() {
        let (one, other) = (row_at(first, i), row_at(second, i));
        mapped.push(words_in_second(alloc, me, &one, &other, &words[i])?)?;
    }
    Ok(mapped)
}

/// The line of a bid that is dealt by these words.
fn input_line(alloc: Global, bid: &SaleBid, words: &WordList) -> Result<Line, AllocError>
    requires { IsBid bid.now.bid }
    ensures { IfOk result (λ line. line ≡ dealer_line (record { party = party_of bid.now; words = words.now })) }
{
    let numbers = numbers_in(alloc, words.as_slice())?;
    Ok(Line {
        value: element(bid.bid),
        slope: number_at(numbers.as_slice(), 0),
    })
}

/// The lines of the inputs of a sale, whose bidders deal by these words: one for each bid.
pub fn input_lines(
    alloc: Global,
    bids: &[SaleBid],
    words: &[WordList],
) -> Result<Vec<Line>, AllocError>
    requires bids { All (λ b. IsBid b.bid) bids.now }
    requires count { length words.now ≡ length bids.now }
    ensures { IfOk result (λ lines. lines.items ≡ dealer_lines bids.now words.now) }
{
    let mut lines = Vec::with_capacity(alloc, words.len())?;
    for i in 0..words.len() {
        let bid = row_at(bids, i);
        lines.push(input_line(alloc, &bid, &words[i])?)?;
    }
    Ok(lines)
}
