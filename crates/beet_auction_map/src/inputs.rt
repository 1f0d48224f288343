//! The lines on which the inputs of a book's auction lie.

ghost use Rattle.std.specs.Prelude.{◌≡◌, ◌<◌, ◌+◌, ◌*◌, ◌++◌, ℕ, length, map, slice_index, IfOk, OnOk};
ghost use Rattle.beet_field.specs.Field.{add_of};
ghost use Rattle.beet_words.specs.Words.{accepted};
ghost use Rattle.beet_shamir.specs.declared.Line.{Line as Seen};
ghost use Rattle.beet_gates.specs.Each.{each};
ghost use Rattle.beet_bids.specs.Sums.{supply_at, demand_at};
ghost use Rattle.beet_auction_map.specs.InputLines.{AreInputLines, summed_slope};

use crate::book_sums::sums_of_book;
use beet_bids::Book;
use beet_field::Fe;
use beet_map::number_at;
use beet_shamir::Line;
use beet_words::{WordList, numbers_in};
use std::alloc::{AllocError, Global};

/// Adds the numbers to the sums, place by place.
fn add_numbers(sums: &mut [Fe], numbers: &[Fe])
    ensures same_length { length sums.new ≡ length sums.old }
    ensures added { (k : ℕ) → k < length sums.old →
        slice_index sums.new k ≡ add_of (slice_index sums.old k) (slice_index numbers.now k) }
{
    for (i, sum) in sums.iter_mut().enumerate() {
        *sum = sum.add(number_at(numbers, i));
    }
}

/// Adds the slopes that a bidder draws from its words to the sums, place by place.
fn add_slopes(alloc: Global, sums: &mut [Fe], words: &WordList) -> Result<(), AllocError>
    ensures same_length { length sums.new ≡ length sums.old }
    ensures added { OnOk result ((k : ℕ) → k < length sums.old →
        slice_index sums.new k ≡ add_of (slice_index sums.old k) (slice_index (accepted words.now) k)) }
{
    let numbers = numbers_in(alloc, words.as_slice())?;
    add_numbers(sums, numbers.as_slice());
    Ok(())
}

/// The sums of so many slopes of all bidders, buy first.
fn summed_slopes(alloc: Global, words: &[WordList], count: usize) -> Result<Vec<Fe>, AllocError>
    ensures { IfOk result (λ sums. sums.items ≡ each (summed_slope words.now) count) }
{
    let mut sums = vec![in alloc; Fe::default(); count]?;
    for list in words {
        add_slopes(alloc, &mut sums, list)?;
    }
    Ok(sums)
}

/// The lines with the sums of a book and these slopes, which have buy first: supply at each place, and then demand.
fn lines_with(alloc: Global, book: &Book, slopes: &[Fe]) -> Result<Vec<Line>, AllocError>
    requires { length slopes.now ≡ 2 * book.now.grid.prices }
    ensures values { IfOk result (λ lines. map (λ (l : Seen). l.value) lines.items
        ≡ each (supply_at book.now.bidders) book.now.grid.prices
        ++ each (demand_at book.now.bidders) book.now.grid.prices) }
    ensures slopes { IfOk result (λ lines. map (λ (l : Seen). l.slope) lines.items
        ≡ each (λ k. slice_index slopes.now (book.now.grid.prices + k)) book.now.grid.prices
        ++ each (slice_index slopes.now) book.now.grid.prices) }
{
    let prices = book.grid().prices();
    let sums = sums_of_book(alloc, book)?;
    let mut lines = Vec::with_capacity(alloc, 2 * prices as usize)?;
    for place in 0..prices {
        let value = Fe::reduce_u64(sums[place as usize]);
        let slope = slopes[(prices + place) as usize];
        lines.push(Line { value, slope })?;
    }
    for place in 0..prices {
        let value = Fe::reduce_u64(sums[(prices + place) as usize]);
        let slope = slopes[place as usize];
        lines.push(Line { value, slope })?;
    }
    Ok(lines)
}

/// The lines of the inputs of a book's auction, if the bidders deal by these words: supply at each place, and then
/// demand.
pub fn input_lines(alloc: Global, book: &Book, words: &[WordList]) -> Result<Vec<Line>, AllocError>
    requires { length words.now ≡ length book.now.bidders }
    ensures { IfOk result (λ lines. AreInputLines book.now words.now lines.items) }
{
    let prices = book.grid().prices();
    let slopes = summed_slopes(alloc, words, 2 * prices as usize)?;
    let lines = lines_with(alloc, book, slopes.as_slice())?;
    Ok(lines)
}
