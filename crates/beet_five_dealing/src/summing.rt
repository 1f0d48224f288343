//! The shares that bidders deal among five servers, added up.

ghost use Rattle.std.specs.Prelude.{◌≡◌, ◌≤◌, ◌<◌, ◌+◌, ◌*◌, ◌%◌, ◌++◌, ◌∷◌, [], ℕ, List, All, IfOk, length, take};
ghost use Rattle.beet_field.specs.Field.{p};
ghost use Rattle.beet_words.specs.Words.{accepted};
ghost use Rattle.beet_bids.specs.Curves.{IsOfGrid};
ghost use Rattle.beet_bids.specs.Grids.{Grid as Prices};
ghost use Rattle.beet_bids.specs.declared.curve.TheConstants.{LARGEST_QUANTITY};
ghost use Rattle.beet_book.specs.Dealing.{quantities};
ghost use Rattle.beet_book.specs.Farmers.{BidderWithWords, farmers_of};
ghost use Rattle.beet_book.specs.Totals.{supply_first};
ghost use Rattle.beet_five_dealing.specs.FiveTotals.{DealsOne, HasDealtFive, HaveSums, five_inputs_of, no_totals};
ghost use Rattle.beet_five_dealing.specs.FiveTotals.{added_to_each, shares_added};
ghost use Rattle.beet_five_dealing.specs.FiveWords.{AllAccepted};

use beet_bids::{Bidder, Curve, Grid};
use beet_field::Fe;
use beet_words::{FeList, Word, WordList};
use std::alloc::{AllocError, Global};
use std::marker::Model;

/// Puts the number of a word at a place, if the word has one. The answer is the next place that is free.
fn put_number(numbers: &mut Vec<Fe>, place: usize, word: Word) -> usize
    requires { place < length numbers.old.items }
    ensures front { take result numbers.new.items ≡ take place numbers.old.items ++ accepted (word ∷ []) }
    ensures count { length numbers.new.items ≡ length numbers.old.items }
    ensures within { result ≤ length numbers.new.items }
{
    match word.field() {
        Some(number) => {
            numbers[place] = number;
            place + 1
        }
        None => place,
    }
}

/// Puts the first numbers that are drawn from words in the place of others.
fn draw_first(words: &[Word], numbers: &mut Vec<Fe>)
    requires { length numbers.old.items ≤ length (accepted words.now) }
    ensures { numbers.new.items ≡ take (length numbers.old.items) (accepted words.now) }
{
    let mut place = 0;
    for word in words {
        if place == numbers.len() {
            return;
        }
        place = put_number(numbers, place, *word);
    }
}

/// The sum with one more share: that at `AT` of the polynomial with this value and these coefficients.
fn with_share<const AT: u64>(sum: Fe, value: u64, first: Fe, second: Fe) -> Fe
    requires at { AT ≤ 5 }
    requires value { value ≤ LARGEST_QUANTITY }
    ensures { result ≡ (sum + value + AT * ((first + AT * second) % p)) % p }
{
    let slope = Fe::reduce_u64(first.value() + AT * second.value());
    Fe::reduce_u64(sum.value() + value + AT * slope.value())
}

/// Adds to the sums, place by place, the shares of the server `AT` of these values, each hidden by two of the numbers.
fn add_shares<const AT: u64>(sums: &mut [Fe], values: &[u64], numbers: &[Fe])
    requires at { AT ≤ 5 }
    requires values { length values.now ≡ length sums.old }
    requires numbers { length numbers.now ≡ 2 * length sums.old }
    requires limit { All (λ value. value ≤ LARGEST_QUANTITY) values.now }
    ensures { sums.new ≡ shares_added AT values.now numbers.now sums.old }
{
    for (i, sum) in sums.iter_mut().enumerate() {
        *sum = with_share::<AT>(*sum, values[i], numbers[2 * i], numbers[2 * i + 1]);
    }
}

/// Adds to the sums the shares of the server `AT` of the quantities of a curve, which these numbers hide.
fn add_curve<const AT: u64>(sums: &mut [Fe], curve: &Curve, numbers: &[Fe])
    requires at { AT ≤ 5 }
    requires sums { length (quantities curve.now) ≡ length sums.old }
    requires numbers { length numbers.now ≡ 2 * length sums.old }
    ensures { sums.new ≡ shares_added AT (quantities curve.now) numbers.now sums.old }
{
    let prices = curve.bought().len();
    let (buying, selling) = numbers.split_at(2 * prices);
    let (bought, sold) = sums.split_at_mut(prices);
    add_shares::<AT>(bought, curve.bought(), buying);
    add_shares::<AT>(sold, curve.sold(), selling);
}

/// The sums of a server as its inputs: those of what is sold come first.
fn in_order(sums: Vec<Fe>, prices: usize) -> FeList
    requires { prices ≤ length sums.items }
    ensures { result ≡ supply_first prices sums.items }
{
    let mut sums = sums;
    sums.rotate_left(prices);
    FeList::of(sums)
}

/// The sums of each server.
#[derive(Drop)]
struct FiveSums {
    one: Vec<Fe>,
    two: Vec<Fe>,
    three: Vec<Fe>,
    four: Vec<Fe>,
    five: Vec<Fe>,
}

impl Model for FiveSums {
    ghost use Rattle.beet_five_dealing.specs.FiveTotals.{FiveLists};

    ghost Value = { FiveLists };

    ghost view = { λ a. record {
      one = a.one.items;
      two = a.two.items;
      three = a.three.items;
      four = a.four.items;
      five = a.five.items;
    } };
}

impl FiveSums {
    /// Adds to the sums of each server its shares of the quantities of a curve, which these numbers hide.
    fn add(&mut self, curve: &Curve, numbers: &[Fe])
        requires sums { HaveSums (length (quantities curve.now)) self.old }
        requires numbers { length numbers.now ≡ 2 * length (quantities curve.now) }
        ensures sums { self.new ≡ added_to_each (quantities curve.now) numbers.now self.old }
        ensures count { HaveSums (length (quantities curve.now)) self.new }
    {
        add_curve::<1>(&mut self.one, curve, numbers);
        add_curve::<2>(&mut self.two, curve, numbers);
        add_curve::<3>(&mut self.three, curve, numbers);
        add_curve::<4>(&mut self.four, curve, numbers);
        add_curve::<5>(&mut self.five, curve, numbers);
    }
}

/// The shares of five servers of each quantity, added up over bidders.
#[derive(Drop)]
pub struct FiveTotals {
    prices: u32,
    sums: FiveSums,
    /// Room for the numbers that hide the quantities of a bidder.
    numbers: Vec<Fe>,
}

impl Model for FiveTotals {
    ghost use Rattle.std.specs.Prelude.{◌≡◌, ◌*◌, length};
    ghost use Rattle.beet_five_dealing.specs.FiveTotals.{FiveTotals as Seen, HaveSums};

    ghost Value = { Seen };

    ghost view = { λ a. record { prices = a.prices; sums = a.sums } };

    ghost invariant = { λ a. HaveSums (2 * a.prices) a.sums × (length a.numbers.items ≡ 2 * (2 * a.prices)) };
}

impl FiveTotals {
    /// The totals of no bidder of a grid. Want of memory is the only error.
    pub fn new(alloc: Global, grid: &Grid) -> Result<FiveTotals, AllocError>
        ensures none { IfOk result (λ totals. totals ≡ no_totals grid.now.prices) }
        ensures begins { IfOk result (HasDealtFive grid.now []) }
    {
        let prices = grid.prices();
        let count = 2 * prices as usize;
        let sums = FiveSums {
            one: vec![in alloc; Fe::default(); count]?,
            two: vec![in alloc; Fe::default(); count]?,
            three: vec![in alloc; Fe::default(); count]?,
            four: vec![in alloc; Fe::default(); count]?,
            five: vec![in alloc; Fe::default(); count]?,
        };
        Ok(FiveTotals {
            prices,
            sums,
            numbers: vec![in alloc; Fe::default(); 2 * count]?,
        })
    }

    /// Adds what a bidder of the grid deals: the next two numbers of its words hide each quantity, those that it buys
    /// and then those that it sells. No memory is taken.
    pub fn deal(&mut self, curve: &Curve, words: &[Word])
        requires buy { length curve.now.buy ≡ self.old.prices }
        requires sell { length curve.now.sell ≡ self.old.prices }
        requires words { 2 * (2 * self.old.prices) ≤ length (accepted words.now) }
        ensures { DealsOne curve.now words.now self.old self.new }
    {
        draw_first(words, &mut self.numbers);
        self.sums.add(curve, &self.numbers);
    }

    /// The inputs of the servers 1 to 5, in order: for each the summed shares of the supply at each place, and then
    /// those of the demand. Want of memory is the only error.
    pub fn inputs(self, alloc: Global) -> Result<Vec<FeList>, AllocError>
        ensures { IfOk result (λ lists. (grid : Prices) (farmers : List BidderWithWords) →
            HasDealtFive grid farmers self → lists.items ≡ five_inputs_of grid farmers) }
    {
        let prices = self.prices as usize;
        let sums = self.sums;
        let lists = vec![in alloc;
            in_order(sums.one, prices),
            in_order(sums.two, prices),
            in_order(sums.three, prices),
            in_order(sums.four, prices),
            in_order(sums.five, prices),
        ]?;
        Ok(lists)
    }
}

/// What bidders deal among five servers, added up: the inputs of the servers 1 to 5, in order. Each bidder has its list
/// of words. Want of memory is the only error.
pub fn five_inputs(
    alloc: Global,
    grid: &Grid,
    bidders: &[Bidder],
    words: &[WordList],
) -> Result<Vec<FeList>, AllocError>
    requires count { length words.now ≡ length bidders.now }
    requires of_grid { All (λ bidder. IsOfGrid grid.now bidder.curve) bidders.now }
    requires enough { AllAccepted (2 * (2 * grid.now.prices)) words.now }
    ensures { IfOk result (λ lists. lists.items
        ≡ five_inputs_of grid.now (farmers_of bidders.now words.now)) }
{
    let mut totals = FiveTotals::new(alloc, grid)?;
    for k in 0..bidders.len() {
        let bidder = &bidders[k];
        let list = &words[k];
        totals.deal(&bidder.curve, list.as_slice());
    }
    let lists = totals.inputs(alloc)?;
    Ok(lists)
}
