//! How many bidders and prices a trial has.

ghost use Rattle.std.specs.Prelude.{◌≡◌, ◌≤◌, IfSome};
ghost use Rattle.beet_job_trial.specs.Sizes.{AreSizes, number_within, sizes_of};

use beet_bids::MOST_PRICES;
use beet_forms::number;
use beet_words::MOST_BIDDERS;

/// The number that a word writes, if it is from `low` to `high`.
fn number_within(word: &str, low: u64, high: u64) -> Option<u64>
    ensures number { result ≡ number_within low high word.now }
    ensures low { IfSome result (λ n. low ≤ n) }
    ensures high { IfSome result (λ n. n ≤ high) }
{
    match number(word.as_bytes(), high) {
        Ok(n) if n >= low => Some(n),
        _ => None,
    }
}

/// The numbers of bidders and of prices that two words write: 0 to 2,000 and 1 to 4,096, without a leading zero.
pub fn numbers_of_words(bidders: &str, prices: &str) -> Option<(u32, u32)>
    ensures numbers { result ≡ sizes_of bidders.now prices.now }
    ensures sizes { IfSome result (λ sizes. AreSizes sizes.0 sizes.1) }
{
    let bidders = number_within(bidders, 0, MOST_BIDDERS as u64)?;
    let prices = number_within(prices, 1, MOST_PRICES as u64)?;
    Some((bidders as u32, prices as u32))
}
