//! The sums of a book, in one walk over its bidders.

ghost use Rattle.std.specs.Prelude.{◌≡◌, ◌<◌, ◌≤◌, ◌+◌, ◌++◌, ℕ, length, slice_index, All, IfOk};
ghost use Rattle.beet_field.specs.Field.{IsElement};
ghost use Rattle.beet_bids.specs.declared.curve.TheConstants.{LARGEST_QUANTITY};
ghost use Rattle.beet_bids.specs.Sums.{sums_of};

use beet_bids::{Book, Curve};
use std::alloc::{AllocError, Global};

/// Adds the quantities to the sums, place by place. An element of the field leaves room for a quantity in 64 bits.
fn add_quantities(sums: &mut [u64], quantities: &[u64])
    requires one_length { length quantities.now ≡ length sums.old }
    requires room { All IsElement sums.old }
    requires limit { All (λ quantity. quantity ≤ LARGEST_QUANTITY) quantities.now }
    ensures same_length { length sums.new ≡ length sums.old }
    ensures added { (k : ℕ) → k < length sums.old →
        slice_index sums.new k ≡ slice_index sums.old k + slice_index quantities.now k }
{
    for (i, sum) in sums.iter_mut().enumerate() {
        *sum += quantities[i];
    }
}

/// Adds the quantities of a curve to the sums, which have those that are sold first.
fn add_curve(sums: &mut [u64], curve: &Curve)
    requires one_length { length (curve.now.sell ++ curve.now.buy) ≡ length sums.old }
    requires room { All IsElement sums.old }
    ensures same_length { length sums.new ≡ length sums.old }
    ensures added { (k : ℕ) → k < length sums.old →
        slice_index sums.new k ≡ slice_index sums.old k + slice_index (curve.now.sell ++ curve.now.buy) k }
{
    let sold = curve.sold();
    let (supply, demand) = sums.split_at_mut(sold.len());
    add_quantities(supply, sold);
    add_quantities(demand, curve.bought());
}

/// The supply of a book at each place, and then its demand. Each list of quantities is read once, from its first to its
/// last.
pub fn sums_of_book(alloc: Global, book: &Book) -> Result<Vec<u64>, AllocError>
    ensures { IfOk result (λ sums. sums.items ≡ sums_of book.now) }
{
    let count = 2 * book.grid().prices() as usize;
    let mut sums = vec![in alloc; 0; count]?;
    for bidder in book.bidders() {
        add_curve(&mut sums, &bidder.curve);
    }
    Ok(sums)
}
