//! Mask words of the second world.

ghost use Rattle.std.specs.Prelude.{◌≡◌, ◌<◌, ◌+◌, nat_le, if◌then◌else◌, map, IfOk, All};
ghost use Rattle.beet_bids.specs.declared.grid.TheConstants.{MOST_PRICES};
ghost use Rattle.beet_plan.specs.Search.{path};
ghost use Rattle.beet_turned.specs.MappedMasks.{MasksMapped};
ghost use Rattle.beet_two_books.specs.Losses.{losses_of, lost_at};

use crate::differences::lost;
use beet_bids::{Book, Grid, MOST_COMPARISONS, clearing_place};
use beet_field::{Fe, Point, Trio};
use beet_words::WordList;
use std::alloc::{AllocError, Global};

/// The two places between which a search for `end` goes on, after the test at `middle`.
fn half(low: u32, middle: u32, high: u32, end: u32) -> (u32, u32)
    requires { middle < MOST_PRICES }
    ensures { result ≡ (if nat_le end middle then (low, middle) else (middle + 1, high)) }
{
    if end <= middle {
        (low, middle)
    } else {
        (middle + 1, high)
    }
}

/// The places that the search over a grid tests on its way to a place.
fn path_to(alloc: Global, grid: &Grid, end: u32) -> Result<Vec<u32>, AllocError>
    ensures path { IfOk result (λ places. places.items ≡ path grid.now.prices end) }
    ensures within { IfOk result (λ places. All (λ place. place < grid.now.prices) places.items) }
{
    let mut places = Vec::with_capacity(alloc, MOST_COMPARISONS as usize)?;
    let (mut low, mut high) = (0, grid.prices());
    for _step in 0..grid.comparisons() {
        if low >= high {
            return Ok(places);
        }
        let middle = (low + high) / 2;
        places.push(middle)?;
        let between = half(low, middle, high, end);
        low = between.0;
        high = between.1;
    }
    Ok(places)
}

/// What the comparisons at these places lose from the first book to the second.
fn losses_at(
    alloc: Global,
    first: &Book,
    second: &Book,
    places: &[u32],
) -> Result<Vec<Fe>, AllocError>
    requires grids { first.now.grid.prices ≡ second.now.grid.prices }
    requires within { All (λ place. place < first.now.grid.prices) places.now }
    ensures { IfOk result (λ losses. losses.items ≡ map (lost_at first.now second.now) places.now) }
{
    let mut losses = Vec::with_capacity(alloc, places.len())?;
    for place in places {
        losses.push(lost(first, second, *place))?;
    }
    Ok(losses)
}

/// What each comparison of the first book's auction loses, in their order.
pub fn losses(alloc: Global, first: &Book, second: &Book) -> Result<Vec<Fe>, AllocError>
    requires { first.now.grid.prices ≡ second.now.grid.prices }
    ensures { IfOk result (λ losses. losses.items ≡ losses_of first.now second.now) }
{
    let places = path_to(alloc, first.grid(), clearing_place(first))?;
    losses_at(alloc, first, second, places.as_slice())
}

/// The mask words of the second world, with which its comparisons open what those of the first world do. The words of
/// the lower of the other two servers turn each mask that is compared; all others are the same.
pub fn map_masks(
    alloc: Global,
    me: Point,
    first: &Book,
    second: &Book,
    masks: &Trio<WordList>,
) -> Result<Trio<WordList>, AllocError>
    requires { first.now.grid.prices ≡ second.now.grid.prices }
    ensures { IfOk result (λ mapped. MasksMapped me (losses_of first.now second.now) masks.now mapped) }
{
    let losses = losses(alloc, first, second)?;
    beet_turned::map_masks(alloc, me, losses.as_slice(), masks)
}
