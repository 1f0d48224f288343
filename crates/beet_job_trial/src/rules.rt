//! The book of a trial, by rule.

ghost use Rattle.std.specs.Prelude.{◌≡◌, ◌≤◌, IfOk, None, length};
ghost use Rattle.beet_field.specs.Point.{number_of};
ghost use Rattle.beet_load.specs.Wanted.{wanted_of};
ghost use Rattle.beet_load.specs.Servers.{seeded};
ghost use Rattle.beet_job_trial.specs.Rules.{bidder_seed, bought, buying, selling, server_seed, sold, trial_curve};
ghost use Rattle.beet_job_trial.specs.Rules.{trial_curves, trial_grid, trial_servers, weight};
ghost use Rattle.beet_bids.specs.Grids.{Grid as Lattice};
ghost use Rattle.beet_bids.specs.declared.grid.TheConstants.{MOST_PRICES};

use beet_bids::{Curve, Grid};
use beet_field::{Point, Trio};
use beet_gates::Gates;
use beet_load::{ServerWords, auction_wants, seed_words};
use std::alloc::{AllocError, Global};

/// The lowest price.
pub const BASE: u64 = 1_000;

/// The step from one price to the next.
pub const TICK: u64 = 10;

/// The number that the seed of the first bidder ends with.
pub const FIRST_SEED: u64 = 256;

/// After how many bidders the curves come again: as many as weights, for buyers and for sellers.
const PERIOD: u32 = 14;

/// The grid with so many prices.
pub(crate) fn grid_of(prices: u32) -> Grid
    requires some { 1 ≤ prices }
    requires limit { prices ≤ MOST_PRICES }
    ensures { result ≡ trial_grid prices }
{
    match Grid::new(BASE, TICK, prices, Gates::Chain) {
        Some(grid) => grid,
        None => unreachable!(),
    }
}

fn server_words(alloc: Global, grid: &Grid, server: Point) -> Result<ServerWords, AllocError>
    ensures { IfOk result (λ words. words ≡ seeded (wanted_of None grid.now) (server_seed (number_of server))) }
{
    let wanted = auction_wants(None, grid);
    seed_words(alloc, &wanted, &[server.number() as u8; 32])
}

/// The words of the three servers.
pub(crate) fn servers_of(alloc: Global, grid: &Grid) -> Result<Trio<ServerWords>, AllocError>
    ensures { IfOk result (λ servers. servers ≡ trial_servers grid.now) }
{
    Trio::try_of(|at| server_words(alloc, grid, at))
}

/// The seed of bidder `i`, from 0.
pub(crate) fn seed_of(i: u32) -> [u8; 32]
    ensures { result ≡ bidder_seed i }
{
    let mut seed = [0; 32];
    let number = FIRST_SEED + i as u64;
    seed[24..].copy_from_slice(&number.to_be_bytes());
    seed
}

/// The weights with which bidder `i` buys and sells.
fn weights_of(i: u32) -> (u64, u64)
    ensures buying { result.0 ≡ buying i }
    ensures selling { result.1 ≡ selling i }
    ensures buying_limit { result.0 ≤ 7 }
    ensures selling_limit { result.1 ≤ 7 }
{
    let weight = 1 + (i % 7) as u64;
    if i % 2 == 0 { (weight, 0) } else { (0, weight) }
}

/// What is bought at each place with this weight.
fn bought(alloc: Global, prices: u32, weight: u64) -> Result<Vec<u64>, AllocError>
    requires { weight ≤ 7 }
    ensures { IfOk result (λ quantities. quantities.items ≡ bought prices weight) }
{
    let mut quantities = Vec::with_capacity(alloc, prices as usize)?;
    for place in 0..prices {
        quantities.push(weight * (prices - place) as u64)?;
    }
    Ok(quantities)
}

/// What is sold at each place with this weight.
fn sold(alloc: Global, prices: u32, weight: u64) -> Result<Vec<u64>, AllocError>
    requires { weight ≤ 7 }
    ensures { IfOk result (λ quantities. quantities.items ≡ sold prices weight) }
{
    let mut quantities = Vec::with_capacity(alloc, prices as usize)?;
    for place in 0..prices {
        quantities.push(weight * place as u64)?;
    }
    Ok(quantities)
}

/// The curve of bidder `i`.
fn curve_of(alloc: Global, grid: &Grid, i: u32) -> Result<Curve, AllocError>
    ensures { IfOk result (λ curve. curve ≡ trial_curve grid.now i) }
{
    let prices = grid.prices();
    let (buying, selling) = weights_of(i);
    let buy = bought(alloc, prices, buying)?;
    let sell = sold(alloc, prices, selling)?;
    match Curve::of(grid, buy, sell) {
        Some(curve) => Ok(curve),
        None => unreachable!(),
    }
}

/// The curves of the first bidders, up to where they come again.
pub(crate) fn curves_of(alloc: Global, grid: &Grid) -> Result<Vec<Curve>, AllocError>
    ensures { IfOk result (λ curves. curves.items ≡ trial_curves grid.now) }
{
    let mut curves = Vec::with_capacity(alloc, PERIOD as usize)?;
    for i in 0..PERIOD {
        curves.push(curve_of(alloc, grid, i)?)?;
    }
    Ok(curves)
}

/// The curve of bidder `i` among them.
pub(crate) fn curve_at(curves: &[Curve], i: u32) -> &Curve
    requires { length curves.now ≡ PERIOD }
    ensures { (grid : Lattice) → curves.now ≡ trial_curves grid → result.now ≡ trial_curve grid i }
{
    &curves[(i % PERIOD) as usize]
}
