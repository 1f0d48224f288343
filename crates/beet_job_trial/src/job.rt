//! The job `trial`.

ghost use Rattle.std.specs.Prelude.{◌≡◌, ◌≤◌, ◌++◌, IfOk};
ghost use Rattle.beet_store.specs.Files.{Seen};
ghost use Rattle.beet_errand.specs.Fetches.{IsDone, Reads};
ghost use Rattle.beet_load.specs.Counts.{counts_of};
ghost use Rattle.beet_load.specs.Servers.{HaveEnough};
ghost use Rattle.beet_job_trial.specs.Adding.{CarrySums};
ghost use Rattle.beet_job_trial.specs.Rules.{trial_farmers, trial_servers};
ghost use Rattle.beet_job_trial.specs.Sizes.{AreSizes};
ghost use Rattle.beet_job_trial.specs.Trial.{sized_answer, sizes_text, trial_answer, trial_job, trial_over};
ghost use Rattle.beet_words.specs.declared.bundle.TheConstants.{MOST_BIDDERS};

use crate::adding::deal_bidders;
use crate::rules::{grid_of, servers_of};
use beet_auction_run::run_auction;
use beet_bids::Grid;
use beet_book::Totals;
use beet_errand::{Reply, Stop};
use beet_field::Trio;
use beet_link::Gate;
use beet_load::{ServerWords, auction_wants, check_three};
use beet_plan::Finish;
use beet_run::outcome_reply;
use std::alloc::{AllocError, Global};
use std::sync::Wait;
use std::thread::Threads;
use std::time::Clock;

/// The line with the sizes, and then the lines of the outcome.
fn sized_lines(
    alloc: Global,
    bidders: u32,
    prices: u32,
    outcome: &[u8],
) -> Result<Vec<u8>, AllocError>
    ensures { IfOk result (λ text. text.items ≡ sizes_text bidders prices ++ outcome.now) }
{
    let mut text = format!(in alloc; "bidders {bidders} prices {prices}\n")?.into_bytes();
    text.extend_from_slice(outcome)?;
    Ok(text)
}

/// The reply that tells the sizes, how a run ended, and after how many rounds.
fn sized_reply(
    alloc: Global,
    grid: &Grid,
    bidders: u32,
    finish: Finish,
    rounds: u32,
) -> Result<Reply, AllocError>
    ensures { IfOk result (λ reply. reply ≡ sized_answer grid.now bidders finish rounds) }
{
    let outcome = outcome_reply(alloc, grid, finish, rounds)?;
    let text = sized_lines(alloc, bidders, grid.prices(), outcome.text.as_slice())?;
    Ok(Reply::of_text(alloc, outcome.status, text))
}

/// The points of so many bidders, added up, if each server and then each bidder has enough words.
fn totals_of<R: Threads + Sync>(
    rt: &R,
    alloc: Global,
    grid: &Grid,
    servers: &Trio<ServerWords>,
    bidders: u32,
) -> Result<Totals, Stop>
    requires few { bidders ≤ MOST_BIDDERS }
    requires servers { servers.now ≡ trial_servers grid.now }
    ensures reads { (seen : Seen) →
        Reads (λ totals. trial_answer grid.now bidders) seen seen (trial_over grid.now bidders) result }
    ensures enough { IfOk result (λ totals. HaveEnough (counts_of grid.now) servers.now) }
    ensures carry { IfOk result (λ totals. CarrySums grid.now (trial_farmers grid.now bidders) totals) }
{
    check_three(alloc, &auction_wants(None, grid), servers)?;
    deal_bidders(rt, alloc, grid, bidders)
}

/// Makes a book of so many bidders over so many prices by rule, deals it bidder by bidder, and clears it among three
/// servers, in threads and under the gate if `run_servers` says so. The same numbers give the same text. It fetches
/// nothing.
pub fn trial<R: Threads + Wait + Clock + Sync, G: Gate>(
    rt: &R,
    alloc: Global,
    bidders: u32,
    prices: u32,
    gate: &G,
) -> Result<Reply, Stop>
    requires sizes { AreSizes bidders prices }
    ensures done { IfOk result (λ reply. IsDone reply.status) }
    ensures reads { (seen : Seen) → Reads (λ reply. reply) seen seen (trial_job bidders prices) result }
{
    let grid = grid_of(prices);
    let servers = servers_of(alloc, &grid)?;
    let totals = match totals_of(rt, alloc, &grid, &servers, bidders) {
        Ok(totals) => totals,
        Err(stop) => {
            // One call lets them go: else the proof of this way out goes through each of their parts.
            drop(servers);
            return Err(stop);
        }
    };
    let (finish, rounds) = run_auction(rt, alloc, &grid, totals.inputs(), servers, gate)?;
    Ok(sized_reply(alloc, &grid, bidders, finish, rounds)?)
}
