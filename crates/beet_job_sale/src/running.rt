//! The job `sale`.

ghost use Rattle.std.specs.Prelude.{◌≡◌, IfErr, IfOk};
ghost use Rattle.beet_errand.specs.Fetches.{IsDone, Reads};
ghost use Rattle.beet_job_sale.specs.SaleAnswers.{sold};
ghost use Rattle.beet_job_sale.specs.Sales.{sale_job};

use crate::telling::sale_reply;
use beet_errand::{Reply, Stop};
use beet_sale_load::{SaleWithWords, load_sale};
use beet_sale_run::{end_of_sale, hold_sale};
use beet_store::Shelf;
use std::alloc::Global;

/// The names of the files of the job.
#[derive(Clone, Copy)]
pub struct SaleFiles<'a> {
    pub sale: &'a str,
    pub servers: &'a str,
}

/// Holds a sale that is read, and tells how it ended.
fn tell_sale(alloc: Global, read: &SaleWithWords) -> Result<Reply, Stop>
    ensures memory { IfErr result (λ stop. stop ≡ Stop.OutOfMemory) }
    ensures tells { IfOk result (λ reply. reply ≡ sold read.now) }
{
    let cores = hold_sale(alloc, read)?;
    let (end, rounds) = end_of_sale(&cores.one);
    // One call lets them go: else the proof of this way out goes through each of their parts.
    drop(cores);
    Ok(sale_reply(alloc, read.sale.rows(), end, rounds)?)
}

/// Who wins a sale, for how much, and the rounds in which three servers find it, which run in lockstep on the caller's
/// thread: `sale SALE SERVERS`.
pub fn sale<S: Shelf>(alloc: Global, shelf: &mut S, files: &SaleFiles<'_>) -> Result<Reply, Stop>
    ensures done { IfOk result (λ reply. IsDone reply.status) }
    ensures reads { Reads (λ reply. reply) (S.seen shelf.old) (S.seen shelf.new)
        (sale_job files.now.sale.now files.now.servers.now) result }
{
    let read = load_sale(alloc, shelf, files.sale, files.servers)?;
    let reply = tell_sale(alloc, &read);
    drop(read);
    reply
}
