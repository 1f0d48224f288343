//! What is told of the lots of a session, each of which is run as soon as it is read.

ghost use Rattle.std.specs.Prelude.{◌≡◌, ◌*◌, IfErr, IfOk};
ghost use Rattle.beet_load.specs.Loading.{AuctionWithBidders, IsKeptOf};
ghost use Rattle.beet_run.specs.Outcomes.{cleared};

use beet_errand::{Reply, Stop};
use beet_load::Loaded;
use beet_lot_files::LotRow;
use beet_lot_load::{LotsTold, TakesLots};
use beet_run::{end_of, outcome_reply, start_servers};
use beet_world::lockstep;
use std::alloc::Global;

/// Runs the auction of a lot that is read on the caller's thread, and tells how it ended.
fn run_lot(alloc: Global, loaded: Loaded) -> Result<Reply, Stop>
    requires { (read : AuctionWithBidders) × IsKeptOf loaded read }
    ensures memory { IfErr result (λ stop. stop ≡ Stop.OutOfMemory) }
    ensures tells { (read : AuctionWithBidders) → IsKeptOf loaded read →
        IfOk result (λ reply. reply ≡ cleared read) }
{
    let grid = loaded.grid;
    let cores = start_servers(alloc, &grid, loaded.inputs, loaded.servers)?;
    let (finish, rounds) = end_of(lockstep(cores));
    Ok(outcome_reply(alloc, &grid, finish, rounds)?)
}

/// How the auctions of the lots have ended, as it is told.
#[derive(Drop)]
pub(crate) struct ClearedLots {
    pub(crate) told: LotsTold,
}

impl TakesLots for ClearedLots {
    ghost use Rattle.beet_job_session.specs.Sessions.{TellsCleared};

    ghost has_taken = { λ rows lots taken. TellsCleared rows taken.told lots };

    fn begin(alloc: Global) -> ClearedLots {
        ClearedLots {
            told: LotsTold::new(alloc),
        }
    }

    fn take(&mut self, alloc: Global, row: &LotRow, loaded: Loaded) -> Result<(), Stop> {
        let reply = run_lot(alloc, loaded)?;
        let added = self.told.add(alloc, row.name.as_str(), &reply);
        drop(reply);
        Ok(added?)
    }
}
