//! How servers stand in a `World`.

ghost use Rattle.std.specs.Prelude.{◌≡◌, true};
ghost use Rattle.beet_field.specs.declared.point.Point.{Point as At};
ghost use Rattle.beet_auction.specs.WorldEnds.{IsAuctionCore};
ghost use Rattle.beet_plan.specs.Auction.{Auction, auction_batch};
ghost use Rattle.beet_run.specs.Runs.{HasEndedRun};
ghost use Rattle.beet_server.specs.Cores.{has_ended};
ghost use Rattle.beet_world.specs.Worlds.{World as Lot};
ghost use Rattle.beet_job_rehearse.specs.Rehearsing.{Tells};

use beet_field::{Point, Trio};
use beet_plan::Finish;
use beet_run::finish_at;
use beet_search::AuctionScript;
use beet_server::ServerCore;
use beet_world::World;

/// How a server stands.
#[derive(Clone, Copy)]
pub enum Standing {
    /// It waits for messages of this round, from 0.
    Waiting(u32),
    /// It has passed all rounds, and its run ended so.
    Ended(Finish),
}

/// How three servers stand, and how many messages are sent and not delivered.
#[derive(Drop)]
pub struct Rehearsal {
    pub servers: Trio<Standing>,
    pub undelivered: u32,
}

/// How a server with this core stands, in whatever `World` it is.
pub fn standing_at(core: &ServerCore<AuctionScript>) -> Standing
    requires { has_ended auction_batch core.now ≡ true → HasEndedRun core.now }
    ensures { (world : Lot Auction) (at : At) → IsAuctionCore world at core.now → Tells world at result }
{
    if core.ended() {
        Standing::Ended(finish_at(core))
    } else {
        Standing::Waiting(core.round())
    }
}

/// How a server stands in a `World`.
pub(crate) fn standing_in(world: &World<AuctionScript>, at: Point) -> Standing
    ensures { Tells world.now at result }
{
    standing_at(world.core(at))
}
