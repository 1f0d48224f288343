//! The lots of a session, whose servers begin as soon as each is read.

ghost use Rattle.std.specs.Prelude.{◌≡◌, ◌++◌, ◌∷◌, [], OnOk};

use beet_bids::Grid;
use beet_errand::Stop;
use beet_field::Trio;
use beet_load::Loaded;
use beet_lot_files::LotRow;
use beet_lot_load::TakesLots;
use beet_run::start_servers;
use beet_search::AuctionScript;
use beet_server::ServerCore;
use std::alloc::{AllocError, Global};

/// The lots that have begun: the grid of each, and its three servers.
#[derive(Drop)]
pub struct Begun {
    pub grids: Vec<Grid>,
    pub cores: Vec<Trio<ServerCore<AuctionScript>>>,
}

impl Begun {
    /// One lot more.
    fn push(&mut self, grid: Grid, cores: Trio<ServerCore<AuctionScript>>) -> Result<(), AllocError>
        ensures grids { OnOk result (self.new.grids.items ≡ self.old.grids.items ++ grid ∷ []) }
        ensures cores { OnOk result (self.new.cores.items ≡ self.old.cores.items ++ cores ∷ []) }
    {
        self.cores.push(cores)?;
        self.grids.push(grid)?;
        Ok(())
    }
}

impl TakesLots for Begun {
    ghost use Rattle.beet_job_replay.specs.Begun.{HaveBegunIn};

    ghost has_taken = { λ rows lots begun. HaveBegunIn begun lots };

    fn begin(alloc: Global) -> Begun {
        Begun {
            grids: Vec::new(alloc),
            cores: Vec::new(alloc),
        }
    }

    fn take(&mut self, alloc: Global, _row: &LotRow, loaded: Loaded) -> Result<(), Stop> {
        let Loaded {
            grid,
            servers,
            inputs,
        } = loaded;
        let cores = start_servers(alloc, &grid, inputs, servers)?;
        Ok(self.push(grid, cores)?)
    }
}
