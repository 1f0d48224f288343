//! The bidders of a list, whose points are added up and kept as each server sees them.

use beet_bids::Grid;
use beet_book::{Dealt, Totals};
use beet_gathering::Gathers;
use beet_transcripts::SeenByAll;
use std::alloc::{AllocError, Global};

/// The points of bidders, added up, and the bidders as each server sees them.
#[derive(Drop)]
pub(crate) struct KeptBidders {
    pub(crate) totals: Totals,
    pub(crate) seen: SeenByAll,
}

impl Gathers for KeptBidders {
    ghost use Rattle.beet_job_witness.specs.Witness.{KeepsPoints};

    ghost has_taken = { λ grid bidders kept. KeepsPoints grid kept.totals kept.seen bidders };

    fn begin(alloc: Global, grid: &Grid) -> Result<KeptBidders, AllocError> {
        Ok(KeptBidders {
            totals: Totals::new(alloc, grid)?,
            seen: SeenByAll::new(alloc),
        })
    }

    fn take(&mut self, _grid: &Grid, points: Dealt) -> Result<(), AllocError> {
        self.totals.add(&points);
        self.seen.push_sealed(points.into_points())
    }
}
