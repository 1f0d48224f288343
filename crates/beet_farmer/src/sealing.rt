//! Sealing a curve in envelopes.

ghost use Rattle.std.specs.Prelude.{◌≡◌, ◌≤◌, ◌*◌, length, IfOk, OnErr};
ghost use Rattle.beet_words.specs.Tapes.{left_of};
ghost use Rattle.beet_bids.specs.Curves.{IsOfGrid};
ghost use Rattle.beet_book.specs.Dealing.{AreShares, DealsBidder, HasLengths, quantities};
ghost use Rattle.beet_farmer.specs.Sealing.{AreAddressed, points_in};

use crate::envelope::Envelope;
use beet_bids::{Curve, Grid};
use beet_book::deal_bidder;
use beet_field::Trio;
use beet_words::Tape;
use std::alloc::{AllocError, Global};

/// The envelopes for the three servers, in their order. Their points are those that `deal_bidder` deals from the same
/// tape. If memory runs out, the tape is as before.
pub fn seal(
    alloc: Global,
    grid: &Grid,
    curve: &Curve,
    tape: &mut Tape,
) -> Result<Trio<Envelope>, AllocError>
    requires of_grid { IsOfGrid grid.now curve.now }
    requires words { 2 * grid.now.prices ≤ length (left_of tape.old) }

    ensures servers { IfOk result AreAddressed }
    ensures dealt { IfOk result
        (λ envelopes. DealsBidder curve.now tape.old tape.new (points_in envelopes)) }
    ensures shares { IfOk result
        (λ envelopes. AreShares (quantities curve.now) (points_in envelopes)) }
    ensures lengths { IfOk result
        (λ envelopes. HasLengths (points_in envelopes) (2 * grid.now.prices)) }
    ensures refused { OnErr result (tape.new ≡ tape.old) }
{
    let points = deal_bidder(alloc, grid, curve, tape)?.into_points();
    Ok(points.map(|server, points| Envelope { server, points }))
}
