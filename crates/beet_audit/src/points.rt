//! The points of a bidder in three views.

ghost use Rattle.std.specs.Prelude.{◌≡◌, ◌<◌, length, slice_index};
ghost use Rattle.beet_field.specs.Field.{IsElement};
ghost use Rattle.beet_shamir.specs.Line.{AreElements};
ghost use Rattle.beet_book.specs.Totals.{points_on};
ghost use Rattle.beet_audit.specs.Audits.{HavePlace, bidder_at, points_of_bidder, value_at as value_of};

use beet_field::{Fe, Trio};
use beet_shamir::recombine;
use beet_view::View;

/// The points of a bidder in a view.
pub(crate) fn points_in(view: &View, bidder: u32) -> &[Fe]
    requires { bidder < length view.now.bidders }
    ensures { result.now ≡ (bidder_at view.now bidder).points }
{
    view.bidders()[bidder as usize].points.as_slice()
}

/// The n-th point of a bidder in a view.
fn point_at(view: &View, bidder: u32, n: u32) -> Fe
    requires { n < length (bidder_at view.now bidder).points }
    ensures point { result ≡ slice_index (bidder_at view.now bidder).points n }
    ensures element { IsElement result }
{
    let point = points_in(view, bidder)[n as usize];
    let _below = point.value();
    point
}

/// The n-th points of a bidder in three views.
pub(crate) fn points_at(views: &Trio<View>, bidder: u32, n: u32) -> Trio<Fe>
    requires { HavePlace (points_of_bidder views.now bidder) n }
    ensures points { result ≡ points_on (points_of_bidder views.now bidder) n }
    ensures elements { AreElements result }
{
    Trio {
        one: point_at(&views.one, bidder, n),
        two: point_at(&views.two, bidder, n),
        three: point_at(&views.three, bidder, n),
    }
}

/// What they recombine to.
pub(crate) fn value_at(views: &Trio<View>, bidder: u32, n: u32) -> u64
    requires { HavePlace (points_of_bidder views.now bidder) n }
    ensures { result ≡ value_of (points_of_bidder views.now bidder) n }
{
    recombine(points_at(views, bidder, n)).value()
}
