use super::product::three_and_four;
use beet_bids::{Grid, Policy};
use beet_field::{Fe, Point};
use beet_gates::Gates;
use beet_samples::Sample;
use beet_server::ServerCore;
use beet_view::{ShownBidders, View, read_view, transcript_of};
use beet_world::lockstep;
use std::alloc::Global;
use std::process::Abort;

/// Appends a bidder that server 1 knows, with a point of its own at the last place, as another server sees it.
fn push_bidder(rt: &impl Abort, bidders: &mut ShownBidders, last: u128) {
    let points = [
        Fe::reduce(7),
        Fe::reduce(8),
        Fe::reduce(9),
        Fe::reduce(last),
    ];
    bidders
        .push(Some(Point::One), &points, None)
        .expect(rt, "memory");
}

/// Two lists of one bidder each, put together.
fn two_bidders(rt: &impl Abort, alloc: Global) -> ShownBidders {
    let mut bidders = ShownBidders::new(alloc);
    push_bidder(rt, &mut bidders, 10);
    let mut others = ShownBidders::new(alloc);
    push_bidder(rt, &mut others, 20);
    bidders.append(others).expect(rt, "memory");
    bidders
}

/// What is read of the transcript of a server that has ended, with two bidders.
fn view_with_bidders(rt: &impl Abort, alloc: Global, core: &ServerCore<Sample>) -> View {
    assert!(rt; core.ended());
    let grid = Grid::new(100, 5, 2, Gates::Tree).expect(rt, "a grid");
    let grid = grid.with_policy(Policy::Full);
    let file = transcript_of(alloc, core, &grid, two_bidders(rt, alloc)).expect(rt, "memory");
    assert!(rt; file.len() <= 1_000);
    read_view(alloc, file.as_slice()).expect(rt, "a view")
}

/// The last point of the bidder of a place.
fn last_point(view: &View, place: usize) -> Option<u64> {
    let seen = view.bidders().get(place)?;
    Some(seen.points.as_slice().last()?.value())
}

/// What server 2 saw of the bidders.
fn expect_bidders(rt: &impl Abort, view: &View) {
    assert!(rt; view.bidders().len() == 2);
    assert!(rt; last_point(view, 0) == Some(10));
    assert!(rt; last_point(view, 1) == Some(20));
}

/// The first number of a message, if there is one.
fn first_number(view: &View, round: u32, sender: Point) -> Option<u64> {
    Some(view.numbers(round, sender)?.first()?.value())
}

/// What server 2 saw of the product, and the messages to it.
fn expect_product(rt: &impl Abort, view: &View) {
    assert!(rt; view.server() == Point::Two);
    assert!(rt; view.grid().policy() == Policy::Full);
    assert!(rt; view.coefficients().len() == 1);
    assert!(rt; view.rounds() == 2);
    assert!(rt; first_number(view, 0, Point::One) == Some(50));
    assert!(rt; first_number(view, 0, Point::Three) == Some(188));
    assert!(rt; first_number(view, 1, Point::One) == Some(13));
    assert!(rt; first_number(view, 1, Point::Three) == Some(15));
}

/// The view of server 2 after the product.
fn view_of_two(rt: &impl Abort, alloc: Global) -> View {
    let cores = lockstep(three_and_four(rt, alloc));
    let view = view_with_bidders(rt, alloc, &cores.two);
    drop(cores);
    view
}

#[test]
fn transcript_of_a_product(rt: HostRuntime) {
    let view = view_of_two(&rt, rt.alloc());
    expect_bidders(&rt, &view);
    expect_product(&rt, &view);
}
