use super::auction::{SEEDS, grid, points, servers};
use beet_field::{Point, Trio};
use beet_link::LinkRx;
use beet_search::AuctionScript;
use beet_station::{Station, all_links, mails, put_both, stations};
use std::alloc::Global;
use std::process::Abort;
use std::snapshot::Snapshot;
use std::sync::Wait;

/// Servers 2 and 3 with their ends, after server 1 has put the two messages of round 0.
fn after_one(
    rt: &(impl Wait + Abort),
    alloc: Global,
) -> (Station<AuctionScript>, Station<AuctionScript>) {
    let grid = grid(rt);
    let points = points(rt, alloc, &grid);
    let cores = servers(rt, alloc, &grid, &points, &SEEDS);
    let run = Snapshot::of(&cores);
    let links = all_links(alloc, &cores).expect(rt, "memory");
    let mails = mails(alloc).expect(rt, "memory");
    let Trio {
        mut one,
        two,
        three,
    } = stations(cores, links);
    assert!(rt; !one.core.ended());
    put_both(rt, Point::One, &mut one, mails.one, &run);
    (two, three)
}

/// Takes the one message of a link.
pub fn expect_one(rt: &(impl Wait + Abort), link: &mut LinkRx, receiver: Point) {
    let message = link.take(rt).expect(rt, "a message");
    assert_eq!(rt; message.from, Point::One);
    assert_eq!(rt; message.to, receiver);
    assert_eq!(rt; message.round, 0);
    expect_none(rt, link);
}

/// Expects that a link is empty.
fn expect_none(rt: &(impl Wait + Abort), link: &mut LinkRx) {
    assert!(rt; link.take(rt).is_none());
}

#[test]
fn what_is_put_is_taken(rt: HostRuntime) {
    let (mut two, mut three) = after_one(&rt, rt.alloc());
    expect_one(&rt, &mut two.from_low, Point::Two);
    expect_one(&rt, &mut three.from_low, Point::Three);
    expect_none(&rt, &mut two.from_high);
    expect_none(&rt, &mut three.from_high);
    drop((two, three));
}
