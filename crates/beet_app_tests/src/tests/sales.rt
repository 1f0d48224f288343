//! A sale file that is cut at each place.

use super::frame::expect_job;
use std::alloc::Global;
use std::process::Abort;
use std::sync::Wait;
use std::thread::Threads;
use std::time::Clock;

/// A sale of two bidders.
const SALE: &str = "beet-sale,1\ngates,tree\nann,0,7,tape,made\nben,0,19,tape,t\n";

/// Runs the first so many bytes of the sale, and compares the status and the text.
fn expect_front(
    rt: &(impl Abort + Threads + Wait + Clock + Sync),
    alloc: Global,
    length: usize,
    row: u32,
    reason: u32,
) {
    let made = SALE.get(0..length).expect(rt, "a front");
    let text = format!(in alloc; "bad file: made row {row} reason {reason}\n").expect(rt, "memory");
    expect_job(
        rt,
        alloc,
        "beet_sale sale made s.srv",
        made,
        0,
        5,
        text.as_str(),
    );
}

/// From where to where a cut is told by which row and reason: in the header, in the gates, in a row of a bidder, right
/// before its source, and the same of the second bidder. A sale that is whole is no tape of its first bidder.
const FRONTS: [(usize, usize, u32, u32); 7] = [
    (0, 11, 1, 1),
    (11, 22, 2, 3),
    (22, 36, 3, 2),
    (36, 37, 3, 6),
    (37, 55, 4, 2),
    (55, 56, 4, 6),
    (56, 58, 1, 1),
];

/// Cuts the sale at each place.
fn expect_fronts(rt: &(impl Abort + Threads + Wait + Clock + Sync), alloc: Global) {
    for (from, to, row, reason) in FRONTS {
        for length in from..to {
            expect_front(rt, alloc, length, row, reason);
        }
    }
}

#[test]
fn sales_are_cut(rt: HostRuntime) {
    expect_fronts(&rt, rt.alloc());
}
