use beet_field::Point;
use beet_forms::{FaultPlace, ReadFault};
use beet_world::{Delivery, read_schedule};
use std::alloc::Global;
use std::process::Abort;

/// The row of a schedule that is no delivery.
const BAD_ROWS: [&str; 10] = [
    "1,1,0\n",
    "1,2,1000000\n",
    "1,2\n",
    "1,2,0,0\n",
    "0,2,0\n",
    "1,4,0\n",
    "1,2,01\n",
    "1,2,+1\n",
    "1, 2,0\n",
    "1,2,\n",
];

/// Texts of which the first row is no header.
const BAD_HEADERS: [&str; 6] = [
    "",
    "beet-schedule\n",
    "beet-schedule,2\n",
    "beet-schedule,1,\n1,2,0\n",
    "beet-book,1\n1,2,0\n",
    "1,2,0\n",
];

/// How many deliveries a schedule holds at most.
const MOST: u32 = 1_000_000;

/// Compares the row and the reason that a schedule is refused with.
fn expect_bad(rt: &impl Abort, alloc: Global, text: &str, number: u32, reason: u32) {
    assert!(rt; text.len() <= 16_777_216);
    let place = FaultPlace::Row(number);
    let fault = ReadFault::Bad { place, reason };
    assert!(rt; read_schedule(alloc, text.as_bytes()).err() == Some(fault));
}

/// A row that is no delivery stands at the head of a schedule, and behind two deliveries.
fn expect_bad_row(rt: &impl Abort, alloc: Global, row: &str) {
    let first = format!(in alloc; "beet-schedule,1\n{row}").expect(rt, "memory");
    expect_bad(rt, alloc, first.as_str(), 2, 1);
    let third = format!(in alloc; "beet-schedule,1\n3,1,7\n2,3,0\n{row}{row}");
    expect_bad(rt, alloc, third.expect(rt, "memory").as_str(), 4, 1);
}

/// Reads schedules with the row of each case.
fn expect_bad_rows(rt: &impl Abort, alloc: Global, rows: &[&str]) {
    for row in rows {
        expect_bad_row(rt, alloc, row);
    }
}

#[test]
fn refused_rows(rt: HostRuntime) {
    expect_bad_rows(&rt, rt.alloc(), &BAD_ROWS);
}

/// Reads the schedule of each case.
fn expect_bad_headers(rt: &impl Abort, alloc: Global, texts: &[&str]) {
    for text in texts {
        expect_bad(rt, alloc, text, 1, 1);
    }
}

#[test]
fn refused_headers(rt: HostRuntime) {
    expect_bad_headers(&rt, rt.alloc(), &BAD_HEADERS);
}

/// Compares the deliveries of a schedule.
fn expect_deliveries(rt: &impl Abort, alloc: Global, text: &[u8], deliveries: &[Delivery]) {
    assert!(rt; text.len() <= 4_096);
    let read = read_schedule(alloc, text).expect(rt, "a schedule");
    assert!(rt; read.as_slice() == deliveries);
}

/// The first and the last delivery of a schedule, and the one between.
const FIRST: Delivery = Delivery {
    from: Point::One,
    to: Point::Two,
    round: 0,
};

const SECOND: Delivery = Delivery {
    from: Point::Three,
    to: Point::One,
    round: 999_999,
};

/// A schedule of three deliveries.
const THREE: &[u8] = b"beet-schedule,1\n1,2,0\n3,1,999999\n1,2,0\n";

#[test]
fn deliveries_in_order(rt: HostRuntime) {
    expect_deliveries(&rt, rt.alloc(), b"beet-schedule,1\n", &[]);
    expect_deliveries(&rt, rt.alloc(), THREE, &[FIRST, SECOND, FIRST]);
}

/// A schedule with as many deliveries as it may have.
fn longest(rt: &impl Abort, alloc: Global) -> String {
    let mut text = String::from_str(alloc, "beet-schedule,1\n").expect(rt, "memory");
    for _ in 0..MOST {
        text.push_str("2,1,0\n").expect(rt, "memory");
    }
    text
}

/// Compares how many deliveries a schedule has.
fn expect_count(rt: &impl Abort, alloc: Global, text: &str, count: u32) {
    assert!(rt; text.len() <= 16_777_216);
    let read = read_schedule(alloc, text.as_bytes()).expect(rt, "a schedule");
    assert!(rt; read.len() == count as usize);
}

#[test]
fn one_row_too_many(rt: HostRuntime) {
    let mut text = longest(&rt, rt.alloc());
    expect_count(&rt, rt.alloc(), text.as_str(), MOST);
    text.push_str("x\n").expect(&rt, "memory");
    expect_bad(&rt, rt.alloc(), text.as_str(), MOST + 2, 2);
}
