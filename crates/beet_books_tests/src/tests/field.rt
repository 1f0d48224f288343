//! The field, its three points, and lines over it.

use beet_field::{Fe, P, Point, Trio};
use beet_shamir::{deal, is_line, line_through, recombine, reshare};
use std::process::Abort;

/// The largest number of the field.
const LAST: u64 = 0x1fff_ffff_ffff_fffe;

/// Numbers whose bits are all set, and one that stays as it is, reduced.
fn reduced() -> [(Fe, u64); 4] {
    [
        (Fe::reduce(2_305_843_009_213_693_950), LAST),
        (Fe::reduce(18_446_744_073_709_551_615), 7),
        (Fe::reduce_u64(18_446_744_073_709_551_615), 7),
        (
            Fe::reduce(340_282_366_920_938_463_463_374_607_431_768_211_455),
            63,
        ),
    ]
}

/// What is made of 1 and of the largest number.
fn made_of(one: Fe, last: Fe) -> [(Fe, u64); 5] {
    [
        (Fe::default(), 0),
        (one.neg(), LAST),
        (last.mul(last), 1),
        (last.add(one), 0),
        (one.sub(Fe::reduce(2)), LAST),
    ]
}

/// 1 over the number of each point: itself, a half and a third.
fn quotients(one: Fe) -> [(Fe, u64); 3] {
    [
        (one.over(Point::One), 1),
        (one.over(Point::Two), 0x1000_0000_0000_0000),
        (one.over(Point::Three), 0x1555_5555_5555_5555),
    ]
}

/// Compares the values of numbers.
fn expect_values(rt: &impl Abort, cases: &[(Fe, u64)]) {
    for (number, wanted) in cases {
        assert!(rt; number.value() == *wanted, "not {wanted}");
    }
}

#[test]
fn vectors(rt: HostRuntime) {
    let (one, last) = (Fe::reduce(1), Fe::reduce(LAST as u128));
    assert!(rt; P == 0x1fff_ffff_ffff_ffff);
    assert!(rt; Fe::of(P).is_none());
    assert!(rt; Fe::of(P - 1) == Some(last));
    expect_values(&rt, &reduced());
    expect_values(&rt, &made_of(one, last));
    expect_values(&rt, &quotients(one));
}

/// These numbers, each at its point.
fn trio(one: u128, two: u128, three: u128) -> Trio<Fe> {
    Trio {
        one: Fe::reduce(one),
        two: Fe::reduce(two),
        three: Fe::reduce(three),
    }
}

/// Writes 9 at the points other than this.
fn write_others(numbers: &mut Trio<Fe>, at: Point) {
    for other in at.others() {
        *numbers.get_mut(other) = Fe::reduce(9);
    }
}

/// The values at the points in order.
fn values(numbers: &Trio<Fe>) -> (u64, u64, u64) {
    (
        numbers.get(Point::One).value(),
        numbers.get(Point::Two).value(),
        numbers.get(Point::Three).value(),
    )
}

#[test]
fn one_value_for_each_point(rt: HostRuntime) {
    assert!(rt; Point::of_number(2) == Some(Point::Two));
    assert!(rt; Point::of_number(4).is_none());
    assert!(rt; Point::of_digit(b"2") == Some(Point::Two));
    assert!(rt; Point::of_digit(b"0").is_none());
    assert!(rt; Point::Two.number() == 2);
    let mut numbers = trio(4, 5, 6);
    write_others(&mut numbers, Point::Two);
    assert!(rt; values(&numbers) == (9, 5, 9));
}

/// The value and the slope of the line with 18 at point 3 and 8 at point 1, and its point at 2.
fn line_of_two_points() -> (u64, u64, u64) {
    let line = line_through(Point::Three, Fe::reduce(18), Point::One, Fe::reduce(8));
    (
        line.value.value(),
        line.slope.value(),
        line.at(Point::Two).value(),
    )
}

#[test]
fn lines(rt: HostRuntime) {
    assert!(rt; deal(Fe::reduce(35), Fe::reduce(7)) == trio(42, 49, 56));
    assert!(rt; recombine(trio(42, 49, 56)).value() == 35);
    assert!(rt; is_line(trio(42, 49, 56)));
    assert!(rt; !is_line(trio(42, 49, 57)));
    assert!(rt; line_of_two_points() == (3, 5, 13));
}

/// What each server sends if the lines (3, 5) and (4, 2) are multiplied, and they draw 1, 2 and 4.
fn sent() -> Trio<Trio<Fe>> {
    Trio {
        one: deal(Fe::reduce(48), Fe::reduce(1)),
        two: deal(Fe::reduce(104), Fe::reduce(2)),
        three: deal(Fe::reduce(180), Fe::reduce(4)),
    }
}

/// The server's share of the product.
fn share_at(sent: &Trio<Trio<Fe>>, at: Point) -> u64 {
    let received = Trio {
        one: *sent.one.get(at),
        two: *sent.two.get(at),
        three: *sent.three.get(at),
    };
    reshare(received).value()
}

#[test]
fn product(rt: HostRuntime) {
    let sent = sent();
    assert!(rt; share_at(&sent, Point::One) == 13);
    assert!(rt; share_at(&sent, Point::Two) == 14);
    assert!(rt; share_at(&sent, Point::Three) == 15);
}
