//! Lines over the field: sharing a value among three servers, and putting shares together.
//!
//! A value is shared by a line whose value at 0 it is and whose slope is a random number: the share
//! of a server is the line's point at the server's number (A. Shamir, "How to Share a Secret",
//! Communications of the ACM 22(11), 1979, with threshold one). A product of two shared values is
//! brought back to a line by dealing each server's product of its own shares again (R. Gennaro, M.
//! Rabin and T. Rabin, "Simplified VSS and Fast-track Multiparty Computations with Applications to
//! Threshold Cryptography", PODC 1998).
#![tactic(auto)]

ghost use Rattle.std.specs.Prelude.{◌≡◌, ◌≢◌, ◌↔◌, IsTrue};
ghost use Rattle.beet_field.specs.Field.{add_of, mul_of};
ghost use Rattle.beet_field.specs.Point.{number_of};
ghost use Rattle.beet_shamir.specs.Line.{point_of, points_of, recombined, reshared, AreElements, GivesValue, HasLine};
ghost use Rattle.beet_shamir.specs.Line.{IsLine, IsOnlyLine, SharesProduct};

use beet_field::{Fe, Point, Trio};

/// A line, by its value at 0 and its slope.
#[derive(Clone, Copy, PartialEq, Eq, Debug)]
pub struct Line {
    pub value: Fe,
    pub slope: Fe,
}

impl Line {
    /// The line's point at `at`, which is the share of that server (Shamir 1979).
    pub fn at(self, at: Point) -> Fe
        ensures { result ≡ point_of self.value self.slope at }
    {
        self.value.add(times(self.slope, at))
    }
}

/// The product of a number and a point's number.
fn times(x: Fe, at: Point) -> Fe
    ensures { result ≡ mul_of x (number_of at) }
{
    match at {
        Point::One => x,
        Point::Two => x.add(x),
        Point::Three => x.add(x).add(x),
    }
}

/// The three points of the line, which are the shares of the value (Shamir 1979).
pub fn deal(value: Fe, slope: Fe) -> Trio<Fe>
    ensures { result ≡ points_of value slope }
{
    let one = value.add(slope);
    let two = one.add(slope);
    Trio {
        one,
        two,
        three: two.add(slope),
    }
}

/// The value of the line through the points at 1 and 2 (Shamir 1979). The point at 3 is not looked at,
/// so the three need not lie on a line.
pub fn recombine(points: Trio<Fe>) -> Fe
    ensures value { result ≡ recombined points }
    ensures line { GivesValue points result }
{
    points.one.add(points.one).sub(points.two)
}

/// A server's share of a product, from what the three servers sent it: each the product of its own two
/// shares, dealt again (Gennaro, Rabin and Rabin 1998). The new line has the old values' product, and its
/// slope is made of the three dealt slopes in the same way as the share of the three received numbers.
pub fn reshare(received: Trio<Fe>) -> Fe
    ensures value { result ≡ reshared received }
    ensures product { SharesProduct received result }
{
    times(received.one.sub(received.two), Point::Three).add(received.three)
}

/// Whether the three points lie on a line.
pub fn is_line(points: Trio<Fe>) -> bool
    ensures answer { IsTrue result ↔ IsLine points }
    ensures line { AreElements points → (IsTrue result ↔ HasLine points) }
{
    points.two.add(points.two) == points.one.add(points.three)
}

/// The slope of the line through the two points.
fn slope_of(a: Point, at_a: Fe, b: Point, at_b: Fe) -> Fe
    requires { a ≢ b }
    ensures { add_of at_a (mul_of result (number_of b)) ≡ add_of at_b (mul_of result (number_of a)) }
{
    match (a, b) {
        (Point::One, Point::Two) | (Point::Two, Point::Three) => at_b.sub(at_a),
        (Point::One, Point::Three) => at_b.sub(at_a).over(Point::Two),
        (Point::Two, Point::One) | (Point::Three, Point::Two) => at_a.sub(at_b),
        (Point::Three, Point::One) => at_a.sub(at_b).over(Point::Two),
        _ => unreachable!(),
    }
}

/// The line with the point `at_a` at `a` and the point `at_b` at `b` (Shamir 1979).
pub fn line_through(a: Point, at_a: Fe, b: Point, at_b: Fe) -> Line
    requires { a ≢ b }
    ensures first { point_of result.value result.slope a ≡ at_a }
    ensures second { point_of result.value result.slope b ≡ at_b }
    ensures only { IsOnlyLine result.value result.slope a at_a b at_b }
{
    let slope = slope_of(a, at_a, b, at_b);
    Line {
        value: at_a.sub(times(slope, a)),
        slope,
    }
}
