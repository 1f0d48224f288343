//! The other two servers, as a server names them.

ghost use Rattle.std.specs.Prelude.{◌≡◌, ◌↔◌, Some, IsNone, IfSome};
ghost use Rattle.beet_round.specs.Sides.{peer, side_of};

use beet_field::Point;

/// One of the other two servers.
#[derive(Clone, Copy, PartialEq, Eq, Debug)]
pub enum Side {
    /// The server of the lower number.
    Low,
    /// The server of the higher number.
    High,
}

impl Side {
    /// The side of the server `from`, or `None` if that is the server `me` itself.
    pub fn of(me: Point, from: Point) -> Option<Side>
        ensures value { result ≡ side_of me from }
        ensures refused { IsNone result ↔ (from ≡ me) }
        ensures other { IfSome result (λ side. from ≡ peer me side) }
    {
        match (me, from) {
            (Point::One, Point::One) | (Point::Two, Point::Two) | (Point::Three, Point::Three) =>
                None,
            (Point::One, Point::Two) | (Point::Two, Point::One) | (Point::Three, Point::One) =>
                Some(Side::Low),
            _ => Some(Side::High),
        }
    }

    /// The server of this side, as the server `me` sees it.
    pub fn peer(self, me: Point) -> Point
        ensures value { result ≡ peer me self }
        ensures again { side_of me result ≡ Some self }
    {
        match (me, self) {
            (Point::One, Side::Low) | (Point::Three, Side::High) => Point::Two,
            (Point::Two, Side::Low) | (Point::Three, Side::Low) => Point::One,
            (Point::One, Side::High) | (Point::Two, Side::High) => Point::Three,
        }
    }
}
