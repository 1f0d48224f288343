//! The points at which the servers hold their shares.

ghost use Rattle.std.specs.Prelude.{◌≡◌, ◌↔◌, ◌≤◌, ◌⊎◌, IfSome, IsNone};
ghost use Rattle.beet_field.specs.Point.{number_of, others_of, server_of};

/// One of three servers, and the point at which it holds its shares.
#[derive(Clone, Copy, PartialEq, Eq, Debug)]
pub enum Point {
    /// Server 1, at 1.
    One,
    /// Server 2, at 2.
    Two,
    /// Server 3, at 3.
    Three,
}

impl Point {
    /// The point's number: 1, 2 or 3.
    pub fn number(self) -> u64
        ensures { result ≡ number_of self }
    {
        match self {
            Point::One => 1,
            Point::Two => 2,
            Point::Three => 3,
        }
    }

    /// The point of the number `n`, or `None` if `n` is not 1, 2 or 3.
    pub fn of_number(n: u64) -> Option<Point>
        ensures refused { IsNone result ↔ ((n ≡ 0) ⊎ (4 ≤ n)) }
        ensures value { IfSome result (λ at. number_of at ≡ n) }
    {
        match n {
            1 => Some(Point::One),
            2 => Some(Point::Two),
            3 => Some(Point::Three),
            _ => None,
        }
    }

    /// The point of the digit `1`, `2` or `3`, or `None` if the text is none of them.
    pub fn of_digit(text: &[u8]) -> Option<Point>
        ensures { result ≡ server_of text.now }
    {
        match text {
            b"1" => Some(Point::One),
            b"2" => Some(Point::Two),
            b"3" => Some(Point::Three),
            _ => None,
        }
    }

    /// The other two points, the lower first.
    pub fn others(self) -> [Point; 2]
        ensures { result ≡ others_of self }
    {
        match self {
            Point::One => [Point::Two, Point::Three],
            Point::Two => [Point::One, Point::Three],
            Point::Three => [Point::One, Point::Two],
        }
    }
}
