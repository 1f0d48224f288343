//! One value for each point.

ghost use Rattle.std.specs.Prelude.{◌≡◌, IfErr, IfOk, MatchResult, Ok};
ghost use Rattle.std.specs.Borrow.{sem};
ghost use Rattle.beet_field.specs.Trio.{IsFirstFault, member};
ghost use Rattle.beet_field.specs.TrioLends.{LendsMember};

use crate::point::Point;

/// One value for each of the three points.
#[derive(Clone, PartialEq, Eq, Debug, Drop)]
pub struct Trio<T> {
    pub one: T,
    pub two: T,
    pub three: T,
}

impl<T> Trio<T> {
    /// The value at the point.
    pub fn get(&self, at: Point) -> &T
        ensures { result.now ≡ member self.now at }
    {
        match at {
            Point::One => &self.one,
            Point::Two => &self.two,
            Point::Three => &self.three,
        }
    }

    /// The value at the point, to be written. The other two stay as they are.
    pub fn get_mut(&mut self, at: Point) -> &mut T
        ensures* writes_back { sem 𝓛 (LendsMember T.row self.entry at result) }
        ensures value { result.now ≡ member self.old at }
    {
        match at {
            Point::One => &mut self.one,
            Point::Two => &mut self.two,
            Point::Three => &mut self.three,
        }
    }

    /// What `f` makes of each value and its point.
    pub fn map<U, F: Fn(Point, T) -> U>(self, f: F) -> Trio<U>
        requires { F.IsAlwaysCallable f }
        ensures one { F.post f Point.One self.one result.one }
        ensures two { F.post f Point.Two self.two result.two }
        ensures three { F.post f Point.Three self.three result.three }
    {
        Trio {
            one: f(Point::One, self.one),
            two: f(Point::Two, self.two),
            three: f(Point::Three, self.three),
        }
    }

    /// What `f` makes of each point.
    pub fn of<F: Fn(Point) -> T>(f: F) -> Trio<T>
        requires { F.IsAlwaysCallable f }
        ensures one { F.post f Point.One result.one }
        ensures two { F.post f Point.Two result.two }
        ensures three { F.post f Point.Three result.three }
    {
        Trio {
            one: f(Point::One),
            two: f(Point::Two),
            three: f(Point::Three),
        }
    }
}

impl<T: Drop> Trio<T> {
    /// What `f` makes of each point in order, or the first fault that it answers.
    pub fn try_of<E, F: Fn(Point) -> Result<T, E>>(f: F) -> Result<Trio<T>, E>
        requires { F.IsAlwaysCallable f }
        ensures one { IfOk result (λ made. F.post f Point.One (Ok made.one)) }
        ensures two { IfOk result (λ made. F.post f Point.Two (Ok made.two)) }
        ensures three { IfOk result (λ made. F.post f Point.Three (Ok made.three)) }
        ensures fault { IfErr result (IsFirstFault (F.post f)) }
    {
        Ok(Trio {
            one: f(Point::One)?,
            two: f(Point::Two)?,
            three: f(Point::Three)?,
        })
    }
}

impl<T: Drop, E: Drop> Trio<Result<T, E>> {
    /// All three values, or the fault of the first that has none.
    pub fn transpose(self) -> Result<Trio<T>, E>
        ensures { MatchResult result
            (λ all. (self.one ≡ Ok all.one) × (self.two ≡ Ok all.two) × (self.three ≡ Ok all.three))
            (IsFirstFault (λ at answer. member self at ≡ answer)) }
    {
        Ok(Trio {
            one: self.one?,
            two: self.two?,
            three: self.three?,
        })
    }
}
