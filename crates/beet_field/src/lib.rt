//! Whole numbers modulo `2^61 - 1`, the three points at which servers hold their shares, and one
//! value for each of these points.
//!
//! Nothing here rests on the modulus being prime: the only quotients are those by 1, 2 and 3, whose
//! inverses are written down.
#![tactic(auto)]

ghost use Rattle.std.specs.Prelude.{◌≡◌, ◌↔◌, ◌≤◌, ◌<◌, ◌+◌, ◌*◌, ◌/◌, ◌%◌, ◌^◌, IfSome, IsNone};
ghost use Rattle.beet_field.specs.Field.{p, IsElement, add_of, mul_of, neg_of, sub_of};
ghost use Rattle.beet_field.specs.Point.{number_of};

mod point;
mod trio;

pub use point::Point;
use std::marker::Model;
pub use trio::Trio;

/// The modulus, `2^61 - 1`.
pub const P: u64 = 2_305_843_009_213_693_951;

/// The most numbers of one message, so also the most pairs or wires of a batch.
pub const MOST_NUMBERS: usize = 64;

/// 1 less than the modulus, the factor that takes a number away.
pub const MINUS_ONE: u128 = P as u128 - 1;

/// 2 less than the modulus, the factor that takes a number away twice.
pub const MINUS_TWO: u128 = P as u128 - 2;

/// The inverse of 2, which is `2^60`.
const HALF: u64 = 1_152_921_504_606_846_976;

/// The inverse of 3, which is `(2^62 - 1) / 3`.
const THIRD: u64 = 1_537_228_672_809_129_301;

/// A number from 0 to `P - 1`. The default is 0.
#[derive(Clone, Copy, PartialEq, Eq, Debug, Default)]
pub struct Fe {
    number: u64,
}

impl Model for Fe {
    ghost use Rattle.std.specs.Prelude.{ℕ};
    ghost use Rattle.beet_field.specs.Field.{IsElement};

    ghost Value = { ℕ };

    ghost view = { λ a. a.number };

    ghost invariant = { λ a. IsElement a.number };

    ghost inverse = { λ n. record { number = n } };
}

/// Adds what stands above the low 61 bits to these bits. This leaves the number the same modulo
/// `P`, since `2^61` is `P + 1`.
fn fold(n: u128) -> u128
    ensures { result ≡ n / 2 ^ 61 + n % 2 ^ 61 }
{
    (n >> 61) + (n & P as u128)
}

/// Subtracts `P` from a number of `P` or more. Below `2 * P`, where this suffices, `(n + 1) >> 61` is 1 for these
/// numbers and 0 for all others: with no branch, loops over lists of numbers go two at a time.
fn take_modulus(n: u64) -> Fe
    requires { n < 2 * p }
    ensures { result ≡ n % p }
{
    Fe {
        number: (n + ((n + 1) >> 61)) & P,
    }
}

impl Fe {
    /// The number `n`, or `None` if `n` is `P` or more.
    pub fn of(n: u64) -> Option<Fe>
        ensures refused { IsNone result ↔ (p ≤ n) }
        ensures value { IfSome result (λ x. x ≡ n) }
    {
        if n < P { Some(Fe { number: n }) } else { None }
    }

    /// `n` modulo `P`, for any `n` and without a division: two folds bring it below `2 * P`.
    pub fn reduce(n: u128) -> Fe
        ensures { result ≡ n % p }
    {
        take_modulus(fold(fold(n)) as u64)
    }

    /// `n` modulo `P`, for 64 bits: one fold brings it below `2 * P`.
    pub fn reduce_u64(n: u64) -> Fe
        ensures { result ≡ n % p }
    {
        take_modulus((n >> 61) + (n & P))
    }

    /// The number itself, from 0 to `P - 1`.
    pub fn value(self) -> u64
        ensures value { result ≡ self }
        ensures below { IsElement result }
    {
        self.number
    }

    /// The sum modulo `P`.
    pub fn add(self, other: Fe) -> Fe
        ensures { result ≡ add_of self other }
    {
        take_modulus(self.number + other.number)
    }

    /// The difference modulo `P`.
    pub fn sub(self, other: Fe) -> Fe
        ensures { result ≡ sub_of self other }
    {
        take_modulus(self.number + (P - other.number))
    }

    /// The number that gives 0 when it is added to this one.
    pub fn neg(self) -> Fe
        ensures { result ≡ neg_of self }
    {
        take_modulus(P - self.number)
    }

    /// The product modulo `P`, without a division: the product is below `P * P`, so one fold brings
    /// it below `2 * P`.
    pub fn mul(self, other: Fe) -> Fe
        ensures { result ≡ mul_of self other }
    {
        take_modulus(fold(self.number as u128 * other.number as u128) as u64)
    }

    /// The number that gives this one when it is multiplied by the point's number.
    pub fn over(self, by: Point) -> Fe
        ensures { mul_of result (number_of by) ≡ self }
    {
        match by {
            Point::One => self,
            Point::Two => self.mul(Fe { number: HALF }),
            Point::Three => self.mul(Fe { number: THIRD }),
        }
    }
}
