//! Two servers that put together what they see.

ghost use Rattle.std.specs.Prelude.{◌≡◌, ◌<◌, ◌≤◌, MatchOption};
ghost use Rattle.beet_weights.specs.Quadratics.{IsServer};
ghost use Rattle.beet_coalition.specs.Watchers.{inverse_of, two_watch};

use beet_field::{Fe, Point};

/// How many servers there are.
const SERVERS: u32 = 5;

/// The inverse of 4, which is `2^59`.
const QUARTER: u64 = 576_460_752_303_423_488;

/// The inverse of 5, which is `(2^63 - 3) / 5`.
const FIFTH: u64 = 1_844_674_407_370_955_161;

/// The inverse of a server's number.
fn inverse(server: u32) -> Fe
    requires { IsServer server }
    ensures { result ≡ inverse_of server }
{
    let one = Fe::reduce_u64(1);
    match server {
        1 => one,
        2 => one.over(Point::Two),
        3 => one.over(Point::Three),
        4 => Fe::reduce_u64(QUARTER),
        _ => Fe::reduce_u64(FIFTH),
    }
}

/// Two servers of five that put together what they see: `a` below `b`.
#[derive(Clone, Copy)]
pub struct Watchers {
    pub a: u32,
    pub b: u32,
    pub ghost lowest: { 1 ≤ a },
    pub ghost order: { a < b },
    pub ghost highest: { b ≤ 5 },
}

impl Watchers {
    /// Two servers, or none unless both are from 1 to 5 and the first is below the second.
    pub fn of(a: u32, b: u32) -> Option<Watchers>
        ensures { MatchOption result (1 ≤ a → a < b → b ≤ 5 → ⊥) (λ two. (two.a ≡ a) × (two.b ≡ b)) }
    {
        if a >= 1 && a < b && b <= SERVERS {
            Some(Watchers { a, b })
        } else {
            None
        }
    }

    /// Whether a server is one of the two.
    pub fn watches(self, server: u32) -> bool
        ensures { result ≡ (two_watch self.a self.b).watches server }
    {
        server == self.a || server == self.b
    }

    /// By how much the two numbers that hide a secret move if the secret is one less: by `(a + b) / (a * b)` and by
    /// `-1 / (a * b)`.
    pub fn factors(self) -> (Fe, Fe)
        ensures rho { result.0 ≡ (two_watch self.a self.b).factor 0 }
        ensures sigma { result.1 ≡ (two_watch self.a self.b).factor 1 }
    {
        let inverse = inverse(self.a).mul(inverse(self.b));
        let sum = Fe::reduce_u64((self.a + self.b) as u64);
        (sum.mul(inverse), inverse.neg())
    }
}
