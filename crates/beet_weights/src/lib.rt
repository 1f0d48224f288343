//! Polynomials of degree at most two over the field: sharing a value among five servers with
//! threshold two, and putting shares together (Shamir 1979; Gennaro, Rabin and Rabin 1998).
#![tactic(auto)]

ghost use Rattle.std.specs.Prelude.{◌≡◌, ◌%◌, ℕ, ◌∷◌, []};
ghost use Rattle.beet_field.specs.Field.{p, IsElement, mul_of};
ghost use Rattle.beet_weights.specs.Weights.{three_weights, five_weights, weighted, AreWeights};
ghost use Rattle.beet_weights.specs.Quadratics.{point_of, reshared};

use beet_field::Fe;

/// Numbers of the field whose signs alternate.
macro_rules! alternating {
    ($first:literal $(, - $minus:literal, $plus:literal)*) => {
        [Fe::reduce($first) $(, Fe::reduce($minus).neg(), Fe::reduce($plus))*]
    };
}

/// The weights for five points: 5, -10, 10, -5 and 1.
pub fn weights_five() -> [Fe; 5]
    ensures numbers { result ≡ five_weights }
    ensures sums { AreWeights result }
{
    alternating!(5, -10, 10, -5, 1)
}

/// The weights for three points: 3, -3 and 1.
pub fn weights_three() -> [Fe; 3]
    ensures numbers { result ≡ three_weights }
    ensures sums { AreWeights result }
{
    alternating!(3, -3, 1)
}

/// A polynomial of degree at most two.
#[derive(Clone, Copy, PartialEq, Eq, Debug)]
pub struct Quadratic {
    pub value: Fe,
    pub first: Fe,
    pub second: Fe,
}

impl Quadratic {
    /// The point at `i`, which is the share of that server.
    pub fn at(self, i: u32) -> Fe
        ensures { result ≡ point_of self.value self.first self.second i }
    {
        let i = Fe::reduce_u64(i as u64);
        self.second.mul(i).add(self.first).mul(i).add(self.value)
    }
}

/// A server's share of a product, from what the five servers sent it: each the product of its own two shares, dealt
/// again. The new polynomial has the old values' product, and its coefficients are made of the dealt ones in the same
/// way.
pub fn reshare(one: Fe, two: Fe, three: Fe, four: Fe, five: Fe) -> Fe
    ensures value { result ≡ weighted five_weights (one ∷ two ∷ three ∷ four ∷ five ∷ []) % p }
    ensures product { (v a b w c d : ℕ) (firsts seconds : ℕ → ℕ) (to : ℕ) →
        (let sent : ℕ → ℕ = λ j. point_of (mul_of (point_of v a b j) (point_of w c d j)) (firsts j) (seconds j) to in
        sent 1 ≡ one → sent 2 ≡ two → sent 3 ≡ three → sent 4 ≡ four → sent 5 ≡ five →
        result ≡ point_of (mul_of v w) (reshared firsts) (reshared seconds) to) }
{
    let [w1, w2, w3, w4, w5] = weights_five();
    w1.mul(one)
        .add(w2.mul(two))
        .add(w3.mul(three))
        .add(w4.mul(four))
        .add(w5.mul(five))
}

/// The value of the polynomial through the points at 1, 2 and 3.
pub fn recombine(one: Fe, two: Fe, three: Fe) -> Fe
    ensures value { result ≡ weighted three_weights (one ∷ two ∷ three ∷ []) % p }
    ensures shared { (v a b : ℕ) → IsElement v →
        point_of v a b 1 ≡ one → point_of v a b 2 ≡ two → point_of v a b 3 ≡ three → result ≡ v }
{
    let [w1, w2, w3] = weights_three();
    w1.mul(one).add(w2.mul(two)).add(w3.mul(three))
}
