//! Lists of items that are combined in pairs, level by level.

ghost use Rattle.std.specs.Prelude.{◌≡◌, ◌<◌, ◌≤◌, ◌+◌, ◌*◌, ◌^◌, ◌⊎◌, ℕ};
ghost use Rattle.beet_field.specs.declared.TheConstants.{MOST_NUMBERS};
ghost use Rattle.beet_gates.specs.Each.{each};
ghost use Rattle.beet_gates.specs.Levels.{places_of_pair, wire_of, IsPaired, IsCarried};

/// The places of the items in `K` pairs: pair `i` has the items `2i` and `2i + 1`.
#[tactic(auto, using(crate::proofs::EachFacts::each_steps))]
pub fn level_pairs<const K: usize>() -> [(u32, u32); K]
    requires { K ≤ MOST_NUMBERS }
    ensures { result ≡ each places_of_pair K }
{
    let mut pairs = [(0, 0); K];
    for i in 0..K {
        let place = 2 * i as u32;
        pairs[i] = (place, place + 1);
    }
    pairs
}

/// The wires of a list that is combined in pairs: so many results from a wire on, each a step from the one before, and
/// after them one that is carried.
#[derive(Clone, Copy, PartialEq, Eq, Debug)]
pub struct LevelItems {
    pub start: u32,
    pub step: u32,
    pub results: u32,
    pub carried: u32,
}

impl LevelItems {
    /// The wire of the item at a place.
    pub fn wire(&self, k: u32) -> u32
        requires { self.now.start + self.now.step * self.now.results ≤ 2 ^ 32 }
        ensures { result ≡ wire_of self.now k }
    {
        if k < self.results {
            self.start + self.step * k
        } else {
            self.carried
        }
    }
}

/// Of a list of any length, each item stands in exactly one pair, or is the last one of an odd number and is carried.
pub fn level_law()
    ensures { (n k : ℕ) → k < n → IsPaired n k ⊎ IsCarried n k }
{}
