//! What holds of the words of two worlds of any script: those of the second are there, and are the only ones.
//!
//! There is no code here: the laws are contracts of functions that do nothing.
#![tactic(auto)]

ghost use Rattle.std.specs.Prelude.{ℕ, List, []};
ghost use Rattle.beet_field.specs.declared.point.Point.{Point};
ghost use Rattle.beet_field.specs.declared.trio.Trio.{Trio};
ghost use Rattle.beet_gates.specs.Scripts.{LawFrom, bounds_of, start_of};
ghost use Rattle.beet_gates.specs.declared.Batch.{Batch};
ghost use Rattle.beet_map.specs.Secrets.{Secrets};
ghost use Rattle.beet_map_laws.specs.Pairs.{AreTwoWorlds, CanDraw, GoTogether};

/// In two worlds of a lawful script that a server cannot tell apart, all coefficient words of the first that are enough
/// go with exactly one choice of those of the second, which shows the server the same and is enough too; and all of the
/// second that are enough go with exactly one choice of the first.
pub fn words_are_mapped_one_to_one()
    ensures image { (next : ℕ → List ℕ → Batch) (most inputs wires deals wanted : ℕ) (me : Point)
        (w w' : Secrets) (words : Trio (List ℕ)) →
        LawFrom next (bounds_of wires deals wanted) most (start_of inputs) [] →
        AreTwoWorlds next most inputs deals me w w' → CanDraw wanted words →
        (words' : Trio (List ℕ)) × CanDraw wanted words' × GoTogether next most me w w' words words' }
    ensures source { (next : ℕ → List ℕ → Batch) (most inputs wires deals wanted : ℕ) (me : Point)
        (w w' : Secrets) (words' : Trio (List ℕ)) →
        LawFrom next (bounds_of wires deals wanted) most (start_of inputs) [] →
        AreTwoWorlds next most inputs deals me w w' → CanDraw wanted words' →
        (words : Trio (List ℕ)) × CanDraw wanted words × GoTogether next most me w w' words words' }
{}
