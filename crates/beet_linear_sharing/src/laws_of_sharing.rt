//! What holds of the run of a script among five servers.

ghost use Rattle.std.specs.Prelude.{◌≤◌, ℕ, List, []};
ghost use Rattle.beet_gates.specs.Scripts.{Standing, LawFrom, start_among};
ghost use Rattle.beet_linear_sharing.specs.Polynomials.{AreShared, IsAtOne, HaveSameRounds};
ghost use Rattle.beet_linear_sharing.specs.Runs.{Setup, HasRounds, rounds_among};
ghost use Rattle.beet_linear_sharing.specs.Schemes.{five_servers};

/// If the points of the inputs are those of polynomials of degree at most two, so are the points of each wire after
/// each batch, and their values are those of the clear run. The opened numbers are the clear run's, and so is the
/// number of words dealt.
pub fn wires_stay_shared()
    ensures { (o : Setup) (values : List ℕ) → AreShared five_servers values o.inputs →
        (t : ℕ) → IsAtOne five_servers o values t }
{}

/// Then the run ends after as many rounds as the clear run, or both go on for ever.
pub fn rounds_are_the_clear_runs()
    ensures { (o : Setup) (values : List ℕ) → AreShared five_servers values o.inputs →
        HaveSameRounds five_servers o values }
{}

/// A run of a lawful script ends after no more rounds than the law allows, on any points.
pub fn lawful_runs_end()
    ensures { (o : Setup) (bounds : Standing) (most inputs : ℕ) →
        LawFrom o.next bounds most (start_among 5 inputs) [] →
        HasRounds five_servers o (rounds_among five_servers o most) × (rounds_among five_servers o most ≤ most) }
{}
