//! What holds of the run of a script among three servers, of which the servers are parts.

ghost use Rattle.std.specs.Prelude.{◌≡◌, ◌<◌, ◌≤◌, ℕ, List, [], ◌∷◌, length};
ghost use Rattle.beet_gates.specs.Clear.{clear_values, rounds_run};
ghost use Rattle.beet_gates.specs.Scripts.{Standing, LawFrom, start_of};
ghost use Rattle.beet_sharing.specs.Runs.{Setup, HasRounds, rounds_among, shared_at, standing_at};
ghost use Rattle.beet_sharing.specs.Lines.{OnLines, IsAtOne, HaveSameRounds, slopes_at, slopes_standing};
ghost use Rattle.beet_sharing.specs.Rounds.{HasInputs, RoundIsWithin};
ghost use Rattle.beet_sharing.specs.Examples.{bent_setup, deal_setup, product_setup, sends, trio, wire_at};
ghost use Rattle.beet_field.specs.declared.point.Point.TheVariants.{One, Two, Three};

/// If the points of the inputs are those of lines, so are the points of each wire after each
/// batch: those of the line with the value of the clear run and the stated slope. The opened
/// numbers are the clear run's, and so is the number of words dealt.
pub fn wires_stay_on_lines()
    ensures { (o : Setup) (values slopes : List ℕ) → OnLines values slopes o.inputs →
        (t : ℕ) → IsAtOne o values slopes t }
{}

/// If the points of the inputs are those of lines, the run ends after as many rounds as the
/// clear run on their values, or both go on for ever.
pub fn rounds_are_the_clear_runs()
    ensures { (o : Setup) (values slopes : List ℕ) → OnLines values slopes o.inputs →
        HaveSameRounds o values }
{}

/// A run of a lawful script ends after no more rounds than the law allows, on any points, also such
/// as are on no line.
pub fn lawful_runs_end()
    ensures { (o : Setup) (bounds : Standing) (most inputs : ℕ) →
        LawFrom o.next bounds most (start_of inputs) [] →
        HasRounds o (rounds_among o most) × (rounds_among o most ≤ most) }
{}

/// If each server has a lawful script's number of points of the inputs, each round of a run of
/// the script takes no more numbers, words and points than the law allows. A message has at least
/// one number and at most `MOST_NUMBERS`.
pub fn rounds_stay_within()
    ensures { (o : Setup) (bounds : Standing) (most inputs : ℕ) →
        LawFrom o.next bounds most (start_of inputs) [] → HasInputs o inputs →
        (t : ℕ) → t < rounds_among o most → RoundIsWithin o bounds t }
{}

/// If the points of the inputs are those of lines, a run of a lawful script has the rounds of
/// the clear run. At the end it has opened the clear run's numbers, and the points of each wire,
/// also of the lets of the end, are those of the line with the clear run's value and the stated
/// slope.
pub fn lines_end_alike()
    ensures rounds { (o : Setup) (bounds : Standing) (most : ℕ) (values slopes : List ℕ) →
        LawFrom o.next bounds most (start_of (length values)) [] → OnLines values slopes o.inputs →
        rounds_among o most ≡ rounds_run o.next most values o.masks }
    ensures opened { (o : Setup) (bounds : Standing) (most : ℕ) (values slopes : List ℕ) →
        LawFrom o.next bounds most (start_of (length values)) [] → OnLines values slopes o.inputs →
        (shared_at o (rounds_among o most)).opened
        ≡ (clear_values o.next most values o.masks).opened }
    ensures wires { (o : Setup) (bounds : Standing) (most : ℕ) (values slopes : List ℕ) →
        LawFrom o.next bounds most (start_of (length values)) [] → OnLines values slopes o.inputs →
        OnLines (clear_values o.next most values o.masks).wires
        (slopes_standing o slopes (rounds_among o most))
        (standing_at o (rounds_among o most)).wires }
{}

/// The product of 3 and 4, on the lines 3 + 5i and 4 + 2i, if the servers draw 1, 2 and 4: the
/// messages, the new points, the opened number and the rounds.
#[tactic(auto, unfolding(beet_gates::specs::Clear::weighed, beet_gates::specs::Each::each))]
pub fn product_example()
    ensures lines { OnLines (3 ∷ 4 ∷ []) (5 ∷ 2 ∷ []) product_setup.inputs }
    ensures from_one { sends product_setup One 0 ≡ trio (49 ∷ []) (50 ∷ []) (51 ∷ []) }
    ensures from_two { sends product_setup Two 0 ≡ trio (106 ∷ []) (108 ∷ []) (110 ∷ []) }
    ensures from_three { sends product_setup Three 0 ≡ trio (184 ∷ []) (188 ∷ []) (192 ∷ []) }
    ensures points { wire_at product_setup 1 2 ≡ trio 13 14 15 }
    ensures slopes { slopes_at product_setup (5 ∷ 2 ∷ []) 1 ≡ 5 ∷ 2 ∷ 1 ∷ [] }
    ensures shown { sends product_setup Two 1 ≡ trio (14 ∷ []) (14 ∷ []) (14 ∷ []) }
    ensures opened { (shared_at product_setup 2).opened ≡ 12 ∷ [] }
    ensures rounds { HasRounds product_setup 2 }
    ensures bent { (shared_at bent_setup 2).opened ≡ 22 ∷ [] }
{}

/// The words 5, 2 and 2^60 + 1 are dealt: points of the bits, a let over them, the opened number
/// and the rounds.
#[tactic(auto, unfolding(beet_gates::specs::Clear::weighed, beet_gates::specs::Each::each))]
pub fn deal_example()
    ensures first { wire_at deal_setup 1 0 ≡ trio 11 21 31 }
    ensures second { wire_at deal_setup 1 1 ≡ trio 11 22 33 }
    ensures third { wire_at deal_setup 1 2 ≡ trio 13 25 37 }
    ensures of_two { wire_at deal_setup 1 61 ≡ trio 100 200 300 }
    ensures next_of_two { wire_at deal_setup 1 62 ≡ trio 102 203 304 }
    ensures of_three { wire_at deal_setup 1 122 ≡ trio 1001 2001 3001 }
    ensures last { wire_at deal_setup 1 182 ≡ trio 1061 2121 3181 }
    ensures combined { wire_at deal_setup 2 183 ≡ trio 7334 14654 21974 }
    ensures shown { sends deal_setup Three 1 ≡ trio (21974 ∷ []) (21974 ∷ []) (21974 ∷ []) }
    ensures opened { (shared_at deal_setup 2).opened ≡ 14 ∷ [] }
    ensures drawn { (shared_at deal_setup 2).drawn ≡ 61 }
    ensures dealt { (shared_at deal_setup 2).dealt ≡ 1 }
    ensures rounds { HasRounds deal_setup 2 }
{}
