//! What the auction is for among five servers, in laws: two of them cannot tell, whatever they tell each other, and
//! three of them can.

ghost use Rattle.std.specs.Prelude.{◌≡◌, ◌<◌, ◌≤◌, ℕ};
ghost use Rattle.beet_gates.specs.declared.Gates.TheVariants.{Chain};
ghost use Rattle.beet_bids.specs.Books.{Book, IsBook};
ghost use Rattle.beet_weights.specs.Quadratics.{IsServer};
ghost use Rattle.beet_five_dealing.specs.FiveWords.{CanRun, FiveWords};
ghost use Rattle.beet_five_map.specs.FiveWorlds.{AreTwoBooks};
ghost use Rattle.beet_five_view.specs.JointBooks.{view_at};
ghost use Rattle.beet_headline.specs.FiveStatements.{LookTheSame};

/// Two of five servers cannot tell apart two books that clear alike: for two books over one grid, whose gates are
/// chains, with equal outcomes, as many bidders with the same marks, and the same curves of those that one of the two
/// servers knows, all words with which the auction of the first can be run go with exactly one choice of words of the
/// second, and all words of the second with exactly one choice of the first, and what the two servers see together is
/// the same in both, and its file byte for byte.
pub fn two_of_five_cannot_tell_books_apart()
    ensures second { (a b : ℕ) (first second : Book) (words : FiveWords) → 1 ≤ a → a < b → b ≤ 5 →
        first.grid.gates ≡ Chain → AreTwoBooks a b first second → CanRun first words →
        (words' : FiveWords) × LookTheSame a b first words second words' }
    ensures first { (a b : ℕ) (first second : Book) (words' : FiveWords) → 1 ≤ a → a < b → b ≤ 5 →
        first.grid.gates ≡ Chain → AreTwoBooks a b first second → CanRun second words' →
        (words : FiveWords) × LookTheSame a b first words second words' }
{}

/// Three of the five servers tell every bid, whatever the words: if what each of three sees is the same, so are the
/// books. So two are the most that a bid is hidden from.
pub fn three_of_five_tell_every_bid()
    ensures { (i j k : ℕ) (first second : Book) (words words' : FiveWords) → IsServer i → i < j → j < k → IsServer k →
        IsBook first → IsBook second → CanRun first words → CanRun second words' →
        view_at second words' i ≡ view_at first words i → view_at second words' j ≡ view_at first words j →
        view_at second words' k ≡ view_at first words k → second ≡ first }
{}
