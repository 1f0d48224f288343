//! What shows that the laws of five servers bite: two of them are told no bid, and the premises are met.

ghost use Rattle.std.specs.Prelude.{◌≡◌, ◌≢◌, ◌≤◌, ◌<◌, ℕ};
ghost use Rattle.beet_gates.specs.declared.Gates.TheVariants.{Chain};
ghost use Rattle.beet_bids.specs.Books.{Book};
ghost use Rattle.beet_five_dealing.specs.FiveWords.{CanRun, FiveWords};
ghost use Rattle.beet_five_map.specs.FiveWorlds.{AreTwoBooks};
ghost use Rattle.beet_counterexamples.specs.Examples.{book_selling};
ghost use Rattle.beet_counterexamples.specs.TwoOfFive.{SeeAlone};

/// Two of five servers are told no bid: with other words they see the same of another book that agrees for them, as no
/// third server does. So it is of books with bids of 5 and of 7, whichever two they are.
pub fn two_of_five_are_told_no_bid()
    ensures books { (a b : ℕ) (first second : Book) (words : FiveWords) → 1 ≤ a → a < b → b ≤ 5 →
        first.grid.gates ≡ Chain → AreTwoBooks a b first second → second ≢ first → CanRun first words →
        (words' : FiveWords) × SeeAlone a b first words second words' }
    ensures bids { (a b : ℕ) → 1 ≤ a → a < b → b ≤ 5 →
        (words : FiveWords) × (words' : FiveWords) × CanRun (book_selling 5) words
        × SeeAlone a b (book_selling 5) words (book_selling 7) words' }
{}

/// There are words for any book. Books with bids of 5 and of 7 agree for any two servers, those with bids of 5 and of 4
/// for none.
pub fn the_premises_of_five_are_met()
    ensures words { (book : Book) → (words : FiveWords) × CanRun book words }
    ensures agree { (a b : ℕ) → AreTwoBooks a b (book_selling 5) (book_selling 7) }
    ensures apart { (a b : ℕ) → AreTwoBooks a b (book_selling 5) (book_selling 4) → ⊥ }
{}
