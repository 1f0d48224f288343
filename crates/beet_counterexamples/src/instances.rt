//! Instances that meet the premises of the statements.

ghost use Rattle.std.specs.Prelude.{◌≡◌, ◌≢◌, ℕ, List, [], ◌∷◌, Some, None};
ghost use Rattle.beet_field.specs.declared.point.Point.TheVariants.{One};
ghost use Rattle.beet_words.specs.Bundles.{Words};
ghost use Rattle.beet_bids.specs.Books.{IsBook};
ghost use Rattle.beet_bids.specs.Outcomes.{outcome_of};
ghost use Rattle.beet_bids.specs.declared.outcomes.Outcome.TheVariants.{No, Price};
ghost use Rattle.beet_view.specs.declared.view.Seen.{Seen};
ghost use Rattle.beet_auction_map.specs.ViewsWith.{transcript_with};
ghost use Rattle.beet_headline.specs.Envelopes.{AreTwoBids, CanSeal};
ghost use Rattle.beet_headline.specs.Statements.{AllShow, AreChoices, AreTwoBooks, CanRun, IsSeen};
ghost use Rattle.beet_counterexamples.specs.Examples.{book_selling, buyer, seller_of, two_prices};

/// Books with bids of 5 and of 7 agree for server 1 and are not the same, and one with a bid of 4 has no price and does
/// not agree.
pub fn different_books_agree()
    ensures five { outcome_of (book_selling 5) ≡ Price 1 110 (Some 5) None }
    ensures seven { outcome_of (book_selling 7) ≡ Price 1 110 (Some 5) None }
    ensures four { outcome_of (book_selling 4) ≡ No }
    ensures agree { AreTwoBooks One (book_selling 5) (book_selling 7) }
    ensures different { book_selling 5 ≢ book_selling 7 }
    ensures apart { AreTwoBooks One (book_selling 5) (book_selling 4) → ⊥ }
{}

/// There are a book, words, choices, two different bids and a bidder that is seen, as the statements suppose them.
pub fn the_premises_of_the_statements_are_met()
    ensures book { IsBook (book_selling 5) }
    ensures words { (words : Words) × CanRun (book_selling 5) words }
    ensures choices { (words : Words) → CanRun (book_selling 5) words →
        AreChoices (book_selling 5) (words ∷ [])
        × AllShow One (book_selling 5) (transcript_with (book_selling 5) words One) (words ∷ []) }
    ensures bids { AreTwoBids two_prices (seller_of 5).curve (seller_of 7).curve }
    ensures different { (seller_of 7).curve ≢ (seller_of 5).curve }
    ensures seals { CanSeal two_prices (0 ∷ 0 ∷ 0 ∷ 0 ∷ []) }
    ensures seen { (words : Words) → CanRun (book_selling 5) words →
        (list : List ℕ) × (seen : Seen) × IsSeen One (book_selling 5) words 0 buyer list seen }
{}
