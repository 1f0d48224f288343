//! What shows that the laws of `beet_headline` bite.

ghost use Rattle.std.specs.Prelude.{◌≡◌, ◌≢◌, ◌≤◌, ◌<◌, ◌*◌, ◌↔◌, ℕ, List, [], ◌∷◌, Bool, true, false, Option, Some};
ghost use Rattle.std.specs.Prelude.{slice_get, slice_index};
ghost use Rattle.beet_field.specs.Field.{p};
ghost use Rattle.beet_field.specs.declared.point.Point.{Point};
ghost use Rattle.beet_field.specs.declared.point.Point.TheVariants.{One};
ghost use Rattle.beet_words.specs.Bundles.{Words};
ghost use Rattle.beet_words.specs.Words.{ones_in};
ghost use Rattle.beet_bids.specs.Books.{Book, IsBook};
ghost use Rattle.beet_bids.specs.Curves.{Curve, IsOfGrid, quantity};
ghost use Rattle.beet_bids.specs.Grids.{Grid};
ghost use Rattle.beet_bids.specs.Outcomes.{outcome_of};
ghost use Rattle.beet_bids.specs.declared.book.Bidder.{Bidder};
ghost use Rattle.beet_bids.specs.declared.outcomes.Outcome.{Outcome};
ghost use Rattle.beet_plan.specs.Runs.{finish_of};
ghost use Rattle.beet_masking.specs.Masks.{is_spent};
ghost use Rattle.beet_plan.specs.declared.Finish.{Finish};
ghost use Rattle.beet_plan.specs.declared.Finish.TheVariants.{MasksSpent};
ghost use Rattle.beet_delivery.specs.Events.{Delivered, Triple};
ghost use Rattle.beet_server.specs.Endings.{Ends, Waits, ending_of};
ghost use Rattle.beet_auction.specs.Endings.{book_rounds};
ghost use Rattle.beet_auction.specs.Setups.{setup_for};
ghost use Rattle.beet_sharing.specs.Runs.{HasRounds, Setup};
ghost use Rattle.beet_two_books.specs.Agreement.{Agree};
ghost use Rattle.beet_auction_map.specs.MappedWords.{Mapped};
ghost use Rattle.beet_auction_map.specs.ViewsWith.{transcript_with, view_with};
ghost use Rattle.beet_farmer.specs.Sealing.{envelope_for, sealed_envelope};
ghost use Rattle.beet_headline.specs.Envelopes.{AreTwoBids, CanSeal};
ghost use Rattle.beet_counterexamples.specs.Examples.{book_selling};
ghost use Rattle.beet_headline.specs.Statements.{AllDelivered, AreTwoBooks, CanRun, are_spent, standing};
ghost use Rattle.beet_counterexamples.specs.Places.{MappedWithoutPlaces};
ghost use Rattle.beet_counterexamples.specs.Transcribed.{CanStand};
ghost use Rattle.beet_counterexamples.specs.OneServer.{HasAlone, SeesAlone};

/// The finish that a server names tells the outcome, with its price: books over one grid with one finish have one
/// outcome.
pub fn a_finish_tells_the_outcome()
    ensures { (one other : Book) → other.grid ≡ one.grid →
        finish_of (outcome_of other) ≡ finish_of (outcome_of one) → outcome_of other ≡ outcome_of one }
{}

/// A test that tells of an auction whether its masks are spent is that of the headline, and so is a number of rounds,
/// and if the masks are spent no server has opened an outcome.
pub fn no_other_count_or_rounds()
    ensures count { (book : Book) (words : Words) (test : Bool) → IsBook book → CanRun book words →
        ((es : List Triple) (s : Point) → AllDelivered book words es →
        (standing book words es s ≡ Ends (Some MasksSpent)) ↔ (test ≡ true)) → test ≡ are_spent book words }
    ensures none { (book : Book) (words : Words) (es : List Triple) (s : Point) (outcome : Outcome) → IsBook book →
        CanRun book words → are_spent book words ≡ true → standing book words es s ≢ Ends (Some (finish_of outcome)) }
    ensures rounds { (book : Book) (words : Words) (rounds : ℕ) → IsBook book → CanRun book words →
        HasRounds (setup_for book words) rounds → rounds ≡ book_rounds book words.masks }
{}

/// Whatever two servers were given, if both have ended they have ended alike, by the definition of an end, in any run.
/// So it is the cores that bring the order of the messages into the statement of all ends.
pub fn all_ends_are_alike_by_definition()
    ensures { (named : List ℕ → Option Finish) (o : Setup) (rounds : ℕ) (x y : Delivered) (s t : Point)
        (one other : Option Finish) → ending_of named o rounds x s ≡ Ends one →
        ending_of named o rounds y t ≡ Ends other →
        one ≡ other }
{}

/// A search with one comparison is spent by three rejected masks and not by two, and wants no fourth mask, as one with
/// two comparisons does.
pub fn three_rejected_masks_spend()
    ensures two { is_spent (slice_index (p ∷ p ∷ 0 ∷ [])) 1 ≡ false }
    ensures three { is_spent (slice_index (p ∷ p ∷ p ∷ [])) 1 ≡ true }
    ensures fourth { is_spent (slice_index (p ∷ p ∷ 0 ∷ p ∷ [])) 1 ≡ false }
    ensures two_comparisons { is_spent (slice_index (p ∷ p ∷ 0 ∷ p ∷ [])) 2 ≡ true }
{}

/// If no server waits, all is delivered: that all have ended is false of events that leave a message undelivered,
/// and of no events if there is a round.
pub fn with_a_message_undelivered_some_server_waits()
    ensures start { (book : Book) (words : Words) (s : Point) → IsBook book → CanRun book words →
        1 ≤ book_rounds book words.masks → standing book words [] s ≡ Waits 0 }
    ensures waits { (book : Book) (words : Words) (es : List Triple) → IsBook book → CanRun book words →
        ((s : Point) (round : ℕ) → standing book words es s ≢ Waits round) → AllDelivered book words es }
{}

/// Whatever the words, a server sees the same of two auctions, of which the first is not spent, only if their books
/// agree for it, and so it is of the bytes of its transcripts, if the views are within the limits of one.
pub fn only_books_that_agree_look_the_same()
    ensures views { (s : Point) (first second : Book) (words words' : Words) → IsBook first → IsBook second →
        CanRun first words → CanRun second words' → are_spent first words ≡ false →
        view_with second words' s ≡ view_with first words s → Agree s first second }
    ensures transcripts { (s : Point) (first second : Book) (words words' : Words) → IsBook first → IsBook second →
        CanRun first words → CanRun second words' → are_spent first words ≡ false →
        CanStand (view_with first words s) → CanStand (view_with second words' s) →
        transcript_with second words' s ≡ transcript_with first words s → Agree s first second }
{}

/// Without the condition on the words that are all ones, of which there may then be more, mapped words are not the only
/// ones.
pub fn without_places_there_are_other_words()
    ensures { (s : Point) (first second : Book) (words words' : Words) → Mapped s first words second words' →
        (other : Words) × MappedWithoutPlaces s first words second other × (other ≢ words') }
{}

/// Words that are mapped to themselves are of equal bids: with another quantity of a bidder that the server does not
/// know, to leave all words is no such map.
pub fn the_same_words_are_mapped_only_for_the_same_bids()
    ensures { (s : Point) (first second : Book) (words : Words) (k n : ℕ) (one other : Bidder) → IsBook first →
        IsBook second → CanRun first words → Agree s first second → Mapped s first words second words →
        slice_get first.bidders k ≡ Some one → slice_get second.bidders k ≡ Some other → n < 2 * first.grid.prices →
        quantity other.curve n ≡ quantity one.curve n }
{}

/// With one word too few for a bidder, no words of the second book are mapped.
pub fn with_a_word_too_few_none_are_mapped()
    ensures { (words words' : Words) → words.bidders ≡ (0 ∷ 0 ∷ 0 ∷ 0 ∷ []) ∷ (0 ∷ 0 ∷ 0 ∷ []) ∷ [] →
        Mapped One (book_selling 5) words (book_selling 7) words' → ⊥ }
{}

/// Without the condition on the words that are all ones, and without that on the words behind the quantities, an
/// envelope is that of more than one choice of words.
pub fn without_conditions_other_words_seal_the_same()
    ensures places { (grid : Grid) (s : Point) (curve : Curve) (words : List ℕ) → CanSeal grid words →
        (other : List ℕ) × CanSeal grid other × (envelope_for grid curve other s ≡ envelope_for grid curve words s)
        × (other ≢ words) }
    ensures rest { (grid : Grid) (s : Point) (curve : Curve) (words : List ℕ) → IsOfGrid grid curve →
        CanSeal grid words →
        (one : List ℕ) × (other : List ℕ) × CanSeal grid one × CanSeal grid other × (ones_in other ≡ ones_in one)
        × (envelope_for grid curve other s ≡ envelope_for grid curve one s) × (other ≢ one) }
{}

/// With the same words for two bids, also one server tells them apart: its envelopes are the same only if the bids
/// are.
pub fn the_same_words_seal_only_the_same_bid()
    ensures { (grid : Grid) (s : Point) (one other : Curve) (words : List ℕ) → AreTwoBids grid one other →
        CanSeal grid words → envelope_for grid other words s ≡ envelope_for grid one words s → other ≡ one }
{}

/// One server is told no bid: with other words it sees the same of another book that agrees for it, and has the same
/// envelope of another bid, as no other server does.
pub fn one_server_is_told_no_bid()
    ensures views { (s : Point) (first second : Book) (words : Words) → AreTwoBooks s first second →
        second ≢ first → CanRun first words → (words' : Words) × SeesAlone s first words second words' }
    ensures envelopes { (grid : Grid) (s : Point) (one other : Curve) (words : List ℕ) → AreTwoBids grid one other →
        other ≢ one → CanSeal grid words → (words' : List ℕ) × HasAlone grid s one words other words' }
{}

/// With other words the difference of two bids is not told: a server has the same points of both, whatever they are.
pub fn with_other_words_no_difference_is_told()
    ensures { (grid : Grid) (s : Point) (one other : Curve) (words : List ℕ) → AreTwoBids grid one other →
        CanSeal grid words →
        (words' : List ℕ) × CanSeal grid words' × (sealed_envelope other words' s ≡ sealed_envelope one words s) }
{}
