//! What the auction's script finds on plain values.

ghost use Rattle.std.specs.Prelude.{◌≡◌, ◌<◌, ◌+◌, ◌*◌, ◌^◌, ℕ, List, [], length, slice_index, slice_index_or, All};
ghost use Rattle.beet_field.specs.Field.{IsElement};
ghost use Rattle.beet_field.specs.declared.trio.Trio.{Trio};
ghost use Rattle.beet_bids.specs.Books.{Book, IsBook};
ghost use Rattle.beet_bids.specs.Outcomes.{clearing_place, outcome_of};
ghost use Rattle.beet_plan.specs.Auction.{Auction, auction_over};
ghost use Rattle.beet_masking.specs.Masks.{AreMasks};
ghost use Rattle.beet_plan.specs.Runs.{EndsWith, RunEnds, found, finish_of, place_of_inputs, place_over};
ghost use Rattle.beet_masking.specs.Blocks.{five_blocks};
ghost use Rattle.beet_masking.specs.Masks.{dealt_at, mask_among};
ghost use Rattle.beet_bids.specs.declared.outcomes.Policy.{Policy};
ghost use Rattle.beet_bids.specs.Sums.{sums_of};

/// A run on any inputs ends at a place with what the policy shows there, or spent exactly if the third rejected mask
/// comes first. The place is the end of the search that asks whether twice the difference of supply and demand is even.
/// The rounds of the run are counted by the path to that place and the masks.
pub fn auction_law()
    ensures { (auction : Auction) (inputs : List ℕ) (words : Trio (List ℕ)) →
        length inputs ≡ 2 * auction.prices → All IsElement inputs → AreMasks words →
        RunEnds auction inputs words (place_of_inputs auction inputs)
        (found auction.policy auction.prices (slice_index inputs) (λ k. slice_index inputs (auction.prices + k))
        (place_of_inputs auction inputs)) }
{}

/// A run on the sums of a book ends with the outcome of the book, or spent exactly if at least three of the first
/// masks that it may want are rejected. Its rounds are counted by the path to the clearing place and the masks.
pub fn book_law()
    ensures { (book : Book) (words : Trio (List ℕ)) → IsBook book → AreMasks words →
        RunEnds (auction_over book.grid) (sums_of book) words (clearing_place book) (finish_of (outcome_of book)) }
{}

/// If five servers deal words, a run on any inputs with chain gates ends so too; the i-th mask is the exclusive or
/// of the five i-th words, and a mask takes 66 rounds.
pub fn five_law()
    ensures ends { (policy : Policy) (prices : ℕ) (inputs : List ℕ) (words : List (List ℕ)) →
        length inputs ≡ 2 * prices → All IsElement inputs → length words ≡ 5 →
        ((k i : ℕ) → slice_index (slice_index_or words k []) i < 2 ^ 61) →
        EndsWith five_blocks policy prices inputs (dealt_at words) (mask_among words) (place_over prices inputs)
        (found policy prices (slice_index inputs) (λ k. slice_index inputs (prices + k)) (place_over prices inputs)) }
    ensures rounds { five_blocks.mask_rounds ≡ 66 }
    ensures wires { five_blocks.mask_wires ≡ 853 }
{}
