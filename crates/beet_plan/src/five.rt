//! How the auction's script among five servers, with chain gates, ends on plain values.

ghost use Rattle.std.specs.Prelude.{◌≡◌, ◌<◌, ◌*◌, ◌^◌, ℕ, List, [], length, slice_index, slice_index_or};
ghost use Rattle.beet_bids.specs.Books.{Book, IsBook};
ghost use Rattle.beet_bids.specs.Outcomes.{clearing_place, outcome_of};
ghost use Rattle.beet_bids.specs.Sums.{sums_of};
ghost use Rattle.beet_masking.specs.Blocks.{five_blocks};
ghost use Rattle.beet_masking.specs.Masks.{dealt_at, mask_among};
ghost use Rattle.beet_bids.specs.declared.outcomes.Policy.{Policy};
ghost use Rattle.beet_plan.specs.Runs.{EndsWith, finish_of, run_rounds_with};

/// A run on the sums of a book, among five servers who deal these words, ends with the outcome of the book, or spent
/// exactly if at least three of the first masks that it may want are rejected; the i-th mask is the exclusive or of the
/// five i-th words. Its rounds are counted by the path to the clearing place and the masks.
pub fn five_book_law()
    ensures { (book : Book) (words : List (List ℕ)) → IsBook book → length words ≡ 5 →
        ((k i : ℕ) → slice_index (slice_index_or words k []) i < 2 ^ 61) →
        EndsWith five_blocks book.grid.policy book.grid.prices (sums_of book) (dealt_at words) (mask_among words)
        (clearing_place book) (finish_of (outcome_of book)) }
{}

/// A mask takes 66 rounds and a comparison 63. So a search among four prices that ends at the third after two
/// comparisons, no mask of which is rejected, has 259 rounds if the volume is opened.
pub fn five_rounds_law()
    ensures masks { five_blocks.mask_rounds ≡ 66 }
    ensures comparisons { five_blocks.compare_rounds ≡ 63 }
    ensures example { run_rounds_with five_blocks Policy.Volume 4 (λ i. 0) 2 ≡ 259 }
{}
