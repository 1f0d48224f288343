//! Laws of two books: contracts of functions that do nothing.

ghost use Rattle.std.specs.Prelude.{◌≡◌, ◌<◌, ◌==◌, ◌^◌, ℕ, List, [], Some, length, slice_index, slice_index_or};
ghost use Rattle.beet_field.specs.declared.point.Point.{Point};
ghost use Rattle.beet_field.specs.declared.trio.Trio.{Trio};
ghost use Rattle.beet_words.specs.Words.{ones};
ghost use Rattle.beet_gates.specs.Opened.{OpenAlike, OpensAlike};
ghost use Rattle.beet_gates.specs.Plans.{plan_batch};
ghost use Rattle.beet_gates.specs.Scripts.{HasWords};
ghost use Rattle.beet_bids.specs.Books.{Book, IsBook};
ghost use Rattle.beet_bids.specs.Outcomes.{clearing_place, outcome_of};
ghost use Rattle.beet_bids.specs.Sums.{sums_of};
ghost use Rattle.beet_masking.specs.Blocks.{five_blocks};
ghost use Rattle.beet_masking.specs.Compared.{item_compared};
ghost use Rattle.beet_masking.specs.Masks.{AreMasks, dealt_at, mask_among, mask_at};
ghost use Rattle.beet_plan.specs.Auction.{Auction, auction_batch, auction_over, most_masks, most_rounds};
ghost use Rattle.beet_plan.specs.Auction.{most_rounds_with, plan_with};
ghost use Rattle.beet_plan.specs.Runs.{run_rounds};
ghost use Rattle.beet_plan.specs.Search.{path};
ghost use Rattle.beet_turned.specs.MappedMasks.{MasksMapped};
ghost use Rattle.beet_turned.specs.Turn.{turned};
ghost use Rattle.beet_two_books.specs.Agreement.{Agree};
ghost use Rattle.beet_two_books.specs.Losses.{losses_of, lost_at};

/// Mapped mask words leave the rounds of an auction as they are.
pub fn mapped_masks_leave_the_rounds()
    ensures { (s : Point) (losses : List ℕ) (words words' : Trio (List ℕ)) →
        MasksMapped s losses words words' → (auction : Auction) (z : ℕ) →
        run_rounds auction (mask_at words') z ≡ run_rounds auction (mask_at words) z }
{}

/// The runs of two books that agree, the second with mapped mask words, open the same numbers all along.
pub fn agreeing_books_open_alike()
    ensures { (s : Point) (first second : Book) (words words' : Trio (List ℕ)) →
        IsBook first → IsBook second → Agree s first second → AreMasks words →
        HasWords (most_masks (auction_over first.grid)) words → MasksMapped s (losses_of first second) words words' →
        OpensAlike (auction_batch (auction_over first.grid)) (most_rounds (auction_over first.grid))
        (sums_of first) words (sums_of second) words' }
{}

/// If five servers deal words, the runs of two books over one grid that clear alike open the same numbers all along,
/// if the same masks are all ones, and each that is compared at a place is turned by what twice the difference there is
/// more in the first book.
pub fn books_open_alike_among_five()
    ensures { (first second : Book) (words words' : List (List ℕ)) → IsBook first → IsBook second →
        second.grid ≡ first.grid → outcome_of second ≡ outcome_of first → length words ≡ 5 → length words' ≡ 5 →
        ((k i : ℕ) → slice_index (slice_index_or words k []) i < 2 ^ 61) →
        ((k i : ℕ) → slice_index (slice_index_or words' k []) i < 2 ^ 61) →
        ((i : ℕ) → (mask_among words' i == ones) ≡ (mask_among words i == ones)) →
        ((i place : ℕ) →
        item_compared (path first.grid.prices (clearing_place first)) (mask_among words) i ≡ Some place →
        mask_among words' i ≡ turned (mask_among words i) (lost_at first second place)) →
        OpenAlike (plan_batch (plan_with five_blocks first.grid.policy first.grid.prices))
        (most_rounds_with five_blocks first.grid.prices) (sums_of first) (dealt_at words) (sums_of second)
        (dealt_at words') }
{}
