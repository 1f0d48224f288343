//! Laws of two worlds of five servers: contracts of functions that do nothing.

ghost use Rattle.std.specs.Prelude.{◌≡◌, ◌<◌, ◌≤◌, ◌==◌, ℕ, List, [], All, length, map, slice_index_or};
ghost use Rattle.beet_field.specs.Field.{IsElement, neg_of};
ghost use Rattle.beet_words.specs.Words.{ones};
ghost use Rattle.beet_bids.specs.Books.{Book};
ghost use Rattle.beet_masking.specs.Masks.{mask_among};
ghost use Rattle.beet_turned.specs.MappedMasks.{mask_mapped};
ghost use Rattle.beet_five_map.specs.FiveMasks.{MasksMapped, loss_among};
ghost use Rattle.beet_five_dealing.specs.FiveWords.{AreFive, CanRun, FiveWords};
ghost use Rattle.beet_five_map.specs.FiveWorlds.{AreOnePair, AreTwoBooks, MappedForTwo};

/// Mapped mask words turn each mask that is compared, and the same masks are all ones. They are the only ones that are
/// mapped, they are there for all mask words of the first world, and they are mapped back by what takes the losses off
/// again.
pub fn masks_are_mapped_one_to_one()
    ensures turns { (l : ℕ) (losses : List ℕ) (words words' : List (List ℕ)) → MasksMapped l losses words words' →
        l < length words → (i : ℕ) → i < length (slice_index_or words l []) →
        mask_among words' i ≡ mask_mapped (mask_among words i) (loss_among losses words i) }
    ensures all_ones { (l : ℕ) (losses : List ℕ) (words words' : List (List ℕ)) → MasksMapped l losses words words' →
        l < length words → (i : ℕ) → (mask_among words' i == ones) ≡ (mask_among words i == ones) }
    ensures only { (l : ℕ) (losses : List ℕ) (words u v : List (List ℕ)) → MasksMapped l losses words u →
        MasksMapped l losses words v → u ≡ v }
    ensures back { (l : ℕ) (losses : List ℕ) (words words' : List (List ℕ)) → All IsElement losses →
        l < length words → AreFive words → MasksMapped l losses words words' →
        MasksMapped l (map neg_of losses) words' words }
    ensures image { (l : ℕ) (losses : List ℕ) (words : List (List ℕ)) → l < length words → AreFive words →
        (words' : List (List ℕ)) × AreFive words' × MasksMapped l losses words words' }
{}

/// Two books agree for two of five servers if they are over one grid, clear alike, and have as many bidders with the
/// same marks, and the same curves of the bidders known to one of the two. Then all words with which the auction of the
/// first can be run go with exactly one choice of words of the second, and all words of the second with exactly one
/// choice of the first. Whatever the words, the two servers together have the same words, hold the same shares of each
/// bidder and the same points, get the same messages and open the same numbers in both worlds. Nothing is said of three
/// servers.
pub fn two_of_five_cannot_tell_books_apart_that_clear_alike()
    ensures second { (a b : ℕ) (first second : Book) (words : FiveWords) → 1 ≤ a → a < b → b ≤ 5 →
        AreTwoBooks a b first second → CanRun first words →
        (words' : FiveWords) × AreOnePair a b first words second words' }
    ensures first { (a b : ℕ) (first second : Book) (words' : FiveWords) → 1 ≤ a → a < b → b ≤ 5 →
        AreTwoBooks a b first second → CanRun second words' →
        (words : FiveWords) × AreOnePair a b first words second words' }
    ensures mapped { (a b : ℕ) (first second : Book) (words words' : FiveWords) → 1 ≤ a → a < b → b ≤ 5 →
        AreTwoBooks a b first second → CanRun first words → MappedForTwo a b first words second words' →
        AreOnePair a b first words second words' }
{}
