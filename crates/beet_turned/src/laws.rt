//! Laws of turned masks: contracts of functions that do nothing.

ghost use Rattle.std.specs.Prelude.{◌≡◌, ◌≢◌, ◌<◌, ◌==◌, ℕ, List, All, length, map};
ghost use Rattle.beet_field.specs.Field.{IsElement, add_of, sub_of, neg_of};
ghost use Rattle.beet_field.specs.Trio.{member};
ghost use Rattle.beet_field.specs.declared.point.Point.{Point};
ghost use Rattle.beet_field.specs.declared.trio.Trio.{Trio};
ghost use Rattle.beet_words.specs.Words.{IsWord, ones};
ghost use Rattle.beet_masking.specs.Masks.{AreMasks, mask_at, rejected_among, accepted_among, is_spent};
ghost use Rattle.beet_round.specs.Sides.{peer};
ghost use Rattle.beet_round.specs.declared.sides.Side.TheVariants.{Low};
ghost use Rattle.beet_turned.specs.MappedMasks.{MasksMapped, loss_in, mask_mapped};
ghost use Rattle.beet_turned.specs.Turn.{turned};

/// A turned mask is turned back by what takes the number off again, a mask is all ones exactly if the turned one is,
/// and under an accepted mask the number that has lost as much shows the same sum.
pub fn turned_masks()
    ensures back { (r d : ℕ) → IsWord r → IsElement d → turned (turned r d) (neg_of d) ≡ r }
    ensures all_ones { (r d : ℕ) → (turned r d == ones) ≡ (r == ones) }
    ensures shows { (r y z : ℕ) → r ≢ ones → IsElement y → IsElement z →
        add_of z (turned r (sub_of y z)) ≡ add_of y r }
{}

/// Of mapped mask words those of the server itself are the same. The exclusive ors are the turned masks if they are
/// compared, and words again. The same masks are all ones, so that the same are rejected and accepted, and the runs are
/// spent alike.
pub fn mapped_masks_count_alike()
    ensures own { (s : Point) (losses : List ℕ) (words words' : Trio (List ℕ)) →
        MasksMapped s losses words words' → member words' s ≡ member words s }
    ensures turns { (s : Point) (losses : List ℕ) (words words' : Trio (List ℕ)) →
        MasksMapped s losses words words' → (i : ℕ) → i < length (member words (peer s Low)) →
        mask_at words' i ≡ mask_mapped (mask_at words i) (loss_in losses words i) }
    ensures are_words { (s : Point) (losses : List ℕ) (words words' : Trio (List ℕ)) →
        MasksMapped s losses words words' → AreMasks words → AreMasks words' }
    ensures rejected { (s : Point) (losses : List ℕ) (words words' : Trio (List ℕ)) →
        MasksMapped s losses words words' → (n : ℕ) →
        rejected_among (mask_at words') n ≡ rejected_among (mask_at words) n }
    ensures accepted { (s : Point) (losses : List ℕ) (words words' : Trio (List ℕ)) →
        MasksMapped s losses words words' → (n : ℕ) →
        accepted_among (mask_at words') n ≡ accepted_among (mask_at words) n }
    ensures spent { (s : Point) (losses : List ℕ) (words words' : Trio (List ℕ)) →
        MasksMapped s losses words words' → (c : ℕ) →
        is_spent (mask_at words') c ≡ is_spent (mask_at words) c }
{}

/// Masks are mapped to no other words than these, and no other words are mapped to them: they are mapped back by what
/// takes the losses off again.
pub fn mapped_masks_map_back()
    ensures back { (s : Point) (losses : List ℕ) (words words' : Trio (List ℕ)) → All IsElement losses →
        AreMasks words → MasksMapped s losses words words' → MasksMapped s (map neg_of losses) words' words }
    ensures only { (s : Point) (losses : List ℕ) (words u v : Trio (List ℕ)) →
        MasksMapped s losses words u → MasksMapped s losses words v → u ≡ v }
    ensures sources { (s : Point) (losses : List ℕ) (words u v : Trio (List ℕ)) → All IsElement losses →
        AreMasks u → AreMasks v → MasksMapped s losses u words → MasksMapped s losses v words → u ≡ v }
{}
