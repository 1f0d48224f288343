//! What holds of the numbers of two worlds of a script among servers, some of which put together what they see.
//!
//! There is no code here: the laws are contracts of functions that do nothing.
#![tactic(auto)]

ghost use Rattle.std.specs.Prelude.{◌≡◌, ◌<◌, ◌≤◌, ℕ, List, [], ◌∷◌, length, map, slice_index, bit_xor, ◌+◌, true, ◌*◌};
ghost use Rattle.beet_gates.specs.Clear.{EndsAfter};
ghost use Rattle.beet_gates.specs.declared.Batch.{Batch};
ghost use Rattle.beet_coalition.specs.Coalitions.{moved_of};
ghost use Rattle.beet_coalition.specs.Examples.{product_points, product_setup, sends};
ghost use Rattle.beet_linear_sharing.specs.Runs.{deals_among, shared_at};
ghost use Rattle.beet_mask.specs.Mask.{bits_of, xor_of};
ghost use Rattle.beet_linear_sharing.specs.Sharings.{IsAmong};
ghost use Rattle.beet_coalition.specs.Lists.{at_server, with_item};
ghost use Rattle.beet_coalition.specs.Premise.{MayMap, Secrets, begin_in};
ghost use Rattle.beet_coalition.specs.Pairs.{AreElements, GoTogether, HasNumbers};
ghost use Rattle.beet_field.specs.Field.{IsElement};
ghost use Rattle.beet_words.specs.Words.{IsWord, accepted};
ghost use Rattle.beet_coalition.specs.Moved.{WordsMoved, hiding};
ghost use Rattle.beet_coalition.specs.Words.{AreWords, SameWords, WordsTogether, run_with};
ghost use Rattle.beet_linear_sharing.specs.Schemes.{five_servers};
ghost use Rattle.beet_coalition.specs.Watchers.{two_watch};

/// The same of words: of each server those that are all ones stand at the same places in both worlds, and the accepted
/// ones are mapped.
pub fn words_are_mapped_one_to_one()
    ensures image { (a b : ℕ) → 1 ≤ a → a < b → b ≤ 5 → (next : ℕ → List ℕ → Batch) (rounds : ℕ) (w w' : Secrets) →
        MayMap five_servers (two_watch a b) next rounds w w' →
        EndsAfter next (deals_among five_servers w.masks) w.values rounds →
        (words : ℕ → List ℕ) → AreWords five_servers words → HasNumbers five_servers rounds (run_with next w words) →
        (words' : ℕ → List ℕ) × AreWords five_servers words'
        × WordsTogether five_servers (two_watch a b) next rounds w w' words words' }
    ensures source { (a b : ℕ) → 1 ≤ a → a < b → b ≤ 5 → (next : ℕ → List ℕ → Batch) (rounds : ℕ) (w w' : Secrets) →
        MayMap five_servers (two_watch a b) next rounds w w' →
        EndsAfter next (deals_among five_servers w.masks) w.values rounds →
        (words' : ℕ → List ℕ) → AreWords five_servers words' →
        HasNumbers five_servers rounds (run_with next w' words') →
        (words : ℕ → List ℕ) × AreWords five_servers words
        × WordsTogether five_servers (two_watch a b) next rounds w w' words words' }
{}

/// In two worlds of a script that two servers of five cannot tell apart by their points of the inputs, their words and
/// what is opened, all numbers of the first go with exactly one choice of those of the second, which shows the two the
/// same; and all of the second go with exactly one choice of the first.
pub fn numbers_are_mapped_one_to_one()
    ensures image { (a b : ℕ) → 1 ≤ a → a < b → b ≤ 5 → (next : ℕ → List ℕ → Batch) (rounds : ℕ) (w w' : Secrets) →
        MayMap five_servers (two_watch a b) next rounds w w' →
        EndsAfter next (deals_among five_servers w.masks) w.values rounds →
        (d : ℕ → List ℕ) → AreElements five_servers d → HasNumbers five_servers rounds (begin_in next w d) →
        (e : ℕ → List ℕ) × AreElements five_servers e × GoTogether five_servers (two_watch a b) next rounds w w' d e }
    ensures source { (a b : ℕ) → 1 ≤ a → a < b → b ≤ 5 → (next : ℕ → List ℕ → Batch) (rounds : ℕ) (w w' : Secrets) →
        MayMap five_servers (two_watch a b) next rounds w w' →
        EndsAfter next (deals_among five_servers w.masks) w.values rounds →
        (e : ℕ → List ℕ) → AreElements five_servers e → HasNumbers five_servers rounds (begin_in next w' e) →
        (d : ℕ → List ℕ) × AreElements five_servers d × GoTogether five_servers (two_watch a b) next rounds w w' d e }
{}

/// The product of 3 and 4 among five servers: what the first and the last send, the new points, and the opened number.
/// If 3 and 4 are 2 and 6 in another world, which servers 2 and 5 cannot tell, the local product of server 1 is
/// another, and its numbers move so that it sends servers 2 and 5 the same.
pub fn five_product_example()
    ensures from_one { sends 1 ≡ (84 ∷ []) ∷ (91 ∷ []) ∷ (102 ∷ []) ∷ (117 ∷ []) ∷ (136 ∷ []) ∷ [] }
    ensures from_five { sends 5 ≡ (4736 ∷ []) ∷ (4775 ∷ []) ∷ (4834 ∷ []) ∷ (4913 ∷ []) ∷ (5012 ∷ []) ∷ [] }
    ensures points { product_points ≡ 11 ∷ 10 ∷ 9 ∷ 8 ∷ 7 ∷ [] }
    ensures opened { (shared_at five_servers product_setup 2).opened ≡ 12 ∷ [] }
    ensures rho { moved_of (two_watch 2 5) 0 1 81 1660206966633859729 ≡ 221360928884514618 }
    ensures sigma { moved_of (two_watch 2 5) 1 2 81 1660206966633859729 ≡ 627189298506124757 }
    ensures to_two { five_servers.share 1660206966633859729
        (λ n. moved_of (two_watch 2 5) n (n + 1) 81 1660206966633859729) 2 ≡ 91 }
    ensures to_five { five_servers.share 1660206966633859729
        (λ n. moved_of (two_watch 2 5) n (n + 1) 81 1660206966633859729) 5 ≡ 136 }
{}

/// Lists of five that are the same at each server are the same, and a deal appends the bits of the words at its place,
/// server by server.
pub fn servers_tell_their_lists()
    ensures lists { (d e : List (List ℕ)) → length d ≡ 5 → length e ≡ 5 →
        SameWords five_servers (at_server e) (at_server d) → e ≡ d }
    ensures deals { (words : List (List ℕ)) → length words ≡ 5 → (n : ℕ) →
        deals_among five_servers (at_server words) n ≡ bits_of (map (λ list. slice_index list n) words) }
{}

/// If the exclusive or of words is taken out of one of them and another is put in, the exclusive or is that one.
pub fn a_word_tells_the_mask()
    ensures { (words : List ℕ) (place mask : ℕ) → place < length words →
        xor_of (with_item words place (bit_xor (bit_xor (slice_index words place) (xor_of words)) mask)) ≡ mask }
{}

/// Words whose numbers hide so many numbers one after another, as a bidder's, go one to one with those of a second
/// world, both ways; both are there, and two servers that watch hold the same points of each number.
pub fn moved_words_go_one_to_one()
    ensures only { (a b : ℕ) → 1 ≤ a → a < b → b ≤ 5 → (count : ℕ) (value other : ℕ → ℕ) (words d e : List ℕ) →
        WordsMoved five_servers (two_watch a b) count value other words d →
        WordsMoved five_servers (two_watch a b) count value other words e → e ≡ d }
    ensures back { (a b : ℕ) → 1 ≤ a → a < b → b ≤ 5 → (count : ℕ) (value other : ℕ → ℕ) (words words' : List ℕ) →
        ((k : ℕ) → IsWord (slice_index words k)) → ((n : ℕ) → IsElement (value n)) → ((n : ℕ) → IsElement (other n)) →
        WordsMoved five_servers (two_watch a b) count value other words words' →
        WordsMoved five_servers (two_watch a b) count other value words' words }
    ensures image { (a b : ℕ) → 1 ≤ a → a < b → b ≤ 5 → (count : ℕ) (value other : ℕ → ℕ) (words : List ℕ) →
        ((k : ℕ) → IsWord (slice_index words k)) → 2 * count ≤ length (accepted words) →
        (words' : List ℕ) × ((k : ℕ) → IsWord (slice_index words' k))
        × WordsMoved five_servers (two_watch a b) count value other words words' }
    ensures points { (a b : ℕ) → 1 ≤ a → a < b → b ≤ 5 → (count : ℕ) (value other : ℕ → ℕ) (words words' : List ℕ) →
        ((n : ℕ) → IsElement (other n)) → WordsMoved five_servers (two_watch a b) count value other words words' →
        (n s : ℕ) → n < count → IsAmong five_servers.servers s → (two_watch a b).watches s ≡ true →
        five_servers.share (other n) (hiding five_servers words' n) s
        ≡ five_servers.share (value n) (hiding five_servers words n) s }
{}
