//! What two of five servers can tell of an auction: a law, which is the contract of a function that does nothing.

ghost use Rattle.std.specs.Prelude.{◌≡◌, ◌<◌, ◌≤◌, ℕ};
ghost use Rattle.beet_gates.specs.declared.Gates.TheVariants.{Chain};
ghost use Rattle.beet_bids.specs.Books.{Book};
ghost use Rattle.beet_five_dealing.specs.FiveWords.{FiveWords};
ghost use Rattle.beet_five_map.specs.FiveWorlds.{AreOnePair, AreTwoBooks};
ghost use Rattle.beet_five_view.specs.JointBooks.{joint_transcript, joint_view_of};

/// With words of two books that go with each other, what two of five servers see together is the same in both worlds,
/// and its file has the same bytes. The gates of the books' grid are chains, as five servers ask.
pub fn joint_transcripts_are_equal()
    ensures views { (a b : ℕ) (first second : Book) (words words' : FiveWords) → 1 ≤ a → a < b → b ≤ 5 →
        first.grid.gates ≡ Chain → AreTwoBooks a b first second → AreOnePair a b first words second words' →
        joint_view_of a b second words' ≡ joint_view_of a b first words }
    ensures bytes { (a b : ℕ) (first second : Book) (words words' : FiveWords) → 1 ≤ a → a < b → b ≤ 5 →
        first.grid.gates ≡ Chain → AreTwoBooks a b first second → AreOnePair a b first words second words' →
        joint_transcript a b second words' ≡ joint_transcript a b first words }
{}
