//! A law of the differences that two servers tell: the contract of a function that does nothing.

ghost use Rattle.std.specs.Prelude.{◌≡◌, ℕ, Some, None};
ghost use Rattle.beet_bids.specs.Books.{Book};
ghost use Rattle.beet_two_books.specs.Disagreement.{RefusesFor};
ghost use Rattle.beet_two_books.specs.declared.agreeing.MapFault.{MapFault};
ghost use Rattle.beet_five_map.specs.FiveWorlds.{Agree, watching};
ghost use Rattle.beet_job_five_worlds.specs.Ending.{difference_for_two};

/// There is no difference to tell between books that agree for two servers. Of others the one that is told is the first
/// thing that tells them apart.
pub fn differences_for_two_are_told()
    ensures none { (a b : ℕ) (first second : Book) → Agree a b first second →
        difference_for_two a b first second ≡ None }
    ensures told { (a b : ℕ) (first second : Book) (fault : MapFault) →
        RefusesFor (watching a b) first second fault → difference_for_two a b first second ≡ Some fault }
{}
