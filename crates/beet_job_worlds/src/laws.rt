//! A law of the differences that are told: the contract of a function that does nothing.

ghost use Rattle.std.specs.Prelude.{◌≡◌, Some, None};
ghost use Rattle.beet_field.specs.declared.point.Point.{Point};
ghost use Rattle.beet_bids.specs.Books.{Book};
ghost use Rattle.beet_two_books.specs.Agreement.{Agree};
ghost use Rattle.beet_auction_map.specs.Disagreement.{Refuses};
ghost use Rattle.beet_two_books.specs.declared.agreeing.MapFault.{MapFault};
ghost use Rattle.beet_book_differences.specs.Differences.{difference_between};

/// There is no difference to tell between books that agree for a server. Of others the one that is told is the first
/// thing that tells them apart.
pub fn differences_are_told()
    ensures none { (s : Point) (first second : Book) → Agree s first second →
        difference_between s first second ≡ None }
    ensures told { (s : Point) (first second : Book) (fault : MapFault) → Refuses s first second fault →
        difference_between s first second ≡ Some fault }
{}
