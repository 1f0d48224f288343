//! What holds of the audit's words.
//!
//! There is no code here: the laws are contracts of functions that do nothing.

ghost use Rattle.std.specs.Prelude.{◌≡◌, ◌↔◌, None, Some};
ghost use Rattle.beet_field.specs.Trio.{member, trio_of};
ghost use Rattle.beet_field.specs.declared.point.Point.{Point};
ghost use Rattle.beet_field.specs.declared.trio.Trio.{Trio};
ghost use Rattle.beet_words.specs.Bundles.{Words};
ghost use Rattle.beet_bids.specs.Books.{Book, IsBook};
ghost use Rattle.beet_bids.specs.Grids.{Grid};
ghost use Rattle.beet_load.specs.Wholes.{CanStart};
ghost use Rattle.beet_view.specs.BookViews.{view_for};
ghost use Rattle.beet_view.specs.Views.{IsView, Viewed};
ghost use Rattle.beet_audit.specs.Audits.{Finds, HaveElements, recombined_book};
ghost use Rattle.beet_audit.specs.OneRuns.{OneRun};
ghost use Rattle.beet_audit.specs.declared.fault.AuditFault.{AuditFault as Fault};

/// Nothing is wrong with three views exactly if they are of one run; and the first thing that is wrong is one thing,
/// which is found beside no other.
pub fn nothing_is_wrong_with_one_run()
    ensures right { (grid : Grid) (views : Trio Viewed) → ((s : Point) → IsView (member views s)) →
        HaveElements grid views → Finds grid views None ↔ OneRun grid views }
    ensures wrong { (grid : Grid) (views : Trio Viewed) (fault : Fault) → Finds grid views (Some fault) →
        OneRun grid views → ⊥ }
    ensures first { (grid : Grid) (views : Trio Viewed) (fault other : Fault) → Finds grid views (Some fault) →
        Finds grid views (Some other) → fault ≡ other }
{}

/// What the three servers see of the auction of a book is of one run, and its points recombine to the book.
pub fn the_views_of_a_book_are_of_one_run()
    ensures run { (book : Book) (words : Words) → IsBook book → CanStart book words →
        OneRun book.grid (trio_of (view_for book words)) }
    ensures book { (book : Book) (words : Words) → IsBook book → CanStart book words →
        recombined_book book.grid (trio_of (view_for book words)) ≡ book }
{}
