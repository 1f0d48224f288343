//! What two of the three views of a run tell of the third, as laws: functions that do nothing, whose contracts say it.
#![tactic(auto)]

ghost use Rattle.std.specs.Prelude.{◌↔◌};
ghost use Rattle.beet_field.specs.Trio.{member, trio_of};
ghost use Rattle.beet_field.specs.declared.point.Point.{Point};
ghost use Rattle.beet_field.specs.declared.trio.Trio.{Trio};
ghost use Rattle.beet_words.specs.Bundles.{Words, AreWords};
ghost use Rattle.beet_bids.specs.Books.{Book, IsBook};
ghost use Rattle.beet_bids.specs.Grids.{Grid};
ghost use Rattle.beet_load.specs.Wholes.{CanStart};
ghost use Rattle.beet_view.specs.BookViews.{view_for};
ghost use Rattle.beet_view.specs.Views.{Viewed};
ghost use Rattle.beet_audit.specs.OneRuns.{OneRun};
ghost use Rattle.beet_audit_laws.specs.InUse.{AreViews, SameAmong, SameButAt};

/// Two views settle the third, in all that the run uses, and in nothing else. If the view of one server is changed,
/// the three are still of one run exactly if it tells the same bidders with their marks and points, the same rounds
/// with both messages in each, the same words that the server deals in the run, and the same numbers that it draws; of
/// a bidder that it knows the same curve, and words that deal the same points; and enough words. So it is of what the
/// servers see of the auction of a book.
///
/// The words behind those that are used may be any, and a word of all ones may stand anywhere among those of which
/// numbers are drawn, since it is passed over.
pub fn two_views_settle_the_third()
    ensures any { (grid : Grid) (views others : Trio Viewed) (s : Point) → AreViews views → AreViews others →
        OneRun grid views → SameButAt s views others → OneRun grid others ↔ SameAmong grid views s (member others s) }
    ensures book { (book : Book) (words : Words) (views : Trio Viewed) (s : Point) → IsBook book → CanStart book words →
        AreWords words → AreViews views → SameButAt s (trio_of (view_for book words)) views →
        OneRun book.grid views ↔ SameAmong book.grid (trio_of (view_for book words)) s (member views s) }
{}

/// Views that are the same as three of one run, in all that the run uses, are of one run too.
pub fn what_a_run_does_not_use_is_free()
    ensures { (grid : Grid) (views others : Trio Viewed) → OneRun grid views →
        ((s : Point) → SameAmong grid views s (member others s)) → OneRun grid others }
{}
