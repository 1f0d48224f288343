//! What holds of the views of a run that is kept whole.
//!
//! There is no code here: the law is the contract of a function that does nothing.

ghost use Rattle.std.specs.Prelude.{◌≡◌, ◌≤◌, ◌*◌, length, Ok};
ghost use Rattle.beet_field.specs.declared.point.Point.{Point};
ghost use Rattle.beet_words.specs.Bundles.{Words, AreWords};
ghost use Rattle.beet_bids.specs.Books.{Book, IsBook};
ghost use Rattle.beet_bids.specs.Grids.{IsGrid};
ghost use Rattle.beet_load.specs.Wholes.{CanStart};
ghost use Rattle.beet_view.specs.Transcripts.{FitsFile, view_bytes, view_in};
ghost use Rattle.beet_view.specs.BookViews.{view_for};
ghost use Rattle.beet_book.specs.declared.book_file.TheConstants.{MOST_PRODUCT};
ghost use Rattle.beet_forms.specs.declared.faults.TheConstants.{LONGEST_FILE};

/// What each server sees of an auction that is read whole is within the limits of a transcript. Its transcript is no
/// longer than a reader takes, and is read as what the server saw.
pub fn recorded_views_are_read_again()
    ensures fits { (book : Book) (words : Words) (s : Point) → IsGrid book.grid → IsBook book → CanStart book words →
        length book.bidders * book.grid.prices ≤ MOST_PRODUCT → FitsFile (view_for book words s) }
    ensures short { (book : Book) (words : Words) (s : Point) → IsGrid book.grid → IsBook book → CanStart book words →
        length book.bidders * book.grid.prices ≤ MOST_PRODUCT →
        length (view_bytes (view_for book words s)) ≤ LONGEST_FILE }
    ensures again { (book : Book) (words : Words) (s : Point) → IsGrid book.grid → IsBook book → CanStart book words →
        length book.bidders * book.grid.prices ≤ MOST_PRODUCT → AreWords words →
        view_in (view_bytes (view_for book words s)) ≡ Ok (view_for book words s) }
{}
