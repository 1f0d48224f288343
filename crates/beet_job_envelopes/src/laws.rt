//! What is opened of envelopes that were sealed.
//!
//! There is no code here: the laws are contracts of functions that do nothing.

ghost use Rattle.std.specs.Prelude.{◌≡◌, ◌≤◌, ℕ, List, [], length, map, Ok};
ghost use Rattle.beet_field.specs.declared.point.Point.{Point};
ghost use Rattle.beet_field.specs.declared.trio.Trio.{Trio};
ghost use Rattle.beet_store.specs.Files.{File};
ghost use Rattle.beet_words.specs.Words.{accepted};
ghost use Rattle.beet_bids.specs.Books.{IsBook};
ghost use Rattle.beet_bids.specs.Curves.{Curve, IsOfGrid};
ghost use Rattle.beet_bids.specs.Grids.{Grid, IsGrid};
ghost use Rattle.beet_farmer.specs.Envelopes.{envelope_bytes, envelope_of};
ghost use Rattle.beet_farmer.specs.declared.list_file.ListEntry.{ListEntry};
ghost use Rattle.beet_errand.specs.Overs.{ReadsTo};
ghost use Rattle.beet_auction.specs.Endings.{book_finish, book_rounds};
ghost use Rattle.beet_book.specs.Farmers.{BidderWithWords, book_inputs, book_with};
ghost use Rattle.beet_load.specs.Counts.{words_wanted};
ghost use Rattle.beet_load.specs.Servers.{ServerWords, masks_of};
ghost use Rattle.beet_run.specs.Outcomes.{outcome_answer};
ghost use Rattle.beet_gathering.specs.Gather.{bidders_errand};
ghost use Rattle.beet_book.specs.PointSums.{inputs_at};
ghost use Rattle.beet_gathering.specs.Opened.{opened_answer};
ghost use Rattle.beet_farmer.specs.Sealing.{sealed_envelope};
ghost use Rattle.beet_job_envelopes.specs.SealedBooks.{HaveWords, HoldEachSealed, sealed_points};
ghost use Rattle.beet_farmer.specs.declared.envelope.TheConstants.{ENVELOPE_LIMIT};

/// If each bidder's envelopes are those that `seal` makes of its curve and its words, the servers begin with the
/// inputs of the book of these curves, and the answer of `open` is the outcome of that book.
pub fn sealed_books_open_their_outcome()
    // What is sealed is read again.
    ensures envelopes { (grid : Grid) (curve : Curve) (words : List ℕ) (s : Point) →
        IsGrid grid → IsOfGrid grid curve → words_wanted grid ≤ length (accepted words) →
        envelope_of grid s (envelope_bytes grid (sealed_envelope curve words s))
        ≡ Ok (sealed_envelope curve words s) }

    // Its file is within the limit of an envelope file.
    ensures size { (grid : Grid) (curve : Curve) (words : List ℕ) (s : Point) →
        IsGrid grid → IsOfGrid grid curve → words_wanted grid ≤ length (accepted words) →
        length (envelope_bytes grid (sealed_envelope curve words s)) ≤ ENVELOPE_LIMIT }

    // If the files of each entry of a list hold the envelopes of a farmer, the errand of the bidders of the list gives
    // the points that the farmers sealed.
    ensures files { (files : List File) (grid : Grid) (entries : List ListEntry) (farmers : List BidderWithWords) →
        IsGrid grid → IsBook (book_with grid farmers) → HaveWords grid farmers →
        HoldEachSealed files grid entries farmers →
        ReadsTo files (bidders_errand grid [] entries) (map sealed_points farmers) }

    ensures inputs { (grid : Grid) (farmers : List BidderWithWords) →
        IsBook (book_with grid farmers) → HaveWords grid farmers →
        inputs_at grid.prices (map sealed_points farmers) ≡ book_inputs grid.prices farmers }

    ensures outcome { (grid : Grid) (farmers : List BidderWithWords) (servers : Trio ServerWords) →
        IsBook (book_with grid farmers) → HaveWords grid farmers →
        opened_answer grid servers (map sealed_points farmers)
        ≡ outcome_answer grid (book_finish (book_with grid farmers) (masks_of servers))
        (book_rounds (book_with grid farmers) (masks_of servers)) }
{}
