//! What the servers see of sealed bids, as laws: functions that do nothing, whose contracts say it.
#![tactic(auto)]

ghost use Rattle.std.specs.Prelude.{◌≡◌, ◌↔◌, ◌≤◌, ℕ, All, List, None, Ok, Option, Some, length, map};
ghost use Rattle.beet_field.specs.Trio.{trio_of};
ghost use Rattle.beet_field.specs.declared.point.Point.{Point};
ghost use Rattle.beet_field.specs.declared.trio.Trio.{Trio};
ghost use Rattle.beet_bids.specs.Books.{IsBook};
ghost use Rattle.beet_bids.specs.Grids.{Grid};
ghost use Rattle.beet_masking.specs.Masks.{AreMasks};
ghost use Rattle.beet_book.specs.Farmers.{BidderWithWords, book_with};
ghost use Rattle.beet_auction.specs.Endings.{book_finish, book_rounds};
ghost use Rattle.beet_load.specs.Counts.{counts_of};
ghost use Rattle.beet_load.specs.Servers.{HaveEnough, ServerWords, coefficients_of, masks_of};
ghost use Rattle.beet_errand.specs.Errands.{Answer};
ghost use Rattle.beet_run.specs.Outcomes.{outcome_answer};
ghost use Rattle.beet_view.specs.BookViews.{view_of_book};
ghost use Rattle.beet_view.specs.Transcripts.{FitsFile, view_bytes, view_in};
ghost use Rattle.beet_transcripts.specs.RunsOn.{view_of_points};
ghost use Rattle.beet_audit.specs.Audits.{Finds, recombined_book};
ghost use Rattle.beet_audit.specs.OneRuns.{OneRun};
ghost use Rattle.beet_audit.specs.declared.fault.AuditFault.{AuditFault};
ghost use Rattle.beet_gathering.specs.Opened.{opened_answer};
ghost use Rattle.beet_job_audit.specs.Ending.{TellsFinding};
ghost use Rattle.beet_job_envelopes.specs.SealedBooks.{HaveWords, sealed_points};
ghost use Rattle.beet_job_record.specs.Records.{recorded_answer};
ghost use Rattle.beet_job_witness.specs.Witness.{witnessed_answer};
ghost use Rattle.beet_witness_laws.specs.PointAudits.{AnswersPoints, FindsOfPoints, IsOfPoints, views_of_points};
ghost use Rattle.beet_witness_laws.specs.SealedCurves.{AreInEnvelopes, AreSealed, BidCurves, CanBeWitnessed};
ghost use Rattle.beet_forms.specs.declared.faults.TheConstants.{LONGEST_FILE};
ghost use Rattle.beet_words.specs.declared.bundle.TheConstants.{MOST_BIDDERS};

/// What three servers see of the auction of any points is of one run exactly if each bidder's points lie on lines whose
/// values are a curve.
pub fn witnessed_views_are_of_one_run_where_bids_are_curves()
    ensures { (grid : Grid) (bidders : List (Trio (List ℕ))) (words : Trio ServerWords) →
        HaveEnough (counts_of grid) words →
        OneRun grid (trio_of (view_of_points grid bidders words)) ↔ BidCurves grid bidders }
{}

/// If bidders that no server knows sealed their bids, a server sees of their envelopes what it sees of the auction of
/// their book, and the job `witness` puts and says what the job `record` does of that book.
pub fn sealed_bids_are_seen_as_their_book()
    ensures views { (grid : Grid) (farmers : List BidderWithWords) (words : Trio ServerWords) (s : Point) →
        IsBook (book_with grid farmers) → HaveWords grid farmers → AreSealed farmers →
        view_of_points grid (map sealed_points farmers) words s
        ≡ view_of_book grid farmers (masks_of words) (coefficients_of words) s }
    ensures answer { (out : List ℕ) (grid : Grid) (farmers : List BidderWithWords) (words : Trio ServerWords) →
        IsBook (book_with grid farmers) → HaveWords grid farmers → AreSealed farmers →
        witnessed_answer out grid words (map sealed_points farmers)
        ≡ recorded_answer out (record { grid = grid; servers = words; farmers = farmers }) }
{}

/// If the points of all bidders are those of curves, what is said of them is the outcome of the book that they
/// recombine to, as the job `audit` says it of what the servers saw.
pub fn curves_are_opened_as_their_book()
    ensures { (grid : Grid) (bidders : List (Trio (List ℕ))) (words : Trio ServerWords) →
        length bidders ≤ MOST_BIDDERS → All (AreInEnvelopes grid) bidders → AreMasks (masks_of words) →
        BidCurves grid bidders → opened_answer grid words bidders ≡ outcome_answer grid
        (book_finish (recombined_book grid (trio_of (view_of_points grid bidders words))) (masks_of words))
        (book_rounds (recombined_book grid (trio_of (view_of_points grid bidders words))) (masks_of words)) }
{}

/// What each server sees of points in envelopes is within the limits of a transcript. Its transcript is no longer than
/// a reader takes, and is read as what the server saw; also if the points lie on no line.
pub fn witnessed_views_are_read_again()
    ensures fits { (grid : Grid) (bidders : List (Trio (List ℕ))) (words : Trio ServerWords) (s : Point) →
        CanBeWitnessed grid bidders words → FitsFile (view_of_points grid bidders words s) }
    ensures short { (grid : Grid) (bidders : List (Trio (List ℕ))) (words : Trio ServerWords) (s : Point) →
        CanBeWitnessed grid bidders words → length (view_bytes (view_of_points grid bidders words s)) ≤ LONGEST_FILE }
    ensures again { (grid : Grid) (bidders : List (Trio (List ℕ))) (words : Trio ServerWords) (s : Point) →
        CanBeWitnessed grid bidders words → view_in (view_bytes (view_of_points grid bidders words s))
        ≡ Ok (view_of_points grid bidders words s) }
{}

/// An audit finds of these transcripts what is wrong with the points, and nothing else. It accepts them exactly if each
/// bidder's points lie on lines whose values are a curve, and then says what `witness` said; else it refuses the first
/// bidder of whom this is not so, by the number 2 or 3.
pub fn witnessed_views_are_audited_by_their_points()
    ensures finds { (grid : Grid) (bidders : List (Trio (List ℕ))) (words : Trio ServerWords)
        (found : Option AuditFault) → HaveEnough (counts_of grid) words →
        Finds grid (trio_of (view_of_points grid bidders words)) found ↔ FindsOfPoints grid bidders found }
    ensures accepted { (grid : Grid) (bidders : List (Trio (List ℕ))) (words : Trio ServerWords) →
        CanBeWitnessed grid bidders words → FindsOfPoints grid bidders None ↔ BidCurves grid bidders }
    ensures refused { (grid : Grid) (bidders : List (Trio (List ℕ))) (fault : AuditFault) →
        FindsOfPoints grid bidders (Some fault) → IsOfPoints fault }
    ensures answer { (grid : Grid) (bidders : List (Trio (List ℕ))) (words : Trio ServerWords) (answer : Answer) →
        CanBeWitnessed grid bidders words → TellsFinding (views_of_points grid bidders words) answer →
        AnswersPoints grid bidders words answer }
{}
