//! The auction of a book among three servers: what they begin with, and how they end.
//!
//! There is no code here: the laws are contracts of functions that do nothing.
#![tactic(auto)]

ghost use Rattle.std.specs.Prelude.{◌≡◌, ◌≤◌, ◌*◌, ◌++◌, ◌∷◌, [], ℕ, List, length};
ghost use Rattle.beet_field.specs.declared.point.Point.{Point};
ghost use Rattle.beet_field.specs.declared.trio.Trio.{Trio};
ghost use Rattle.beet_bids.specs.Books.{Book, IsBook};
ghost use Rattle.beet_bids.specs.Grids.{Grid};
ghost use Rattle.beet_words.specs.Words.{accepted};
ghost use Rattle.beet_book.specs.Dealing.{dealt_points, quantities};
ghost use Rattle.beet_book.specs.Totals.{added, none_of, wires_of};
ghost use Rattle.beet_plan.specs.Auction.{Auction, auction_batch, auction_over};
ghost use Rattle.beet_masking.specs.Masks.{AreMasks};
ghost use Rattle.beet_bids.specs.Sums.{sums_of};
ghost use Rattle.beet_server.specs.Cores.{Core};
ghost use Rattle.beet_sharing.specs.Runs.{Setup};
ghost use Rattle.beet_sharing.specs.Lines.{OnLines};
ghost use Rattle.beet_world.specs.Worlds.{World};
ghost use Rattle.beet_auction.specs.Setups.{book_setup};
ghost use Rattle.beet_book.specs.Farmers.{BidderWithWords, book_inputs, book_with, summed_points};
ghost use Rattle.beet_auction.specs.AnyPoints.{ArePoints, points_finish, points_rounds};
ghost use Rattle.beet_auction.specs.Endings.{AuctionEnds, EndsAlways, book_finish, book_rounds};
ghost use Rattle.beet_auction.specs.WorldEnds.{IsAuctionCore, StandsBy, auction_in};

/// If the inputs are points of lines with a book's sums, the run ends with the book's outcome, or spent exactly
/// if the mask words say so, after the number of rounds that the book and the mask words tell.
pub fn runs_end_with_the_outcome()
    ensures { (book : Book) (o : Setup) (slopes : List ℕ) → IsBook book → AreMasks o.masks →
        o.next ≡ auction_batch (auction_over book.grid) → OnLines (sums_of book) slopes o.inputs →
        AuctionEnds (auction_over book.grid) o
        (book_rounds book o.masks) (book_finish book o.masks) }
{}

/// The same of the points that the bidders of a book deal, and after every list of events: a server that does not wait
/// has ended with the book's outcome, or spent. So it is for every order, repeat or delay of the messages.
pub fn an_opened_outcome_is_the_books()
    ensures ends { (grid : Grid) (farmers : List BidderWithWords) (masks coefficients : Trio (List ℕ)) →
        IsBook (book_with grid farmers) → AreMasks masks →
        AuctionEnds (auction_over grid) (book_setup grid farmers masks coefficients)
        (book_rounds (book_with grid farmers) masks) (book_finish (book_with grid farmers) masks) }
    ensures always { (grid : Grid) (farmers : List BidderWithWords) (masks coefficients : Trio (List ℕ)) →
        IsBook (book_with grid farmers) → AreMasks masks →
        EndsAlways (auction_over grid) (book_setup grid farmers masks coefficients)
        (book_rounds (book_with grid farmers) masks) (book_finish (book_with grid farmers) masks) }
{}

/// After every list of events the core of a server in a `World` of the auction waits, or has ended, and then the script
/// names the book's outcome after the numbers that it has opened, or spent exactly if the third of the first masks
/// that it may want is rejected. So it is on all points of lines with the book's sums, and on those that the bidders of
/// a book deal.
pub fn cores_open_the_books_outcome()
    ensures lines { (book : Book) (slopes : List ℕ) (w : World Auction) (s : Point)
        (c : Core Auction) → IsBook book → AreMasks (auction_in w).masks → w.start.one.script ≡ auction_over book.grid →
        OnLines (sums_of book) slopes (auction_in w).inputs → IsAuctionCore w s c →
        StandsBy (book_rounds book (auction_in w).masks)
        (book_finish book (auction_in w).masks) w s c }
    ensures dealt { (grid : Grid) (farmers : List BidderWithWords) (masks coefficients : Trio (List ℕ))
        (w : World Auction) (s : Point) (c : Core Auction) → IsBook (book_with grid farmers) → AreMasks masks →
        w.start.one.script ≡ auction_over grid →
        auction_in w ≡ book_setup grid farmers masks coefficients → IsAuctionCore w s c →
        StandsBy (book_rounds (book_with grid farmers) masks)
        (book_finish (book_with grid farmers) masks) w s c }
{}

/// The points of the inputs need lie on no line: on any points below p the run ends with what the search over them
/// finds, or spent exactly if the mask words say so. So it is after every list of events.
pub fn any_points_end_with_what_they_open()
    ensures ends { (a : Auction) (o : Setup) → ArePoints a o.inputs → AreMasks o.masks →
        o.next ≡ auction_batch a →
        AuctionEnds a o (points_rounds a o.inputs o.masks) (points_finish a o.inputs o.masks) }
    ensures always { (a : Auction) (o : Setup) → ArePoints a o.inputs → AreMasks o.masks →
        o.next ≡ auction_batch a →
        EndsAlways a o (points_rounds a o.inputs o.masks) (points_finish a o.inputs o.masks) }
{}

/// If the points are those of lines with a book's sums, as those that its bidders deal are, this is the end of the
/// auction of the book.
pub fn points_of_a_book_end_with_its_outcome()
    ensures finish { (book : Book) (slopes : List ℕ) (inputs masks : Trio (List ℕ)) → IsBook book →
        OnLines (sums_of book) slopes inputs →
        points_finish (auction_over book.grid) inputs masks ≡ book_finish book masks }
    ensures rounds { (book : Book) (slopes : List ℕ) (inputs masks : Trio (List ℕ)) → IsBook book →
        OnLines (sums_of book) slopes inputs →
        points_rounds (auction_over book.grid) inputs masks ≡ book_rounds book masks }
    ensures dealt_finish { (grid : Grid) (farmers : List BidderWithWords) (masks : Trio (List ℕ)) →
        IsBook (book_with grid farmers) →
        points_finish (auction_over grid) (book_inputs grid.prices farmers) masks
        ≡ book_finish (book_with grid farmers) masks }
    ensures dealt_rounds { (grid : Grid) (farmers : List BidderWithWords) (masks : Trio (List ℕ)) →
        IsBook (book_with grid farmers) →
        points_rounds (auction_over grid) (book_inputs grid.prices farmers) masks
        ≡ book_rounds (book_with grid farmers) masks }
{}

/// The points of bidders that are dealt and added one after another are the points that the auction of their book
/// begins with.
pub fn totals_are_the_inputs()
    ensures none { (prices : ℕ) → summed_points prices [] ≡ (none_of prices).points }
    ensures more { (prices : ℕ) (farmers : List BidderWithWords) (farmer : BidderWithWords) →
        length (quantities farmer.bidder.curve) ≡ 2 * prices →
        2 * prices ≤ length (accepted farmer.words) →
        summed_points prices (farmers ++ farmer ∷ [])
        ≡ added (summed_points prices farmers)
        (dealt_points farmer.bidder.curve (accepted farmer.words)) }
    ensures inputs { (prices : ℕ) (farmers : List BidderWithWords) →
        book_inputs prices farmers
        ≡ wires_of (record { prices = prices; points = summed_points prices farmers }) }
{}
