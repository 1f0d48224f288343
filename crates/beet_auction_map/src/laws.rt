//! Laws of two worlds: contracts of functions that do nothing.

ghost use Rattle.std.specs.Prelude.{◌≡◌, ◌<◌, ◌≤◌, ◌*◌, ℕ, List, length, All};
ghost use Rattle.beet_field.specs.Trio.{member};
ghost use Rattle.beet_field.specs.declared.point.Point.{Point};
ghost use Rattle.beet_field.specs.declared.trio.Trio.{Trio};
ghost use Rattle.beet_words.specs.Bundles.{Words};
ghost use Rattle.beet_words.specs.Words.{IsWord, accepted, ones_in};
ghost use Rattle.beet_bids.specs.Books.{Book, IsBook};
ghost use Rattle.beet_bids.specs.declared.book.Bidder.{Bidder};
ghost use Rattle.beet_plan.specs.Auction.{most_coefficients};
ghost use Rattle.beet_plan.specs.Auction.{auction_over};
ghost use Rattle.beet_masking.specs.Masks.{AreMasks};
ghost use Rattle.beet_sharing.specs.Runs.{HasRounds, message, shared_at};
ghost use Rattle.beet_book.specs.Farmers.{book_inputs, book_with, farmers_of};
ghost use Rattle.beet_two_books.specs.Agreement.{Agree, SameKnown};
ghost use Rattle.beet_auction_map.specs.Enough.{AreEnough};
ghost use Rattle.beet_auction_map.specs.MappedBidders.{BiddersMapped};
ghost use Rattle.beet_turned.specs.MappedMasks.{MasksMapped};
ghost use Rattle.beet_two_books.specs.Losses.{losses_of};
ghost use Rattle.beet_auction.specs.Setups.{setup_for, rounds_for};
ghost use Rattle.beet_auction_map.specs.ViewsWith.{cut_words};

/// With mapped words the bidders of a second book, in which those known to the server have the same curves, give that
/// server the same summed points.
pub fn mapped_bidders_give_the_same_points()
    ensures { (s : Point) (first second : Book) (words words' : List (List ℕ)) → IsBook second →
        SameKnown s first second →
        BiddersMapped s first.bidders words second.bidders words' →
        member (book_inputs second.grid.prices (farmers_of second.bidders words')) s
        ≡ member (book_inputs second.grid.prices (farmers_of first.bidders words)) s }
{}

/// Mapped words are enough for the second book if the first are for the first book; of the coefficient words it
/// matters only which are all ones.
pub fn mapped_words_are_enough()
    ensures { (s : Point) (first second : Book) (words words' : Words) → Agree s first second →
        MasksMapped s (losses_of first second) words.masks words'.masks →
        ((j : Point) → ones_in (member words'.coefficients j) ≡ ones_in (member words.coefficients j)) →
        length words'.bidders ≡ length second.bidders →
        BiddersMapped s first.bidders words.bidders second.bidders words'.bidders →
        AreEnough first words → AreEnough second words' }
{}

/// Books agree, masks are mapped and bidders' words are mapped from the second world to the first if they are so
/// from the first to the second.
pub fn mapped_worlds_map_back()
    ensures books { (s : Point) (first second : Book) → Agree s first second → Agree s second first }
    ensures masks { (s : Point) (first second : Book) (words words' : Trio (List ℕ)) → Agree s first second →
        AreMasks words → MasksMapped s (losses_of first second) words words' →
        MasksMapped s (losses_of second first) words' words }
    ensures bidders { (s : Point) (first second : Book) (words words' : List (List ℕ)) → IsBook first → IsBook second →
        All (All IsWord) words → BiddersMapped s first.bidders words second.bidders words' →
        BiddersMapped s second.bidders words' first.bidders words }
{}

/// Bidders' words are mapped to no other words than these, and no other words are mapped to them.
pub fn mapped_words_are_the_only_ones()
    ensures images { (s : Point) (bidders others : List Bidder) (words u v : List (List ℕ)) →
        length u ≡ length others → length v ≡ length others →
        BiddersMapped s bidders words others u → BiddersMapped s bidders words others v → u ≡ v }
    ensures sources { (s : Point) (first second : Book) (words u v : List (List ℕ)) → IsBook first → IsBook second →
        All (All IsWord) u → All (All IsWord) v → length u ≡ length first.bidders → length v ≡ length first.bidders →
        BiddersMapped s first.bidders u second.bidders words →
        BiddersMapped s first.bidders v second.bidders words → u ≡ v }
{}

/// Bidders with their words are a book's bidders, and tell the words.
pub fn farmers_are_bidders_and_words()
    ensures book { (book : Book) (words : List (List ℕ)) → length words ≡ length book.bidders →
        book_with book.grid (farmers_of book.bidders words) ≡ book }
    ensures words { (bidders : List Bidder) (u v : List (List ℕ)) →
        length u ≡ length bidders → length v ≡ length bidders →
        farmers_of bidders u ≡ farmers_of bidders v → u ≡ v }
    ensures are_words { (bidders : List Bidder) (words : List (List ℕ)) → All (All IsWord) words →
        All (λ farmer. All IsWord farmer.words) (farmers_of bidders words) }
{}

/// If words are enough, each list has as many numbers to draw as are wanted of it.
pub fn enough_words_can_be_drawn()
    ensures coefficients { (book : Book) (words : Words) (j : Point) → AreEnough book words →
        most_coefficients (auction_over book.grid) ≤ length (accepted (member words.coefficients j)) }
    ensures bidders { (book : Book) (words : Words) → AreEnough book words →
        All (λ list. 2 * book.grid.prices ≤ length (accepted list)) words.bidders }
{}

/// If words are enough, those that are not read change nothing: the run has the same rounds, points, opened numbers
/// and messages.
pub fn unread_words_change_nothing()
    ensures rounds { (book : Book) (words : Words) (rounds : ℕ) → AreEnough book words →
        HasRounds (setup_for book words) rounds →
        rounds_for book (cut_words book.grid words) ≡ rounds }
    ensures runs { (book : Book) (words : Words) (rounds t : ℕ) → AreEnough book words →
        HasRounds (setup_for book words) rounds → t ≤ rounds →
        shared_at (setup_for book (cut_words book.grid words)) t ≡ shared_at (setup_for book words) t }
    ensures messages { (book : Book) (words : Words) (rounds t : ℕ) (from to : Point) → AreEnough book words →
        HasRounds (setup_for book words) rounds → t < rounds →
        message (setup_for book (cut_words book.grid words)) from to t ≡ message (setup_for book words) from to t }
{}
