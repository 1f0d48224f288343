//! What the auction is for, in laws: a server opens the outcome of the plaintext auction, nobody waits once all
//! messages are delivered, and a server cannot tell two books apart that clear alike and have the same bids of its own
//! bidders, whatever the random words of the others, for which there are as many choices in both. And where that ends:
//! two servers tell every bid, and so do words that are used twice. Of five servers two together cannot tell such books
//! apart, and three tell every bid.
//!
//! There is no code here, and no memory is taken: the laws are contracts of functions that do nothing.
#![tactic(auto)]

ghost use Rattle.std.specs.Prelude.{◌≡◌, ◌≢◌, ◌<◌, ◌*◌, ◌++◌, ℕ, List, [], slice_index};
ghost use Rattle.beet_field.specs.Field.{sub_of};
ghost use Rattle.beet_field.specs.declared.point.Point.{Point};
ghost use Rattle.beet_words.specs.Bundles.{Words};
ghost use Rattle.beet_bids.specs.Books.{Book, IsBook};
ghost use Rattle.beet_bids.specs.Curves.{Curve, quantity};
ghost use Rattle.beet_bids.specs.Grids.{Grid};
ghost use Rattle.beet_bids.specs.declared.book.Bidder.{Bidder};
ghost use Rattle.beet_plan.specs.Auction.{Auction, auction_batch, auction_over, most_rounds};
ghost use Rattle.beet_plan.specs.declared.Finish.{Finish};
ghost use Rattle.beet_delivery.specs.Events.{Triple, after_from};
ghost use Rattle.beet_server.specs.Cores.{Core};
ghost use Rattle.beet_world.specs.Marks.{unmarked};
ghost use Rattle.beet_world.specs.Worlds.{World, delivered_in, named_in, rounds_in};
ghost use Rattle.beet_world.specs.declared.schedule.Delivery.{Delivery};
ghost use Rattle.beet_auction.specs.Endings.{book_finish, book_rounds};
ghost use Rattle.beet_auction.specs.Setups.{inputs_of, setup_for};
ghost use Rattle.beet_auction.specs.WorldEnds.{IsAuctionCore, StandsBy, auction_in};
ghost use Rattle.beet_view.specs.declared.view.Seen.{Seen};
ghost use Rattle.beet_auction_map.specs.MappedWords.{Mapped};
ghost use Rattle.beet_auction_map.specs.ViewsWith.{view_with};
ghost use Rattle.beet_farmer.specs.Sealing.{envelope_for, sealed_envelope};
ghost use Rattle.beet_headline.specs.Envelopes.{AreOneEnvelope, AreTwoBids, CanSeal};
ghost use Rattle.beet_headline.specs.Statements.{AllDelivered, AllEndWith, AllHaveEnded, AllShow, AreChoices};
ghost use Rattle.beet_headline.specs.Statements.{AreOnePair};
ghost use Rattle.beet_headline.specs.Statements.{ArePairs, AreTwoBooks, Began, CanRun, CoreOpensTheOutcome, IsSeen};
ghost use Rattle.beet_headline.specs.Statements.{OpensTheOutcome, WereGiven};

mod five;

pub use five::{three_of_five_tell_every_bid, two_of_five_cannot_tell_books_apart};

/// For every book of accepted bids, all words that are enough, and every order, repeat or delay of the messages, a
/// server that has ended has opened the outcome of the plaintext auction. The only other end is spent, exactly if
/// the mask words say so, and it comes after the number of rounds that the book and the mask words tell. Nothing else
/// could be said of all ends. For every book there are words that are enough.
///
/// The order of the messages comes by the cores: `opens` speaks of the core of a server, with the numbers that it has
/// opened, in any `World` whose servers began with the book and the words, and were given the events. What
/// `World::core` lends is such a core (`IsAuctionCore`), what `World::of` makes was given no events, and `World::play`
/// gives it those of its schedule. The clause `defined` says the same of the definition of an end (`standing`), in
/// which the order of the events counts for how far a server has come, and for nothing else: that two servers which
/// have ended have ended alike holds there by definition, of any run. What the other laws say of `standing` is said of
/// cores by `opens`.
pub fn an_opened_outcome_is_the_plaintext_auctions()
    ensures opens { (book : Book) (words : Words) (es : List Triple) (w : World Auction) (s : Point)
        (c : Core Auction) →
        IsBook book → CanRun book words → WereGiven book words es w → IsAuctionCore w s c →
        CoreOpensTheOutcome book words es s c }
    ensures begins { (book : Book) (words : Words) (w : World Auction) → Began book words w →
        w.marks ≡ unmarked (most_rounds w.start.one.script) → WereGiven book words [] w }
    ensures goes_on { (book : Book) (words : Words) (es : List Triple) (schedule : List Delivery)
        (w w' : World Auction) →
        WereGiven book words es w → w'.start ≡ w.start → delivered_in w'
        ≡ after_from (rounds_in auction_batch inputs_of most_rounds w) (delivered_in w) (named_in schedule) →
        WereGiven book words (es ++ named_in schedule) w' }
    ensures cores { (book : Book) (words : Words) (w : World Auction) (s : Point) (c : Core Auction) → IsBook book →
        CanRun book words → w.start.one.script ≡ auction_over book.grid → auction_in w ≡ setup_for book words →
        IsAuctionCore w s c → StandsBy (book_rounds book words.masks) (book_finish book words.masks) w s c }
    ensures defined { (book : Book) (words : Words) (es : List Triple) (s : Point) → IsBook book → CanRun book words →
        OpensTheOutcome book words es s }
    ensures only { (book : Book) (words : Words) (finish : Finish) → IsBook book → CanRun book words →
        AllEndWith book words finish → finish ≡ book_finish book words.masks }
    ensures words { (book : Book) → (words : Words) × CanRun book words }
{}

/// Once no message is left that was sent and not delivered, all three servers have opened the outcome, or all three are
/// spent. Whatever was delivered, there are messages that bring it so far.
pub fn with_all_delivered_all_have_ended()
    ensures ended { (book : Book) (words : Words) (es : List Triple) → IsBook book → CanRun book words →
        AllDelivered book words es → AllHaveEnded book words es }
    ensures reached { (book : Book) (words : Words) (es : List Triple) →
        (more : List Triple) × AllDelivered book words (es ++ more) }
{}

/// Two books agree for a server if they are over one grid, clear alike, and have as many bidders with the same marks,
/// and the same curves of the server's own. Then all words with which the auction of the first can be run go with
/// exactly one choice of words of the second, and all words of the second with exactly one choice of the first.
/// Whatever the words, the server's transcripts are the same bytes in both worlds, and at every moment it has, receives
/// and sends the same. Both choices are as long, list by list. Words that are mapped, as `world_map` answers them, are
/// such a pair.
pub fn books_that_clear_alike_look_the_same()
    ensures second { (s : Point) (first second : Book) (words : Words) → AreTwoBooks s first second →
        CanRun first words → (words' : Words) × AreOnePair s first words second words' }
    ensures first { (s : Point) (first second : Book) (words' : Words) → AreTwoBooks s first second →
        CanRun second words' → (words : Words) × AreOnePair s first words second words' }
    ensures mapped { (s : Point) (first second : Book) (words words' : Words) → AreTwoBooks s first second →
        CanRun first words → Mapped s first words second words' → AreOnePair s first words second words' }
{}

/// So there are as many choices of words for the one book as for the other: any choices for the one book, none of them
/// twice, go with as many for the other, none of them twice. And so it is of those that show the server a given
/// transcript: each transcript is shown by as many choices for the one book as for the other.
pub fn there_are_as_many_words_for_both_books()
    ensures second { (s : Point) (first second : Book) (choices : List Words) → AreTwoBooks s first second →
        AreChoices first choices →
        (others : List Words) × AreChoices second others × ArePairs s first choices second others }
    ensures first { (s : Point) (first second : Book) (others : List Words) → AreTwoBooks s first second →
        AreChoices second others →
        (choices : List Words) × AreChoices first choices × ArePairs s first choices second others }
    ensures shown_second { (s : Point) (first second : Book) (transcript : List ℕ) (choices : List Words) →
        AreTwoBooks s first second → AreChoices first choices → AllShow s first transcript choices →
        (others : List Words) × AreChoices second others × AllShow s second transcript others
        × ArePairs s first choices second others }
    ensures shown_first { (s : Point) (first second : Book) (transcript : List ℕ) (others : List Words) →
        AreTwoBooks s first second → AreChoices second others → AllShow s second transcript others →
        (choices : List Words) × AreChoices first choices × AllShow s first transcript choices
        × ArePairs s first choices second others }
{}

/// An envelope tells its server nothing. Whatever two bids over one grid, and whatever the words: the envelope that the
/// one bid gives a server is that of the other bid, byte for byte, for exactly one choice of words that differ in those
/// of the quantities alone.
pub fn an_envelope_tells_nothing()
    ensures { (grid : Grid) (s : Point) (one other : Curve) (words : List ℕ) → AreTwoBids grid one other →
        CanSeal grid words → (words' : List ℕ) × AreOneEnvelope grid s one words other words' }
{}

/// Two of the three servers tell every bid, whatever the words: if what both of them see is the same, so are the
/// books, and if two envelopes are the same, so are the bids. So one server is the most that a bid is hidden from.
pub fn two_servers_tell_every_bid()
    ensures views { (s t : Point) (first second : Book) (words words' : Words) → s ≢ t → IsBook first → IsBook second →
        CanRun first words → CanRun second words' → view_with second words' s ≡ view_with first words s →
        view_with second words' t ≡ view_with first words t → second ≡ first }
    ensures envelopes { (grid : Grid) (s t : Point) (one other : Curve) (words words' : List ℕ) → s ≢ t →
        AreTwoBids grid one other → CanSeal grid words → CanSeal grid words' →
        envelope_for grid other words' s ≡ envelope_for grid one words s →
        envelope_for grid other words' t ≡ envelope_for grid one words t → other ≡ one }
{}

/// Words are good for one bid. Two bids that are dealt with the same words show each server the difference of their
/// quantities, place by place: two envelopes, and two bidders that it sees in one auction or in two. So that words are
/// fresh is a premise of what is said here of bids that stay hidden.
pub fn words_used_twice_tell_the_difference()
    ensures envelopes { (grid : Grid) (s : Point) (one other : Curve) (words : List ℕ) (n : ℕ) →
        AreTwoBids grid one other →
        CanSeal grid words → n < 2 * grid.prices →
        sub_of (slice_index (sealed_envelope other words s).points n)
        (slice_index (sealed_envelope one words s).points n)
        ≡ sub_of (quantity other n) (quantity one n) }
    ensures views { (s : Point) (first second : Book) (words words' : Words) (j k n : ℕ) (one other : Bidder)
        (list : List ℕ)
        (seen seen' : Seen) → IsBook first → IsBook second → CanRun first words → CanRun second words' →
        IsSeen s first words j one list seen → IsSeen s second words' k other list seen' →
        n < 2 * first.grid.prices → n < 2 * second.grid.prices →
        sub_of (slice_index seen'.points n) (slice_index seen.points n)
        ≡ sub_of (quantity other.curve n) (quantity one.curve n) }
{}

/// What a server sees tells how the auction ends: if the views of two auctions are equal, both have opened the same,
/// or both are spent. So only books that clear alike can look the same, unless both are spent.
pub fn equal_views_end_alike()
    ensures { (s : Point) (first second : Book) (words words' : Words) → IsBook first → IsBook second →
        CanRun first words → CanRun second words' → view_with second words' s ≡ view_with first words s →
        book_finish second words'.masks ≡ book_finish first words.masks }
{}
