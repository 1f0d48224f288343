//! Laws of events in several lots: contracts of functions that do nothing.

ghost use Rattle.std.specs.Prelude.{◌≡◌, ◌++◌, ◌∷◌, [], ℕ, List, Some, map, slice_get};
ghost use Rattle.beet_field.specs.declared.point.Point.{Point};
ghost use Rattle.beet_field.specs.declared.trio.Trio.{Trio};
ghost use Rattle.beet_bids.specs.Books.{IsBook};
ghost use Rattle.beet_bids.specs.Grids.{Grid};
ghost use Rattle.beet_book.specs.Farmers.{BidderWithWords, book_with};
ghost use Rattle.beet_plan.specs.Auction.{Auction, auction_batch, auction_over, most_rounds};
ghost use Rattle.beet_masking.specs.Masks.{AreMasks};
ghost use Rattle.beet_server.specs.Cores.{Core, setup_of};
ghost use Rattle.beet_delivery.specs.Events.{Delivered, Triple, after_from};
ghost use Rattle.beet_world.specs.Worlds.{IsCoreOf, World};
ghost use Rattle.beet_world.specs.declared.world.Event.{Event};
ghost use Rattle.beet_auction.specs.Endings.{book_finish, book_rounds};
ghost use Rattle.beet_auction.specs.Setups.{book_setup, inputs_of};
ghost use Rattle.beet_auction.specs.WorldEnds.{IsAuctionCore, StandsBy};
ghost use Rattle.beet_lots.specs.LotEvents.{LotTriple, after_in, of_lot};
ghost use Rattle.beet_lots.specs.LotWorlds.{HappensIn, PlaysIn, StandsAlone, begun};

use beet_gates::Script;

/// Whatever the other lots do: what is delivered in a lot after a list of events is what the events of this lot alone
/// deliver.
pub fn lots_do_not_touch_each_other()
    ensures { (rounds : ℕ → ℕ) (x : ℕ → Delivered) (events : List LotTriple) (lot : ℕ) →
        after_in rounds x events lot ≡ after_from (rounds lot) (x lot) (of_lot lot events) }
{}

/// One event is a list of one, and lists of events one after another are one list.
pub fn events_add_up<S: Script<3>>()
    ensures one { (old new : List (World S)) (lot : ℕ) (e : Triple) (event : Event) →
        HappensIn S.batch_of S.inputs_of S.rounds_of old new lot e event →
        PlaysIn S.batch_of S.inputs_of S.rounds_of old new (record { lot = lot; triple = e } ∷ []) }
    ensures more { (old now new : List (World S)) (es more : List LotTriple) →
        PlaysIn S.batch_of S.inputs_of S.rounds_of old now es →
        PlaysIn S.batch_of S.inputs_of S.rounds_of now new more →
        PlaysIn S.batch_of S.inputs_of S.rounds_of old new (es ++ more) }
{}

/// After every list of events of all lots, the core of a server of a lot fits what this lot began with and the set that
/// the events of this lot alone give, and is at the rounds that its server has passed by this set.
pub fn each_lot_stands_by_its_own_events<S: Script<3>>()
    ensures { (openings : List (Trio (Core S))) (now : List (World S)) (events : List LotTriple)
        (lot : ℕ) (opening : Trio (Core S)) (w : World S) (s : Point) (c : Core S) →
        PlaysIn S.batch_of S.inputs_of S.rounds_of (map (begun S.rounds_of) openings) now events →
        slice_get openings lot ≡ Some opening → slice_get now lot ≡ Some w →
        IsCoreOf S.batch_of S.inputs_of S.rounds_of w s c →
        StandsAlone S.batch_of S.inputs_of S.rounds_of opening (of_lot lot events) w s c }
{}

/// So the auction of a lot opens the outcome of its own book, or is spent exactly as this book and its mask words say,
/// whatever the other lots do.
pub fn each_lot_opens_its_own_outcome()
    ensures { (openings : List (Trio (Core Auction))) (now : List (World Auction)) (events : List LotTriple)
        (lot : ℕ) (opening : Trio (Core Auction)) (w : World Auction) (s : Point) (c : Core Auction)
        (grid : Grid) (farmers : List BidderWithWords) (masks coefficients : Trio (List ℕ)) →
        PlaysIn auction_batch inputs_of most_rounds (map (begun most_rounds) openings) now events →
        slice_get openings lot ≡ Some opening → slice_get now lot ≡ Some w → IsAuctionCore w s c →
        IsBook (book_with grid farmers) → AreMasks masks → opening.one.script ≡ auction_over grid →
        setup_of auction_batch inputs_of opening ≡ book_setup grid farmers masks coefficients →
        StandsBy (book_rounds (book_with grid farmers) masks) (book_finish (book_with grid farmers) masks) w s c }
{}
