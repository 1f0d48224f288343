//! Laws of results, and of how servers end a sale: contracts of functions that do nothing.

ghost use Rattle.std.specs.Prelude.{◌≡◌, ◌<◌, ◌++◌, ℕ, List, [], length};
ghost use Rattle.beet_field.specs.declared.point.Point.{Point};
ghost use Rattle.beet_gates.specs.declared.Gates.{Gates};
ghost use Rattle.beet_words.specs.Bundles.{Words};
ghost use Rattle.beet_delivery.specs.Events.{Triple, after_from};
ghost use Rattle.beet_server.specs.Cores.{Core};
ghost use Rattle.beet_world.specs.Marks.{unmarked};
ghost use Rattle.beet_world.specs.Worlds.{World, delivered_in, named_in, rounds_in};
ghost use Rattle.beet_world.specs.declared.schedule.Delivery.{Delivery};
ghost use Rattle.beet_sale_plan.specs.Outcome.{IsSale};
ghost use Rattle.beet_sale_plan.specs.Sale.{Sale, bidders_of, most_rounds, sale_batch};
ghost use Rattle.beet_sale_file.specs.declared.rows.SaleBid.{SaleBid};
ghost use Rattle.beet_sale_map.specs.Bids.{AreSaleBids};
ghost use Rattle.beet_highbid.specs.SalePairs.{CanSell};
ghost use Rattle.beet_sale_run.specs.Results.{price_of, winner_of};
ghost use Rattle.beet_sale_run.specs.Standings.{Began, IsSaleCore, StandsRight, WereGiven};

/// Two bids or more have the winner and the price of a sale: the first whose bid is at least every other, and the
/// greatest bid of the others.
pub fn bids_sell_so()
    ensures { (bids : List ℕ) → 1 < length bids → IsSale bids (winner_of bids) (price_of bids) }
{}

/// Whatever the order, the repeats and the delays of the messages, a server that has ended has sold to the first bidder
/// whose bid is at least every other, at the greatest bid of the others, or it is spent, exactly if the mask words
/// say so; and it ends after the rounds that the bids and the mask words tell. If no message is left that was sent and
/// not delivered, it has ended.
///
/// It is said of the core of a server, with the numbers that it has opened, in any `World` whose servers began with the
/// sale and were given the events. What `World::core` lends is such a core (`IsSaleCore`), what `World::of` makes was
/// given no events, and `World::play` gives it those of its schedule.
pub fn each_server_ends_a_sale_so()
    ensures stands { (gates : Gates) (bids : List SaleBid) (words : Words) (es : List Triple) (w : World Sale)
        (s : Point) (c : Core Sale) → AreSaleBids bids → CanSell bids words → WereGiven gates bids words es w →
        IsSaleCore w s c → StandsRight gates bids words es s c }
    ensures begins { (gates : Gates) (bids : List SaleBid) (words : Words) (w : World Sale) →
        Began gates bids words w → w.marks ≡ unmarked (most_rounds w.start.one.script) →
        WereGiven gates bids words [] w }
    ensures goes_on { (gates : Gates) (bids : List SaleBid) (words : Words) (es : List Triple)
        (schedule : List Delivery) (w w' : World Sale) → WereGiven gates bids words es w → w'.start ≡ w.start →
        delivered_in w' ≡ after_from (rounds_in sale_batch bidders_of most_rounds w) (delivered_in w)
        (named_in schedule) → WereGiven gates bids words (es ++ named_in schedule) w' }
{}
