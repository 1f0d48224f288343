//! The auction of a book among five servers: how it ends, and what three of them know.
#![tactic(auto)]

ghost use Rattle.std.specs.Prelude.{◌≡◌, ◌↔◌, ◌<◌, ◌≤◌, ◌^◌, ℕ, List, [], Some, IsSome, slice_index, slice_index_or};
ghost use Rattle.std.specs.Prelude.{true};
ghost use Rattle.beet_field.specs.Field.{IsElement};
ghost use Rattle.beet_bids.specs.Books.{Book, IsBook};
ghost use Rattle.beet_bids.specs.Sums.{sums_of};
ghost use Rattle.beet_five_auction.specs.FiveEndings.{FiveAuctionEnds, book_finish, book_rounds};
ghost use Rattle.beet_five_auction.specs.WorldEndings.{WorldEnds};
ghost use Rattle.beet_delivery.specs.Networks.{Delivered, Triple, after, nothing};
ghost use Rattle.beet_plan.specs.FivePlan.{FiveAuction, five_batch, five_over, five_plan};
ghost use Rattle.beet_five_server.specs.Cores.{has_ended};
ghost use Rattle.beet_five_server.specs.Fits.{Fits};
ghost use Rattle.beet_five_server.specs.Network.{five};
ghost use Rattle.beet_five_world.specs.Members.{AllFit, LeadAll, Seen};
ghost use Rattle.beet_gates.specs.Plans.{plan_finish};
ghost use Rattle.beet_linear_sharing.specs.Polynomials.{AreShared};
ghost use Rattle.beet_linear_sharing.specs.Runs.{Setup};
ghost use Rattle.beet_linear_sharing.specs.Schemes.{five_servers};
ghost use Rattle.beet_coalition.specs.Lists.{at_server};
ghost use Rattle.beet_five_dealing.specs.FiveInputs.{setup_of};
ghost use Rattle.beet_five_dealing.specs.FiveWords.{CanRun, FiveWords};
ghost use Rattle.beet_weights.specs.Quadratics.{IsServer, of_five, point_of};

use beet_five_server::FiveCore;
use beet_plan::Finish;
use beet_search::FiveScript;

/// If the points of the inputs are those of polynomials of degree at most two with the sums of a book, the run among
/// five servers ends with the book's outcome, or spent exactly if the mask words say so. Its rounds are those that the
/// book and the mask words tell.
pub fn five_runs_end_with_the_outcome()
    ensures { (book : Book) (o : Setup) → IsBook book →
        ((k i : ℕ) → slice_index (slice_index_or (of_five o.masks) k []) i < 2 ^ 61) →
        o.next ≡ five_batch (five_over book.grid) → AreShared five_servers (sums_of book) o.inputs →
        FiveAuctionEnds (five_over book.grid) o (book_rounds book o.masks) (book_finish book o.masks) }
{}

/// The run on what the bidders of a book deal ends with the outcome of the book, or spent exactly if the mask words say
/// so, after the number of rounds that the book and the mask words tell.
pub fn dealt_books_end_with_their_outcome()
    ensures { (book : Book) (words : FiveWords) → IsBook book → CanRun book words →
        FiveAuctionEnds (five_over book.grid) (setup_of book words) (book_rounds book (at_server words.masks))
        (book_finish book (at_server words.masks)) }
{}

/// How the auction has ended at a server, or none exactly if it has not. A server that fits a run on the shared sums of
/// a book, with any messages delivered, ends with the book's outcome, or spent exactly if the mask words say so.
pub fn finish_at(core: &FiveCore<FiveScript>) -> Option<Finish>
    ensures value { result ≡ plan_finish (five_plan core.now.work.script) core.now.work.opened }
    ensures ended { IsSome result ↔ (has_ended five_batch core.now.work ≡ true) }
    ensures outcome { (book : Book) (o : Setup) (x : Delivered ℕ) → IsBook book →
        ((k i : ℕ) → slice_index (slice_index_or (of_five o.masks) k []) i < 2 ^ 61) →
        core.now.work.script ≡ five_over book.grid → AreShared five_servers (sums_of book) o.inputs →
        IsServer core.now.work.me → Fits five_batch o x core.now.work core.now.mail →
        has_ended five_batch core.now.work ≡ true →
        (result ≡ Some (book_finish book o.masks)) × (core.now.work.round ≡ book_rounds book o.masks) }
{
    core.script().finish(core.opened())
}

/// In a world of five servers that began with shares of the sums of a book, after every list of events: a server that
/// has ended has the book's outcome, or spent exactly if the mask words say so, after the rounds that the book and the
/// mask words tell. No two servers are more than one round apart. If nothing is undelivered, all five have ended so.
pub fn five_servers_end_with_the_outcome()
    ensures { (book : Book) (o : Setup) (es : List (Triple ℕ)) (old new : List (Seen FiveAuction)) → IsBook book →
        ((k i : ℕ) → slice_index (slice_index_or (of_five o.masks) k []) i < 2 ^ 61) →
        AreShared five_servers (sums_of book) o.inputs →
        AllFit five_batch (five_over book.grid) o (book_rounds book o.masks) nothing old →
        LeadAll five_batch old es new →
        WorldEnds (book_rounds book o.masks) (book_finish book o.masks)
        (after five (book_rounds book o.masks) es) new }
{}

/// Three of the five servers know every bid: if two values, each hidden by two numbers, have the same shares at three
/// servers, they are the same value. So it is for each of the ten threes.
pub fn three_of_five_can_tell_values_apart()
    ensures { (v a b w c d i j k : ℕ) → IsElement v → IsElement w → IsServer i → i < j → j < k → IsServer k →
        point_of v a b i ≡ point_of w c d i → point_of v a b j ≡ point_of w c d j →
        point_of v a b k ≡ point_of w c d k → v ≡ w }
{}
