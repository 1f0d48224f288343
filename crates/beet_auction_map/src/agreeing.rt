//! Whether one server can tell two books apart by what it knows and by what is opened.

ghost use Rattle.std.specs.Prelude.{◌≡◌, ◌↔◌, IsOk, IfErr};
ghost use Rattle.beet_two_books.specs.Agreement.{Agree};
ghost use Rattle.beet_auction_map.specs.Disagreement.{Refuses};

use beet_bids::Book;
use beet_field::Point;
use beet_two_books::{MapFault, only};

/// Whether two books over one grid agree for a server: as many bidders with the same marks, the same curves of those
/// known to the server, and the same outcome, which holds what the policy of the grid opens. It tells the first of
/// these that does not hold. It takes no memory, and never answers that it ran out.
pub fn agreement(me: Point, first: &Book, second: &Book) -> Result<(), MapFault>
    requires { second.now.grid ≡ first.now.grid }
    ensures agreed { IsOk result ↔ Agree me first.now second.now }
    ensures refused { IfErr result (Refuses me first.now second.now) }
{
    beet_two_books::agreement(&only(me), first, second)
}
