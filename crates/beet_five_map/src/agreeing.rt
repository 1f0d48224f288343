//! Whether two servers of five can tell two books apart by what they know and by what is opened.

ghost use Rattle.std.specs.Prelude.{◌≡◌, ◌↔◌, IsOk, IfErr};
ghost use Rattle.beet_field.specs.Trio.{member};
ghost use Rattle.beet_field.specs.declared.point.Point.{Point as Place};
ghost use Rattle.beet_five_map.specs.FiveWorlds.{Agree, watching};
ghost use Rattle.beet_five_map.specs.FiveDisagreement.{Refuses};

use beet_bids::Book;
use beet_coalition_map::Watchers;
use beet_field::Trio;
use beet_two_books::MapFault;

/// Which of the servers that mark bidders are among the two.
fn watched(two: Watchers) -> Trio<bool>
    ensures { (s : Place) → member result s ≡ watching two.a two.b s }
{
    Trio {
        one: two.watches(1),
        two: two.watches(2),
        three: two.watches(3),
    }
}

/// Whether two books over one grid agree for two servers: as many bidders with the same marks, the same curves of those
/// that are marked by one of the two, and the same outcome, which holds what the policy of the grid opens. It tells the
/// first of these that does not hold. It takes no memory, and never answers that it ran out.
pub(crate) fn agreement(two: Watchers, first: &Book, second: &Book) -> Result<(), MapFault>
    requires { second.now.grid ≡ first.now.grid }
    ensures agreed { IsOk result ↔ Agree two.a two.b first.now second.now }
    ensures refused { IfErr result (Refuses two.a two.b first.now second.now) }
{
    beet_two_books::agreement(&watched(two), first, second)
}
