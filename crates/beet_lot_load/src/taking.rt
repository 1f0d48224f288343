//! The lots of a session are read, and each is handed on before the next one is read.

ghost use Rattle.std.specs.Prelude.{◌≤◌, length};
ghost use Rattle.beet_errand.specs.Fetches.{ReadsFor};
ghost use Rattle.beet_lots.specs.declared.lots.TheConstants.{MOST_LOTS};
ghost use Rattle.beet_lot_load.specs.Lots.{lots_errand};
ghost use Rattle.beet_lot_load.specs.Taking.{HasTaken};

use crate::reading::load_lot;
use beet_book::Servers;
use beet_errand::Stop;
use beet_load::Loaded;
use beet_lot_files::LotRow;
use beet_store::Shelf;
use std::alloc::Global;

/// What takes the lots of a session, one after another.
pub trait TakesLots: Drop {
    ghost use Rattle.std.specs.Prelude.{◌≡◌, ◌*◌, ◌++◌, ◌∷◌, [], List, IfErr, OnOk};
    ghost use Rattle.beet_load.specs.Loading.{AuctionWithBidders, IsKeptOf};
    ghost use Rattle.beet_lot_files.specs.declared.session_file.LotRow.{LotRow as Row};
    ghost use Rattle.beet_lot_load.specs.Taking.{IsNext};

    /// It has taken these lots, which are the first of these rows, and no others.
    ghost has_taken: { List Row → List AuctionWithBidders → Self → Type 0 };

    /// It, before the first lot. It takes no memory.
    fn begin(alloc: Global) -> Self
        ensures { (rows : List Row) → has_taken rows [] result };

    /// Takes one lot more, of this row. Want of memory is the only error.
    fn take(&mut self, alloc: Global, row: &LotRow, loaded: Loaded) -> Result<(), Stop>
        requires { (read : AuctionWithBidders) × IsKeptOf loaded read }
        ensures memory { IfErr result (λ stop. stop ≡ Stop.OutOfMemory) }
        ensures taken { (rows : List Row) (lots : List AuctionWithBidders) (read : AuctionWithBidders) →
            has_taken rows lots self.old → IsNext rows lots row.now → IsKeptOf loaded read →
            OnOk result (has_taken rows (lots ++ read ∷ []) self.new) };
}

/// Reads the lots of these rows in order, counted from 0, and hands on each.
pub fn take_lots<S: Shelf, L: TakesLots>(
    alloc: Global,
    shelf: &mut S,
    sources: &Servers,
    rows: &[LotRow],
) -> Result<L, Stop>
    requires { length rows.now ≤ MOST_LOTS }
    ensures { ReadsFor (HasTaken L.has_taken rows.now) (S.seen shelf.old) (S.seen shelf.new)
        (lots_errand sources.now rows.now) result }
{
    let mut taken = L::begin(alloc);
    for (i, row) in rows.iter().enumerate() {
        let loaded = load_lot(alloc, shelf, sources, i as u32, row)?;
        taken.take(alloc, row, loaded)?;
    }
    Ok(taken)
}
