//! The bids of a sale.

ghost use Rattle.std.specs.Prelude.{◌≡◌, ◌<◌, Some, length, slice_get};

use beet_sale_file::SaleBid;

/// The bid at a place, with its mark.
pub fn row_at(bids: &[SaleBid], place: usize) -> SaleBid
    requires { place < length bids.now }
    ensures { slice_get bids.now place ≡ Some result }
{
    bids[place]
}
