//! The reader of schedules for the lots of a session.

ghost use Rattle.std.specs.Prelude.{◌<◌, ◌≤◌, All, IfOk, length};
ghost use Rattle.beet_forms.specs.Faults.{Answers};
ghost use Rattle.beet_forms.specs.declared.faults.TheConstants.{LONGEST_FILE};
ghost use Rattle.beet_lot_files.specs.LotSchedules.{lot_schedule_of};

use beet_forms::ReadFault;
use beet_lots::LotDelivery;
use beet_world::read_schedule_rows;
use std::alloc::Global;

/// The deliveries of a schedule file for so many lots, in order: the row `beet-lot-schedule,1` and then at most
/// 1,000,000 rows `LOT,FROM,TO,ROUND`, as `read_schedule_rows` reads them. A row is not of its form that has not four
/// fields, whose LOT is no number from 1 to the number of lots, or of which the others are not as in a schedule.
pub fn read_lot_schedule(
    alloc: Global,
    lots: u32,
    bytes: &[u8],
) -> Result<Vec<LotDelivery>, ReadFault>
    requires { length bytes.now ≤ LONGEST_FILE }
    ensures reads { Answers (λ deliveries. deliveries.items) (lot_schedule_of lots bytes.now) result }
    ensures within { IfOk result (λ deliveries. All (λ delivery. delivery.lot < lots) deliveries.items) }
{
    read_schedule_rows(alloc, lots, b"beet-lot-schedule", bytes)
}
