//! The rows of schedules for several lots.

ghost use Rattle.std.specs.Prelude.{◌≡◌};
ghost use Rattle.beet_lots.specs.LotRows.{lot_delivery_in, lot_named};

use crate::lots::LotDelivery;
use beet_forms::{Row, four_fields, number};
use beet_world::{ScheduleRow, read_delivery};

/// The lot that a field names by its number from 1, of so many lots.
fn read_lot(lots: u32, field: &[u8]) -> Option<u32>
    ensures { result ≡ lot_named lots field.now }
{
    match number(field, lots as u64) {
        Ok(number) if number > 0 => Some(number as u32 - 1),
        _ => None,
    }
}

/// The delivery of a row `LOT,FROM,TO,ROUND`, or none if the row is not of its form.
fn read_row(lots: u32, row: &Row) -> Option<LotDelivery>
    ensures { result ≡ lot_delivery_in lots row.now }
{
    let (lot, from, to, round) = four_fields(row)?;
    let lot = read_lot(lots, lot)?;
    let delivery = read_delivery(from, to, round)?;
    Some(LotDelivery { lot, delivery })
}

impl ScheduleRow for LotDelivery {
    ghost use Rattle.beet_lots.specs.LotRows.{lot_delivery_in};

    ghost row_in = { lot_delivery_in };

    fn read(lots: u32, row: &Row) -> Option<LotDelivery> {
        read_row(lots, row)
    }
}
