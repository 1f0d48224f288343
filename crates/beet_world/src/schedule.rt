//! The reader of schedules.

ghost use Rattle.std.specs.Prelude.{◌≡◌, ◌≤◌, ℕ, List, Option, length};
ghost use Rattle.beet_forms.specs.Faults.{Answers};
ghost use Rattle.beet_forms.specs.Rows.{rows_of};
ghost use Rattle.beet_world.specs.Schedules.{delivery_in, delivery_at, delivery_named, deliveries_of, schedule_in};
ghost use Rattle.beet_world.specs.Schedules.{schedule_of};

use beet_field::Point;
use beet_forms::{LONGEST_FILE, ReadFault, Row, RowReader, number, three_fields};
use std::alloc::Global;

/// The most bytes of a schedule file.
pub const SCHEDULE_LIMIT: u64 = 16_777_216;

/// The reason against a row that is missing or not of its form.
pub const BAD_DELIVERY: u32 = 1;

/// The reason against a row that is one too many.
pub const TOO_MANY_DELIVERIES: u32 = 2;

/// The most deliveries of a schedule.
pub const MOST_DELIVERIES: u32 = 1_000_000;

/// The number of the first row that is one row too many.
pub const ONE_DELIVERY_TOO_MANY: u32 = MOST_DELIVERIES + 2;

/// The latest round that a schedule can name.
pub const LATEST_ROUND: u64 = 999_999;

/// The message that one server sends to another in a round is delivered.
#[derive(Clone, Copy, PartialEq, Eq)]
pub struct Delivery {
    /// The sender.
    pub from: Point,
    /// The receiver, which is not the sender.
    pub to: Point,
    /// The round of the message, from 0.
    pub round: u32,
}

/// What the rows of a schedule after the first are read as.
pub trait ScheduleRow: Drop {
    /// The delivery of a row in a schedule for so many lots, or none if the row is not of its form.
    ghost row_in: { ℕ → List (List ℕ) → Option Self };

    /// The delivery of a row in a schedule for so many lots.
    fn read(lots: u32, row: &Row) -> Option<Self>
        ensures { result ≡ row_in lots row.now };
}

/// The delivery of the fields FROM, TO and ROUND, or none if they are not of their form.
pub fn read_delivery(from: &[u8], to: &[u8], round: &[u8]) -> Option<Delivery>
    ensures { result ≡ delivery_named from.now to.now round.now }
{
    let (Some(from), Some(to)) = (Point::of_digit(from), Point::of_digit(to)) else {
        return None;
    };
    let Ok(round) = number(round, LATEST_ROUND) else {
        return None;
    };
    if from.number() == to.number() {
        return None;
    }
    Some(Delivery {
        from,
        to,
        round: round as u32,
    })
}

/// The delivery of a row, or none if the row is not of its form.
fn read_row(row: &Row) -> Option<Delivery>
    ensures { result ≡ delivery_in row.now }
{
    let (from, to, round) = three_fields(row)?;
    read_delivery(from, to, round)
}

impl ScheduleRow for Delivery {
    ghost use Rattle.beet_world.specs.Schedules.{delivery_in};

    ghost row_in = { λ _ row. delivery_in row };

    fn read(_lots: u32, row: &Row) -> Option<Delivery> {
        read_row(row)
    }
}

/// The delivery of the row with this number, or the reason against the row.
fn read_at<D: ScheduleRow>(lots: u32, number: u32, row: &Row) -> Result<D, u32>
    ensures { result ≡ delivery_at (D.row_in lots) number row.now }
{
    if number == ONE_DELIVERY_TOO_MANY {
        return Err(TOO_MANY_DELIVERIES);
    }
    D::read(lots, row).ok_or(BAD_DELIVERY)
}

/// The deliveries, of the rows that are left, which are those after the first.
fn read_deliveries<D: ScheduleRow>(
    alloc: Global,
    lots: u32,
    rows: &mut RowReader,
    row: &mut Row,
) -> Result<Vec<D>, ReadFault>
    requires { length rows.old ≤ LONGEST_FILE }
    ensures { Answers (λ deliveries. deliveries.items) (deliveries_of (D.row_in lots) rows.old) result }
{
    let mut deliveries = Vec::new(alloc);
    while rows.next(row)? {
        let number = deliveries.len() as u32 + 2;
        match read_at(lots, number, row) {
            Ok(delivery) => deliveries.push(delivery)?,
            Err(reason) => return Err(ReadFault::at_row(number, reason)),
        }
    }
    Ok(deliveries)
}

/// The deliveries of a schedule of this kind, of all its rows.
fn read_rows<D: ScheduleRow>(
    alloc: Global,
    lots: u32,
    kind: &[u8],
    rows: &mut RowReader,
    row: &mut Row,
) -> Result<Vec<D>, ReadFault>
    requires { length rows.old ≤ LONGEST_FILE }
    ensures { Answers (λ deliveries. deliveries.items) (schedule_in (D.row_in lots) kind.now rows.old) result }
{
    if !rows.begins_with(row, kind, b"1")? {
        return Err(ReadFault::at_row(1, BAD_DELIVERY));
    }
    read_deliveries(alloc, lots, rows, row)
}

/// The deliveries of a schedule file of this kind for so many lots, in order: the row of the kind and `1`, and then at
/// most 1,000,000 rows. An error is `OutOfMemory`, or a fault in the file.
///
/// The first row with a fault is named. Its reason is [`TOO_MANY_DELIVERIES`] for row 1,000,002, and else
/// [`BAD_DELIVERY`]: for a row 1 that is missing or another one, and for a row that is not of its form.
pub fn read_schedule_rows<D: ScheduleRow>(
    alloc: Global,
    lots: u32,
    kind: &[u8],
    bytes: &[u8],
) -> Result<Vec<D>, ReadFault>
    requires { length bytes.now ≤ LONGEST_FILE }
    ensures { Answers (λ deliveries. deliveries.items)
        (schedule_in (D.row_in lots) kind.now (rows_of bytes.now)) result }
{
    let mut rows = RowReader::new(alloc, bytes);
    let mut row = Row::new(alloc);
    read_rows(alloc, lots, kind, &mut rows, &mut row)
}

/// The deliveries of a schedule file, in order: the row `beet-schedule,1` and then at most 1,000,000 rows
/// `FROM,TO,ROUND`, as `read_schedule_rows` reads them. A row is not of its form if it has not three fields, if FROM or
/// TO is not `1`, `2` or `3`, if FROM is TO, or if ROUND is no number up to 999,999.
pub fn read_schedule(alloc: Global, bytes: &[u8]) -> Result<Vec<Delivery>, ReadFault>
    requires { length bytes.now ≤ LONGEST_FILE }
    ensures { Answers (λ deliveries. deliveries.items) (schedule_of bytes.now) result }
{
    read_schedule_rows(alloc, 1, b"beet-schedule", bytes)
}
