//! Three servers in one place: `lockstep` runs them round by round, and a `World` delivers their
//! messages in any order, with repeats, as a schedule of deliveries says. Schedules are files.
#![tactic(auto)]

mod giving;
mod schedule;
mod stepping;
mod world;

pub use schedule::{
    BAD_DELIVERY, Delivery, LATEST_ROUND, MOST_DELIVERIES, ONE_DELIVERY_TOO_MANY, SCHEDULE_LIMIT,
    ScheduleRow, TOO_MANY_DELIVERIES, read_delivery, read_schedule, read_schedule_rows,
};
pub use stepping::lockstep;
pub use world::{Event, World};
