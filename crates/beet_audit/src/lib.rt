//! The audit of three transcripts: whether they are the three views of one run over bids that the rules allow.
#![tactic(auto)]

mod auditing;
mod bidders;
mod curves;
mod fault;
mod headers;
mod knowing;
mod laws;
mod messages;
mod points;
mod running;
mod tapes;

pub use auditing::{Audited, audit};
pub use fault::{AuditFault, Side};
pub use laws::{nothing_is_wrong_with_one_run, the_views_of_a_book_are_of_one_run};
