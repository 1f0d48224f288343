//! The job `sale`: three servers hold a sealed sale, and its winner and price are told.
#![tactic(auto)]

mod running;
mod telling;

pub use running::{SaleFiles, sale};
pub use telling::sale_reply;
