//! The run of a sealed sale among three servers, and what one of them sees of it.
#![tactic(auto)]

mod laws;
mod running;
mod seeing;

pub use laws::{bids_sell_so, each_server_ends_a_sale_so};
pub use running::{end_of_sale, hold_sale};
pub use seeing::{SeenSale, see_sale};
