//! A sealed sale at the second price, and what one server can tell of it.
#![tactic(auto)]

mod laws;
mod mapping;
mod writing;

pub use laws::{sales_that_sell_alike_look_the_same, winning_bids_look_alike};
pub use mapping::sale_map;
pub use writing::write_sale_view;
