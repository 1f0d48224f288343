//! Two worlds of a sale that one server cannot tell apart: their bids, and how the words of one are mapped to those of
//! the other.
#![tactic(auto)]

mod agreeing;
mod bidders;
mod bids;
mod mapping;
mod results;

pub use agreeing::{SaleFault, agreement};
pub use beet_sale_file::SaleBid;
pub use bidders::{input_lines, map_bidders};
pub use bids::row_at;
pub use mapping::map_sale;
pub use results::{SaleResult, result_of};
