//! Reading what a job of a sale begins with: the sale, the words of its servers, and those of its bidders.
#![tactic(auto)]

mod bidders;
mod loading;

pub use loading::{SaleWithWords, load_sale, read_sale_file, sale_counts};
