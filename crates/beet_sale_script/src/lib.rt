//! The script of a sealed sale at the second price, as a value.
#![tactic(auto)]

mod script;
mod walk;

pub use beet_sale_plan::SaleEnd;
pub use script::SaleScript;
