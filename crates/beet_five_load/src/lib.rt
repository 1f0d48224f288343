//! Reading what a job of five servers begins with: an auction with chain gates, the seeds of its servers, its book, and
//! the bids and words of its bidders.
#![tactic(auto)]

mod laws;
mod loading;
mod server_file;
mod servers;
mod setting;
mod wanted;
mod whole;
mod whole_loading;

pub use laws::trees_have_this_reason;
pub use loading::{FiveLoaded, load_five};
pub use setting::{GATES_ROW, TREE_GATES};
pub use whole::FiveWhole;
pub use whole_loading::load_five_whole;
