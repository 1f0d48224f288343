//! Five servers, all that they have sent, and which of it was delivered.
#![tactic(auto)]

mod laws_of_worlds;
mod member;
mod world;

pub use laws_of_worlds::{five_servers_end_alike, servers_stand_after_all_events};
pub use world::{FiveDelivery, FiveEvent, FiveWorld};
