//! Two worlds of a script that look alike to one server.
//!
//! A server that sees its points, the messages to it and the opened numbers cannot tell one world
//! from another: for each choice of the other servers' random words in the first world there is
//! exactly one in the second that shows it the same.
#![tactic(auto)]

mod map;
mod moving;
mod numbers;
mod refusals;
mod secrets;
mod stage;
mod walk;
mod wires;
mod words;

pub use map::gate_map;
pub use moving::{deals, draws, moved, multiply, secret, word_at};
pub use numbers::number_at;
pub use refusals::GateFault;
pub use secrets::Secrets;
pub use wires::append_lets;
