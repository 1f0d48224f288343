//! The coefficient words of a second world of a script among five servers, two of which put together what they see.
//!
//! The two servers see their points, the messages to them and the opened numbers. For each choice of the others' random
//! words in the first world there is exactly one in the second that shows the two the same, and it is computed here.
#![tactic(auto)]

mod begins;
mod lists;
mod map;
mod moving;
mod stage;
mod walk;
mod watchers;

pub use begins::FiveSecrets;
pub use map::map_coefficients;
pub use moving::move_pair;
pub use watchers::Watchers;
