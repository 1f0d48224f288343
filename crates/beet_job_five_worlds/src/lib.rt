//! The job `five_worlds`: two worlds of an auction among five servers, of which two servers see the same together, and
//! the words of the second.
#![tactic(auto)]

mod answering;
mod comparing;
mod laws;
mod reading;
mod seeing;

pub use comparing::five_worlds;
pub use laws::differences_for_two_are_told;
