//! What jobs have in common that compare two worlds: the first difference that is told of them, and the refusal by its
//! line.
#![tactic(auto)]

mod refusing;

pub use refusing::{refuse_bidder, refuse_worlds};
