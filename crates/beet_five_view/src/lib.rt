//! What two of five servers see of an auction together, as one file; the words of five servers and of the bidders as
//! another; and what the two servers cannot tell from it.
#![tactic(auto)]

mod laws;
mod words;
mod writing;

pub use laws::joint_transcripts_are_equal;
pub use words::write_five_words;
pub use writing::write_joint;
