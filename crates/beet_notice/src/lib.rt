//! A shelf that is watched for seeds that come twice. Two parties that draw their words from one seed have one secret,
//! and what one of them sends tells of the other.
#![tactic(auto)]

mod seeds;
mod watch;
mod watched;

pub use watched::Watched;
