//! What a run of the program does outside. Its job fetches one file after another, judges each before the next, and
//! ends with a status, the files that it puts, and a text. These go out to a desk: the files are put, one after
//! another, and then the text is said.
#![tactic(auto)]

mod answer;
mod fetching;
mod giving;
mod running;
mod worlds;

pub use answer::{NewFile, OwnRefusal, Refusal, Reply, Status, Stop};
pub use fetching::{TOO_LONG, fetch_file, judge, refuse};
pub use giving::give_answer;
pub use running::end_run;
