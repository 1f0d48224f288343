//! The job `audit`: three transcripts are read, and it is told whether they are of one run.
#![tactic(auto)]

mod answering;
mod auditing;
mod reading;
mod refusing;

pub use auditing::audit_files;
pub use reading::{AuditFiles, ReadViews};
pub use refusing::refused_line;
