//! One server with its four ends, and the loop that runs it. The loop sees its own core, its ends and its seat at the
//! gate; of another server it sees the messages alone.
#![tactic(auto)]

mod laws;
mod making;
mod notes;
mod station;

pub use laws::ended_servers_are_as_after_lockstep;
pub use making::{Links, all_links, mails, stations};
pub use notes::{DeskNote, Nobody, Sink};
pub use station::{Mail, Station, put_both, serve};
