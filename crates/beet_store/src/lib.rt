//! The outside, as the program meets it: a shelf that files are fetched from, and a desk that files and a text are
//! given to. Each tells what it was asked and what it answered. The memory types tell what they hold besides, and fail
//! when they are told; the host types reach the files of the system and standard output, and are trusted.
#![tactic(auto)]

mod calls;
mod counting;
mod desk;
mod history;
mod host;
mod host_desk;
mod memory;
mod memory_desk;
mod shelf;

pub use desk::{Desk, PutFault};
pub use host::HostShelf;
pub use host_desk::HostDesk;
pub use memory::{Held, MemoryShelf};
pub use memory_desk::MemoryDesk;
pub use shelf::{FetchFault, Shelf};
