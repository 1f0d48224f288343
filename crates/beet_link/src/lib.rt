//! The link that carries the messages of one server to another, in order, and the gate that a
//! server meets before it puts its messages.
#![tactic(auto)]

mod ends;
mod gates;
mod making;
mod parcel;
mod sleeper;

pub use ends::{LinkRx, LinkTx};
pub use gates::{FreeGate, Gate, GateNote};
pub use making::link;
