//! What a server meets in each round.

use beet_field::Point;

/// Which server meets a gate, and in which round.
#[derive(Clone, Copy, PartialEq, Eq, Debug)]
pub struct GateNote {
    /// The server that meets the gate.
    pub server: Point,
    /// Its round, from 0.
    pub round: u32,
}

/// What each server meets in each round, before it puts its messages of the round. A gate is told
/// which round it is, and nothing else of the run. It may hold a server: a type whose `meet` waits
/// keeps the runtime itself.
pub trait Gate: Sync {
    /// What one server has of the gate, for the whole run.
    type Seat: Send + Drop;

    /// The seat of a server. Each server takes one.
    fn seat(&self, server: Point) -> Self::Seat;

    /// Meets the server of this seat.
    fn meet(&self, seat: &mut Self::Seat, note: GateNote);
}

/// The gate that does nothing.
pub struct FreeGate;

impl Gate for FreeGate {
    type Seat = ();

    fn seat(&self, _server: Point) {}

    fn meet(&self, _seat: &mut (), _note: GateNote) {}
}
