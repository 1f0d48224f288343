//! Which of the four messages of a server's round is to whom.

ghost use Rattle.std.specs.Prelude.{◌≡◌, ◌≢◌, ◌<◌, ◌-◌, Some, slice_get};
ghost use Rattle.beet_weights.specs.Quadratics.{IsServer};
ghost use Rattle.beet_five_server.specs.Network.{rank};

use crate::mail::FiveMessage;

/// The message at a place of four.
fn message_at(messages: &[FiveMessage; 4], place: u32) -> &FiveMessage
    requires { place < 4 }
    ensures { Some result.now ≡ slice_get messages.now place }
{
    let [one, two, three, four] = messages;
    match place {
        0 => one,
        1 => two,
        2 => three,
        _ => four,
    }
}

/// The place of a peer among the four of a server, in rising order.
fn rank(from: u32, to: u32) -> u32
    requires from { IsServer from }
    requires to { IsServer to }
    requires other { from ≢ to }
    ensures value { result ≡ rank from to }
    ensures small { result < 4 }
{
    if to < from { to - 1 } else { to - 2 }
}

/// The message of server `from` to server `to`, both 1 to 5, among its four of a round in rising order of the peers.
pub fn message_to(messages: &[FiveMessage; 4], from: u32, to: u32) -> &FiveMessage
    requires from { IsServer from }
    requires to { IsServer to }
    requires other { from ≢ to }
    ensures { slice_get messages.now (rank from to) ≡ Some result.now }
{
    message_at(messages, rank(from, to))
}
