//! How a link is made.

ghost use Rattle.std.specs.Prelude.{◌≡◌, ◌≢◌, ◌≤◌, ◌<◌, IfOk};
ghost use Rattle.beet_server.specs.Cores.{AreFresh};
ghost use Rattle.beet_queue.specs.Rule.{all_named};
ghost use Rattle.beet_link.specs.Ends.{end_at};
ghost use Rattle.beet_link.specs.Streams.{link_at};

use crate::ends::{Line, LinkRx, LinkTx, MOST_LOOKS};
use crate::parcel::Parcel;
use crate::sleeper::Sleeper;
use beet_field::{Point, Trio};
use beet_gates::Script;
use beet_queue::{GivesAway, Named, Queue, ToOne};
use beet_server::ServerCore;
use std::alloc::{AllocError, Global};
use std::marker::Brand;
use std::sync::Arc;

/// The link for the messages of the run of three fresh servers from one of them to another. It has
/// room for as many messages as the script has rounds, and at least for one. That is for all of them, so
/// that no put is refused; no other call takes memory.
pub fn link<S: Script<3>>(
    alloc: Global,
    cores: &Trio<ServerCore<S>>,
    from: Point,
    to: Point,
) -> Result<(LinkTx, LinkRx), AllocError>
    requires fresh { AreFresh S.batch_of S.inputs_of cores.now }
    requires apart { from ≢ to }
    ensures put { IfOk result (λ ends. ends.0 ≡ link_at S.batch_of S.inputs_of S.rounds_of cores.now from to 0) }
    ensures take { IfOk result (λ ends. ends.1 ≡ link_at S.batch_of S.inputs_of S.rounds_of cores.now from to 0) }
{
    let capacity = (cores.one.script().rounds() as usize).max(1);
    open::<Brand, S>(alloc, cores, from, to, capacity)
}

/// A link with room for so many messages.
fn open<K: Named<Parcel>, S: Script<3>>(
    alloc: Global,
    _cores: &Trio<ServerCore<S>>,
    _from: Point,
    _to: Point,
    capacity: usize,
) -> Result<(LinkTx, LinkRx), AllocError>
    requires positive { 0 < capacity }
    requires room { all_named K.streams ≤ capacity }
    ensures { IfOk result (λ ends. (ends.0 ≡ end_at capacity K.streams.one 0)
        × (ends.1 ≡ end_at capacity K.streams.one 0)) }
{
    let (queue, mut first) = Queue::ruled(alloc, capacity)?;
    let sender = queue.another::<GivesAway<K, ToOne>>(&mut first);
    let line = Line {
        queue,
        receiver: Sleeper::new(),
    };
    let line = Arc::new(alloc, line)?;
    let theirs = Arc::try_clone(&line)?;
    Ok((
        LinkTx { line, pass: sender },
        LinkRx {
            line: theirs,
            pass: first,
            looks: MOST_LOOKS,
            yields: true,
        },
    ))
}
