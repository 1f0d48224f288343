//! How the queue of notes is made.

ghost use Rattle.std.specs.Prelude.{◌≡◌, ◌≤◌, ◌<◌, ◌*◌, ◌^◌, IfOk, max};
ghost use Rattle.beet_field.specs.Trio.{member};
ghost use Rattle.beet_field.specs.declared.point.Point.{Point};
ghost use Rattle.beet_server.specs.Cores.{AreFresh};
ghost use Rattle.beet_queue.specs.Rule.{all_named};
ghost use Rattle.beet_desk.specs.Ends.{AreSmall, AreFrom, sender_at_start, receiver_at_start};
ghost use Rattle.beet_station.specs.Notes.{notes_from};

use crate::ends::{NoteRx, NoteTx};
use beet_field::{Point, Trio};
use beet_gates::Script;
use beet_queue::{GivesAway, Named, Queue, ToOne, ToThree, ToTwo};
use beet_server::ServerCore;
use beet_station::DeskNote;
use std::alloc::{AllocError, Global};
use std::marker::Brand;
use std::sync::Arc;

/// The queue for the notes of the run of three fresh servers: an end for each of them, and that of the desk. It has
/// room for a note of each server on each round that the script may have, and at least for three. That is for all of
/// them, so that no push is refused; no other call takes memory. The only error is want of memory.
pub fn note_queue<S: Script<3>>(
    alloc: Global,
    cores: &Trio<ServerCore<S>>,
) -> Result<(Trio<NoteTx>, NoteRx), AllocError>
    requires fresh { AreFresh S.batch_of S.inputs_of cores.now }
    requires few { 3 * S.rounds_of cores.now.one.script < 2 ^ 31 }
    ensures senders { IfOk result (λ ends. (s : Point) → member ends.0 s
        ≡ sender_at_start ends.1.queue (notes_from S.batch_of S.inputs_of S.rounds_of cores.now) s) }
    ensures receiver { IfOk result (λ ends. ends.1
        ≡ receiver_at_start ends.1.queue (max (3 * S.rounds_of cores.now.one.script) 3)
        (notes_from S.batch_of S.inputs_of S.rounds_of cores.now)) }
    ensures small { IfOk result (λ ends. (s : Point) → AreSmall (member ends.1.notes s)) }
{
    let capacity = (3 * cores.one.script().rounds() as usize).max(3);
    open::<Brand, S>(alloc, cores, capacity)
}

/// A queue with room for so many notes.
fn open<K: Named<DeskNote>, S: Script<3>>(
    alloc: Global,
    _cores: &Trio<ServerCore<S>>,
    capacity: usize,
) -> Result<(Trio<NoteTx>, NoteRx), AllocError>
    requires positive { 0 < capacity }
    requires room { all_named K.streams ≤ capacity }
    requires named { (s : Point) → AreFrom s (member K.streams s) }
    ensures senders { IfOk result (λ ends. (s : Point) → member ends.0 s ≡ sender_at_start ends.1.queue K.streams s) }
    ensures receiver { IfOk result (λ ends. ends.1 ≡ receiver_at_start ends.1.queue capacity K.streams) }
{
    let (queue, mut pass) = Queue::ruled(alloc, capacity)?;
    let one = queue.another::<GivesAway<K, ToOne>>(&mut pass);
    let two = queue.another::<GivesAway<K, ToTwo>>(&mut pass);
    let three = queue.another::<GivesAway<K, ToThree>>(&mut pass);
    let queue = Arc::new(alloc, queue)?;
    let of_one = Arc::try_clone(&queue)?;
    let of_two = Arc::try_clone(&queue)?;
    let of_three = Arc::try_clone(&queue)?;
    let senders = Trio {
        one: NoteTx {
            queue: of_one,
            pass: one,
            server: Point::One,
        },
        two: NoteTx {
            queue: of_two,
            pass: two,
            server: Point::Two,
        },
        three: NoteTx {
            queue: of_three,
            pass: three,
            server: Point::Three,
        },
    };
    Ok((senders, NoteRx { queue, pass }))
}
