//! The two ends of a link.

ghost use Rattle.std.specs.Prelude.{◌≡◌, IfNone, IfSome};
ghost use Rattle.beet_link.specs.Ends.{IsNext, one_on};

use crate::parcel::Parcel;
use crate::sleeper::Sleeper;
use beet_queue::{Puts, Queue, QueuePass, Takes};
use beet_round::RoundMessage;
use std::alloc::Global;
use std::hint::spin_loop;
use std::marker::Model;
use std::sync::{Arc, Wait};
use std::thread::yield_now;
use std::time::{Clock, Duration, Instant};

/// The most looks of a receiver before it gives up its turn or sleeps. They take some twenty microseconds, longer than
/// a message is on its way if each server has a processor, and not much longer than to sleep and to be woken.
pub(crate) const MOST_LOOKS: u32 = 2_000;

/// How many more looks a receiver makes the next time if it found its message by looking. If it looked in vain, it
/// makes about half as many: so it soon looks little if the other server cannot run meanwhile. A message that was there
/// before it looked changes nothing.
const MORE_LOOKS: u32 = 16;

/// If a turn comes back later than this, in microseconds, the receiver takes it that a busy process had it. A server
/// mostly has it for a few.
const LONGEST_TURN: u64 = 200;

/// The most turns that a receiver gives up for one message before it sleeps.
const MOST_TURNS: u32 = 1_000;

/// What the two ends of a link share: the messages on their way, and what the receiver sleeps on.
#[derive(Drop)]
pub struct Line {
    pub queue: Queue<Parcel>,
    pub receiver: Sleeper,
}

/// The end of the server that puts. Contracts see the messages of the run from this server to the
/// other, in order, how many of them were put, and for how many the link has room.
#[derive(Drop)]
pub struct LinkTx {
    pub(crate) line: Arc<Line, Global>,
    pub(crate) pass: QueuePass<Parcel>,
}

impl Model for LinkTx {
    ghost use Rattle.std.specs.Prelude.{◌≡◌, ◌≤◌, true};
    ghost use Rattle.std.specs.Arc.{arc_value};
    ghost use Rattle.crossbeam_queue.specs.Passes.{view as known, IsPassOf, ruled_capacity};
    ghost use Rattle.beet_field.specs.Trio.{with_member};
    ghost use Rattle.beet_field.specs.declared.point.Point.TheVariants.{One};
    ghost use Rattle.beet_queue.specs.Rule.{all_named, no_one};
    ghost use Rattle.beet_link.specs.Ends.{LinkEnd, end_at};

    ghost Value = { LinkEnd };

    ghost view = { λ t. end_at (ruled_capacity (arc_value t.line).queue)
        (known t.pass).streams.one (known t.pass).put.one };

    ghost invariant = { λ t. IsPassOf (arc_value t.line).queue t.pass
        × ((known t.pass).puts ≡ with_member no_one One true)
        × (all_named (known t.pass).streams ≤ ruled_capacity (arc_value t.line).queue) };
}

/// The end of the server that takes. Contracts see the messages of the run from the other server to
/// this one, in order, how many of them were taken, and for how many the link has room.
#[derive(Drop)]
pub struct LinkRx {
    pub(crate) line: Arc<Line, Global>,
    pub(crate) pass: QueuePass<Parcel>,
    /// How often it looks for the next message before it gives up its turn or sleeps.
    pub(crate) looks: u32,
    /// Whether it gives up its turn before it sleeps.
    pub(crate) yields: bool,
}

impl Model for LinkRx {
    ghost use Rattle.std.specs.Prelude.{◌≡◌, true};
    ghost use Rattle.std.specs.Arc.{arc_value};
    ghost use Rattle.crossbeam_queue.specs.Passes.{view as known, IsPassOf, ruled_capacity};
    ghost use Rattle.beet_link.specs.Ends.{LinkEnd, count_taken, end_at};

    ghost Value = { LinkEnd };

    ghost view = { λ t. end_at (ruled_capacity (arc_value t.line).queue)
        (known t.pass).streams.one (count_taken (known t.pass).taken) };

    ghost invariant = { λ t. IsPassOf (arc_value t.line).queue t.pass
        × ((known t.pass).takes ≡ true) };
}

impl LinkTx {
    /// Puts the next message of the run, which moves to the other server as it lies, and wakes that server if it
    /// sleeps. It is never refused, never waits, and takes no memory.
    pub fn put<R: Wait>(&mut self, rt: &R, message: Box<RoundMessage>)
        requires { IsNext self.old message.value }
        ensures { self.new ≡ one_on self.old }
    {
        match self
            .line
            .queue
            .push_as::<Puts, R>(rt, &mut self.pass, Parcel { message })
        {
            Ok(()) => self.line.receiver.wake(),
            Err(_) => unreachable!(),
        }
    }
}

impl LinkRx {
    /// Takes the front of the link. `None` if the other server's next put has not ended. No memory is taken.
    pub fn take<R: Wait>(&mut self, _rt: &R) -> Option<Box<RoundMessage>>
        ensures taken { IfSome result (λ m. IsNext self.old m.value × (self.new ≡ one_on self.old)) }
        ensures empty { IfNone result (self.new ≡ self.old) }
    {
        let parcel = self.line.queue.try_pop_as::<Takes>(&mut self.pass)?;
        Some(parcel.message)
    }

    /// Takes the front of the link, once it is there. No memory is taken.
    pub fn wait<R: Wait + Clock>(&mut self, rt: &R) -> Box<RoundMessage>
        ensures { IsNext self.old result.value × (self.new ≡ one_on self.old) }
    {
        if let Some(message) = self.take(rt) {
            return message;
        }
        match self.look(rt) {
            Some(message) => {
                self.looks = self.looks.saturating_add(MORE_LOOKS).min(MOST_LOOKS);
                message
            }
            None => {
                self.looks = self.looks / 2 + 1;
                match self.give_way(rt) {
                    Some(message) => message,
                    None => self.sleep(rt),
                }
            }
        }
    }

    /// Takes the front of the link if it is there soon.
    fn look<R: Wait>(&mut self, rt: &R) -> Option<Box<RoundMessage>>
        ensures taken { IfSome result (λ m. IsNext self.old m.value × (self.new ≡ one_on self.old)) }
        ensures empty { IfNone result (self.new ≡ self.old) }
    {
        for _ in 0..self.looks {
            if let Some(message) = self.take(rt) {
                return Some(message);
            }
            spin_loop();
        }
        None
    }

    /// Gives up its turn until the front of the link is there, and takes it. That costs less than to sleep and to be
    /// woken if only servers share the processor. A busy process may keep the turn for a whole time slice: after one
    /// turn longer than `LONGEST_TURN` this receiver gives up none for the rest of the run. It stops with `None` then,
    /// after `MOST_TURNS` turns, and if the clock cannot be read.
    fn give_way<R: Wait + Clock>(&mut self, rt: &R) -> Option<Box<RoundMessage>>
        ensures taken { IfSome result (λ m. IsNext self.old m.value × (self.new ≡ one_on self.old)) }
        ensures empty { IfNone result (self.new ≡ self.old) }
    {
        if !self.yields {
            return None;
        }
        let longest = Duration::from_micros(LONGEST_TURN);
        let mut before = Instant::now(rt).ok()?;
        for _ in 0..MOST_TURNS {
            yield_now();
            let after = Instant::now(rt).ok()?;
            self.yields = after.duration_since(before) <= longest;
            if let Some(message) = self.take(rt) {
                return Some(message);
            }
            if !self.yields {
                return None;
            }
            before = after;
        }
        None
    }

    /// Sleeps until the front of the link is there, and takes it.
    fn sleep<R: Wait>(&mut self, rt: &R) -> Box<RoundMessage>
        ensures { IsNext self.old result.value × (self.new ≡ one_on self.old) }
    {
        for _ in rt.forever() {
            self.line.receiver.lie_down();
            if let Some(message) = self.take(rt) {
                self.line.receiver.get_up();
                return message;
            }
            self.line.receiver.sleep(rt);
        }
        unreachable!()
    }
}
