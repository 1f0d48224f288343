//! The ends of the queue of notes.

ghost use Rattle.std.specs.Prelude.{◌≡◌, ◌≤◌, ◌<◌, MatchOption, length};
ghost use Rattle.beet_field.specs.declared.TheConstants.{MOST_NUMBERS};
ghost use Rattle.beet_station.specs.Notes.{a_note};
ghost use Rattle.beet_field.specs.Trio.{member};
ghost use Rattle.beet_desk.specs.Ends.{AreFirst, AreOf, Hands, IsNextNote, one_pushed, one_received, IsNextTaken};
ghost use Rattle.beet_desk.specs.Ends.{left_after, none_left};

use arrayvec::ArrayVec;
use beet_field::{Fe, MOST_NUMBERS, Point, Trio};
use beet_queue::{Puts, Queue, QueuePass, Takes, TakesBack};
use beet_station::{DeskNote, Sink};
use std::alloc::Global;
use std::marker::Model;
use std::sync::{Arc, Wait};

/// The end of a server, which pushes its notes. Contracts see which queue it is of, its server, the notes of the server
/// in the run, in order, and how many of them were pushed.
#[derive(Drop)]
pub struct NoteTx {
    pub(crate) queue: Arc<Queue<DeskNote>, Global>,
    pub(crate) pass: QueuePass<DeskNote>,
    pub(crate) server: Point,
}

impl Model for NoteTx {
    ghost use Rattle.std.specs.Prelude.{◌≡◌, ◌≤◌, true};
    ghost use Rattle.std.specs.Arc.{arc_value};
    ghost use Rattle.crossbeam_queue.specs.Passes.{view as known, IsPassOf, ruled_capacity};
    ghost use Rattle.beet_field.specs.Trio.{member, with_member};
    ghost use Rattle.beet_queue.specs.Rule.{all_named, no_one};
    ghost use Rattle.beet_desk.specs.Ends.{AreFrom, Sender};

    ghost Value = { Sender };

    ghost view = { λ t. record {
      queue = t.pass.table_id;
      server = t.server;
      notes = member (known t.pass).streams t.server;
      pushed = member (known t.pass).put t.server;
    } };

    ghost invariant = { λ t. IsPassOf (arc_value t.queue) t.pass
        × ((known t.pass).puts ≡ with_member no_one t.server true)
        × (all_named (known t.pass).streams ≤ ruled_capacity (arc_value t.queue))
        × AreFrom t.server (member (known t.pass).streams t.server) };
}

/// The desk's end. Contracts see which queue it is of, for how many notes that has room, the notes of each server in
/// the run, in order, and those that were taken, in the order in which they were taken.
#[derive(Drop)]
pub struct NoteRx {
    pub(crate) queue: Arc<Queue<DeskNote>, Global>,
    pub(crate) pass: QueuePass<DeskNote>,
}

impl Model for NoteRx {
    ghost use Rattle.std.specs.Prelude.{◌≡◌, true};
    ghost use Rattle.std.specs.Arc.{arc_value};
    ghost use Rattle.crossbeam_queue.specs.Passes.{view as known, IsPassOf, ruled_capacity};
    ghost use Rattle.beet_queue.specs.Rule.{no_one};
    ghost use Rattle.beet_desk.specs.Ends.{Receiver, AreFirst};

    ghost Value = { Receiver };

    ghost view = { λ t. record {
      queue = t.pass.table_id;
      room = ruled_capacity (arc_value t.queue);
      notes = (known t.pass).streams;
      taken = (known t.pass).taken;
    } };

    ghost invariant = { λ t. IsPassOf (arc_value t.queue) t.pass
        × ((known t.pass).takes ≡ true)
        × ((known t.pass).puts ≡ no_one)
        × AreFirst (known t.pass).streams (known t.pass).taken };
}

/// What is left once the senders have ended. Contracts see the notes of each server that are left, in order.
#[derive(Drop)]
pub struct NoteRest {
    queue: Arc<Queue<DeskNote>, Global>,
    pass: QueuePass<DeskNote>,
}

impl Model for NoteRest {
    ghost use Rattle.std.specs.Prelude.{◌≡◌, List, true};
    ghost use Rattle.std.specs.Arc.{arc_value};
    ghost use Rattle.crossbeam_queue.specs.Passes.{view as known, IsPassOf};
    ghost use Rattle.beet_field.specs.Trio.{member};
    ghost use Rattle.beet_field.specs.declared.trio.Trio.{Trio};
    ghost use Rattle.beet_field.specs.declared.point.Point.{Point};
    ghost use Rattle.beet_station.specs.declared.notes.DeskNote.{DeskNote};
    ghost use Rattle.beet_desk.specs.Ends.{left_of};

    ghost Value = { Trio (List DeskNote) };

    ghost view = { λ t. left_of (known t.pass).streams (known t.pass).put (known t.pass).taken };

    ghost invariant = { λ t. IsPassOf (arc_value t.queue) t.pass
        × ((known t.pass).takes ≡ true)
        × ((s : Point) → member (known t.pass).puts s ≡ true) };
}

impl NoteTx {
    /// Pushes the next note of the server. It is never refused, and takes no memory. It may wait.
    pub fn push<R: Wait>(&mut self, rt: &R, note: DeskNote)
        requires { IsNextNote self.old note }
        ensures { self.new ≡ one_pushed self.old }
    {
        match self.queue.push_as::<Puts, R>(rt, &mut self.pass, note) {
            Ok(()) => (),
            Err(_) => unreachable!(),
        }
    }
}

impl NoteRx {
    /// Takes the front of the queue: the next note of its server. `None` only if the queue was empty at a moment of the
    /// call, and then nothing changes. No memory is taken. It may wait.
    pub fn take<R: Wait>(&mut self, rt: &R) -> Option<DeskNote>
        ensures first { AreFirst self.new.notes self.new.taken }
        ensures taken { MatchOption result (self.new ≡ self.old)
            (λ note. IsNextTaken self.old note × (self.new ≡ one_received note self.old)) }
    {
        let note = self.queue.pop_as::<Takes, R>(rt, &mut self.pass);
        note
    }

    /// Joins the ends of the three servers, and hands out what is left.
    pub fn close(self, senders: Trio<NoteTx>) -> NoteRest
        requires { AreOf self senders }
        ensures { result ≡ left_after self senders }
    {
        let NoteRx { queue, pass } = self;
        let mut pass = pass;
        let Trio { one, two, three } = senders;
        queue.absorb::<TakesBack>(&mut pass, one.pass);
        queue.absorb::<TakesBack>(&mut pass, two.pass);
        queue.absorb::<TakesBack>(&mut pass, three.pass);
        NoteRest { queue, pass }
    }
}

impl NoteRest {
    /// Hands out the next note that is left. `None` exactly if none is. No memory is taken. It may wait.
    pub fn next<R: Wait>(&mut self, rt: &R) -> Option<DeskNote>
        ensures { MatchOption result ((self.new ≡ self.old) × (self.old ≡ none_left)) (Hands self.old self.new) }
    {
        self.queue.pop_as::<Takes, _>(rt, &mut self.pass)
    }
}

impl Sink for NoteTx {
    ghost use Rattle.std.specs.Prelude.{drop};

    ghost due = { λ t _. drop t.pushed t.notes };

    ghost origin = { λ t. record { queue = t.queue; server = t.server; notes = t.notes; pushed = 0 } };

    fn tell<R: Wait>(&mut self, rt: &R, server: Point, round: u32, opened: &[Fe]) {
        self.push(rt, note_on(server, round, opened));
    }
}

/// The note of a server on a round.
fn note_on(server: Point, round: u32, opened: &[Fe]) -> DeskNote
    requires { length opened.now ≤ MOST_NUMBERS }
    ensures { result ≡ a_note server round opened.now }
{
    let mut note = DeskNote {
        server,
        round,
        numbers: ArrayVec::new(),
    };
    match note.numbers.try_extend_from_slice(opened) {
        Ok(()) => note,
        Err(_) => unreachable!(),
    }
}
