//! What computes in a server: its points of the wires, the opened numbers, and the batch that
//! comes.

ghost use Rattle.std.specs.Prelude.{◌≡◌, ◌<◌, ◌≤◌, ◌+◌, ◌*◌, ◌^◌, ◌-◌, [], length, true, false, vec_capacity};
ghost use Rattle.beet_field.specs.declared.TheConstants.{MOST_NUMBERS};
ghost use Rattle.beet_words.specs.Tapes.{left_of};
ghost use Rattle.beet_gates.specs.Clear.{is_end};
ghost use Rattle.beet_gates.specs.Ends.{ComesTo};
ghost use Rattle.beet_gates.specs.Scripts.{size_of};
ghost use Rattle.beet_five_server.specs.Parts.{by_sender};
ghost use Rattle.beet_five_server.specs.Cores.{Work, batch_of, fresh, sends, handing, passing};

use crate::parts::{Incoming, Outgoing, put_numbers};
use beet_field::Fe;
use beet_gates::{Batch, Script};
use beet_server::{Tapes, begin_run, pass_round};
use beet_words::Tape;
use std::marker::Model;

/// What computes in a server. `batch` is the one that comes, from `place` in the script; its lets are among the wires.
#[derive(Drop)]
pub struct Engine<S: Script<5>> {
    me: u32,
    script: S,
    tapes: Tapes,
    round: u32,
    wires: Vec<Fe>,
    opened: Vec<Fe>,
    handed: bool,
    place: S::Place,
    batch: Batch,
}

impl<S: Script<5>> Model for Engine<S> {
    ghost use Rattle.std.specs.Prelude.{◌<◌, ◌^◌, vec_capacity};
    ghost use Rattle.beet_gates.specs.Ends.{ComesTo};
    ghost use Rattle.beet_gates.specs.Scripts.{bounds_of};
    ghost use Rattle.beet_five_server.specs.Cores.{Work};
    ghost use Rattle.beet_server.specs.Sound.{IsSound};

    ghost Value = { Work S };

    ghost view = { λ e. record {
      me = e.me;
      script = e.script;
      masks = e.tapes.masks;
      coefficients = e.tapes.coefficients;
      round = e.round;
      wires = e.wires.items;
      opened = e.opened.items;
      handed = e.handed;
    } };

    ghost invariant = { λ e. IsSound 5 2 (S.batch_of e.script)
        (bounds_of (S.wires_of e.script) (S.masks_of e.script) (S.secrets_of e.script))
        (S.rounds_of e.script)
        e.batch e.round e.wires.items e.opened.items e.tapes.masks e.tapes.coefficients e.handed
        (vec_capacity e.wires) (vec_capacity e.opened)
        × S.is_at e.script e.round e.opened.items e.place
        × ComesTo (S.batch_of e.script) e.round e.opened.items × (S.rounds_of e.script < 2 ^ 31) };
}

impl<S: Script<5>> Engine<S> {
    /// At the first batch of the script, with room for all wires and for all numbers that it may open.
    pub fn start(
        me: u32,
        script: S,
        inputs: &[Fe],
        masks: Tape,
        coefficients: Tape,
        wires: Vec<Fe>,
        opened: Vec<Fe>,
    ) -> Engine<S>
        requires inputs { length inputs.now ≡ S.inputs_of script }
        requires masks_start { masks.passed ≡ 0 }
        requires coefficients_start { coefficients.passed ≡ 0 }
        requires words { S.masks_of script ≤ length masks.words }
        requires numbers { 2 * S.secrets_of script ≤ length (left_of coefficients) }
        requires counted { S.rounds_of script < 2 ^ 31 }
        requires wires { (wires.items ≡ []) × (S.wires_of script ≤ vec_capacity wires) }
        requires opened { (opened.items ≡ [])
            × (MOST_NUMBERS * S.rounds_of script ≤ vec_capacity opened) }
        ensures { result ≡ fresh S.batch_of me script inputs.now masks coefficients }
    {
        let mut wires = wires;
        let (place, batch) = begin_run(&script, inputs, &mut wires);
        Engine {
            me,
            script,
            tapes: Tapes {
                masks,
                coefficients,
            },
            round: 0,
            wires,
            opened,
            handed: false,
            place,
            batch,
        }
    }

    /// Takes the words and numbers of the round from the tapes. What is for each server is put in the place of other
    /// numbers.
    pub fn hand_out(&mut self, out: &mut Outgoing)
        requires handed { self.old.handed ≡ false }
        requires goes { is_end (batch_of S.batch_of self.old).act ≡ false }
        ensures work { self.new ≡ handing S.batch_of self.old }
        ensures within { self.old.round < S.rounds_of self.old.script }
        ensures one { out.new.one.items ≡ sends S.batch_of self.old 1 }
        ensures two { out.new.two.items ≡ sends S.batch_of self.old 2 }
        ensures three { out.new.three.items ≡ sends S.batch_of self.old 3 }
        ensures four { out.new.four.items ≡ sends S.batch_of self.old 4 }
        ensures five { out.new.five.items ≡ sends S.batch_of self.old 5 }
    {
        put_numbers(&self.batch.act, self.wires.as_slice(), &mut self.tapes, out);
        self.handed = true;
    }

    /// Passes the round with the numbers of the five servers.
    pub fn pass(&mut self, given: Incoming<'_>)
        requires goes { is_end (batch_of S.batch_of self.old).act ≡ false }
        requires handed { self.old.handed ≡ true }
        requires one { length given.one.now ≡ size_of (batch_of S.batch_of self.old).act }
        requires two { length given.two.now ≡ size_of (batch_of S.batch_of self.old).act }
        requires three { length given.three.now ≡ size_of (batch_of S.batch_of self.old).act }
        requires four { length given.four.now ≡ size_of (batch_of S.batch_of self.old).act }
        requires five { length given.five.now ≡ size_of (batch_of S.batch_of self.old).act }
        ensures work { self.new ≡ passing S.batch_of self.old
            (by_sender given.entry.one.now given.entry.two.now given.entry.three.now
            given.entry.four.now given.entry.five.now) }
        ensures within { self.old.round < S.rounds_of self.old.script }
        ensures counted { self.old.round < 2 ^ 32 - 1 }
    {
        pass_round(
            &self.script,
            self.round,
            &given,
            &mut self.place,
            &mut self.batch,
            &mut self.wires,
            &mut self.opened,
        );
        self.handed = false;
        self.round += 1;
    }

    /// How many numbers a message of the round has.
    pub fn size(&self) -> u32
        ensures size { result ≡ size_of (batch_of S.batch_of self.now).act }
        ensures few { result ≤ MOST_NUMBERS }
    {
        self.batch.act.size()
    }

    /// Whether the script has ended.
    pub fn ended(&self) -> bool
        ensures { result ≡ is_end (batch_of S.batch_of self.now).act }
    {
        self.batch.act.is_end()
    }

    /// Whether the messages of the round were handed out.
    pub fn handed(&self) -> bool
        ensures { result ≡ self.now.handed }
    {
        self.handed
    }

    /// The server.
    pub fn me(&self) -> u32
        ensures { result ≡ self.now.me }
    {
        self.me
    }

    pub fn script(&self) -> &S
        ensures { result.now ≡ self.now.script }
    {
        &self.script
    }

    /// The rounds passed.
    pub fn round(&self) -> u32
        ensures value { result ≡ self.now.round }
        ensures few { result < 2 ^ 31 }
    {
        self.round
    }

    /// The opened numbers. They are some that the script may have opened in the rounds passed.
    pub fn opened(&self) -> &[Fe]
        ensures value { result.now ≡ self.now.opened }
        ensures came { ComesTo (S.batch_of self.now.script) self.now.round result.now }
    {
        self.opened.as_slice()
    }
}
