//! What computes in a server: its points of the wires, the opened numbers, and the batch that
//! comes.

ghost use Rattle.std.specs.Prelude.{◌≡◌, ◌<◌, ◌≤◌, ◌+◌, ◌-◌, ◌*◌, ◌^◌, [], length, true, false, vec_capacity};
ghost use Rattle.beet_field.specs.declared.TheConstants.{MOST_NUMBERS};
ghost use Rattle.beet_words.specs.Tapes.{left_of};
ghost use Rattle.beet_gates.specs.Clear.{is_end, with_lets};
ghost use Rattle.beet_gates.specs.Scripts.{size_of};
ghost use Rattle.beet_round.specs.Sides.{peer};
ghost use Rattle.beet_round.specs.declared.sides.Side.TheVariants.{Low, High};
ghost use Rattle.beet_server.specs.Steps.{Work, batch_of, sends, handing, passing};

use crate::lines::{Incoming, of_sender, put_numbers};
use crate::parts::{Numbers, Tapes};
use crate::progress::{begin_run, pass_round};
use beet_field::{Fe, Point};
use beet_gates::{Batch, Script};
use beet_words::Tape;
use std::marker::Model;

/// What computes in a server. `batch` is the one that comes, from `place` in the script; its lets are among the wires.
#[derive(Drop)]
pub struct Engine<S: Script<3>> {
    me: Point,
    script: S,
    tapes: Tapes,
    round: u32,
    wires: Vec<Fe>,
    opened: Vec<Fe>,
    own: Numbers,
    handed: bool,
    place: S::Place,
    batch: Batch,
}

impl<S: Script<3>> Model for Engine<S> {
    ghost use Rattle.std.specs.Prelude.{◌≡◌, length, vec_capacity};
    ghost use Rattle.beet_gates.specs.Scripts.{bounds_of, size_of};
    ghost use Rattle.beet_server.specs.Steps.{Work};
    ghost use Rattle.beet_server.specs.Sound.{IsSound, if_handed};

    ghost Value = { Work S };

    ghost view = { λ e. record {
      me = e.me;
      script = e.script;
      masks = e.tapes.masks;
      coefficients = e.tapes.coefficients;
      round = e.round;
      wires = e.wires.items;
      opened = e.opened.items;
      own = e.own.items;
      handed = e.handed;
    } };

    ghost invariant = { λ e. IsSound 3 1 (S.batch_of e.script)
        (bounds_of (S.wires_of e.script) (S.masks_of e.script) (S.secrets_of e.script))
        (S.rounds_of e.script)
        e.batch e.round e.wires.items e.opened.items e.tapes.masks e.tapes.coefficients e.handed
        (vec_capacity e.wires) (vec_capacity e.opened)
        × (length e.own.items ≡ if_handed e.handed (size_of e.batch.act))
        × S.is_at e.script e.round e.opened.items e.place };
}

impl<S: Script<3>> Engine<S> {
    /// At the first batch of the script, with room for all wires and for all numbers that it may open.
    pub fn start(
        me: Point,
        script: S,
        inputs: &[Fe],
        masks: Tape,
        coefficients: Tape,
        wires: Vec<Fe>,
        opened: Vec<Fe>,
    ) -> Engine<S>
        requires inputs { length inputs.now ≡ S.inputs_of script }
        requires masks_start { masks.passed ≡ 0 }
        requires coefficients_start { coefficients.passed ≡ 0 }
        requires words { S.masks_of script ≤ length masks.words }
        requires numbers { S.secrets_of script ≤ length (left_of coefficients) }
        requires counted { S.rounds_of script < 2 ^ 32 }
        requires wires { (wires.items ≡ []) × (S.wires_of script ≤ vec_capacity wires) }
        requires opened { (opened.items ≡ [])
            × (MOST_NUMBERS * S.rounds_of script ≤ vec_capacity opened) }
        ensures { result ≡ record {
          me = me;
          script = script;
          masks = masks;
          coefficients = coefficients;
          round = 0;
          wires = with_lets inputs.now (S.batch_of script 0 []).lets.items;
          opened = [];
          own = [];
          handed = false;
        } }
    {
        let mut wires = wires;
        let (place, batch) = begin_run(&script, inputs, &mut wires);
        Engine {
            me,
            script,
            tapes: Tapes {
                masks,
                coefficients,
            },
            round: 0,
            wires,
            opened,
            own: Numbers::new(),
            handed: false,
            place,
            batch,
        }
    }

    /// Takes the words and numbers of the round from the tapes. What is for the lower and for the
    /// higher peer is put in the place of other numbers.
    pub fn hand_out(&mut self, low: &mut Numbers, high: &mut Numbers)
        requires handed { self.old.handed ≡ false }
        requires goes { is_end (batch_of S.batch_of self.old).act ≡ false }
        ensures work { self.new ≡ handing S.batch_of self.old }
        ensures within { self.old.round < S.rounds_of self.old.script }
        ensures low { low.new.items ≡ sends S.batch_of self.old (peer self.old.me Low) }
        ensures high { high.new.items ≡ sends S.batch_of self.old (peer self.old.me High) }
    {
        put_numbers(
            &self.batch.act,
            self.wires.as_slice(),
            &mut self.tapes,
            self.me,
            &mut self.own,
            low,
            high,
        );
        self.handed = true;
    }

    /// Passes the round with the numbers of the lower and of the higher peer.
    pub fn pass(&mut self, low: &[Fe], high: &[Fe])
        requires goes { is_end (batch_of S.batch_of self.old).act ≡ false }
        requires handed { self.old.handed ≡ true }
        requires low { length low.now ≡ size_of (batch_of S.batch_of self.old).act }
        requires high { length high.now ≡ size_of (batch_of S.batch_of self.old).act }
        ensures work { self.new ≡ passing S.batch_of self.old low.now high.now }
        ensures within { self.old.round < S.rounds_of self.old.script }
        ensures counted { self.old.round < 2 ^ 32 - 1 }
    {
        let own = self.own.as_slice();
        let one = of_sender(self.me, Point::One, own, low, high);
        let two = of_sender(self.me, Point::Two, own, low, high);
        let three = of_sender(self.me, Point::Three, own, low, high);
        let given = Incoming { one, two, three };
        pass_round(
            &self.script,
            self.round,
            &given,
            &mut self.place,
            &mut self.batch,
            &mut self.wires,
            &mut self.opened,
        );
        self.own.clear();
        self.handed = false;
        self.round += 1;
    }

    /// How many numbers a message of the round has.
    pub fn size(&self) -> u32
        ensures size { result ≡ size_of (batch_of S.batch_of self.now).act }
        ensures few { result ≤ MOST_NUMBERS }
    {
        self.batch.act.size()
    }

    /// Whether the script has ended.
    pub fn ended(&self) -> bool
        ensures { result ≡ is_end (batch_of S.batch_of self.now).act }
    {
        self.batch.act.is_end()
    }

    /// Whether the messages of the round were handed out.
    pub fn handed(&self) -> bool
        ensures { result ≡ self.now.handed }
    {
        self.handed
    }

    /// The server.
    pub fn me(&self) -> Point
        ensures { result ≡ self.now.me }
    {
        self.me
    }

    /// The rounds passed.
    pub fn round(&self) -> u32
        ensures { result ≡ self.now.round }
    {
        self.round
    }

    pub fn script(&self) -> &S
        ensures { result.now ≡ self.now.script }
    {
        &self.script
    }

    pub fn opened(&self) -> &[Fe]
        ensures { result.now ≡ self.now.opened }
    {
        self.opened.as_slice()
    }

    /// The words that the server deals.
    pub fn masks(&self) -> &Tape
        ensures { result.now ≡ self.now.masks }
    {
        &self.tapes.masks
    }

    /// The words from which it draws.
    pub fn coefficients(&self) -> &Tape
        ensures { result.now ≡ self.now.coefficients }
    {
        &self.tapes.coefficients
    }
}
