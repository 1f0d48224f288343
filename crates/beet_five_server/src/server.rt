//! One server of five.

ghost use Rattle.std.specs.Prelude.{◌≡◌, ◌↔◌, ◌<◌, ◌≤◌, ◌+◌, ◌*◌, ◌^◌, ℕ, List, length, map, IfOk, IsNone, IfNone};
ghost use Rattle.std.specs.Prelude.{IfSome, IsErrOf, is_some, vec_capacity, true, false};
ghost use Rattle.beet_field.specs.declared.TheConstants.{MOST_NUMBERS};
ghost use Rattle.beet_words.specs.Tapes.{left_of};
ghost use Rattle.beet_gates.specs.Ends.{ComesTo};
ghost use Rattle.beet_delivery.specs.Networks.{Delivered, nothing, with_triple};
ghost use Rattle.beet_server.specs.declared.server.StartFault.TheVariants.{TooFewWords, TooFewMasks};
ghost use Rattle.beet_weights.specs.Quadratics.{IsServer};
ghost use Rattle.beet_linear_sharing.specs.Runs.{Setup};
ghost use Rattle.beet_five_server.specs.Answers.{Answers, AreTied, HandsOut, MovesOn, fresh_core, late_verdict};
ghost use Rattle.beet_five_server.specs.Answers.{messages_out};
ghost use Rattle.beet_five_server.specs.Cores.{has_ended, is_quiet};
ghost use Rattle.beet_five_server.specs.Fits.{Fits, IsRound, OpensAt, message_of, messages_from};
ghost use Rattle.beet_five_server.specs.Mails.{all_there, cell};
ghost use Rattle.beet_five_server.specs.Network.{five, peers, sends_to};
ghost use Rattle.beet_five_server.specs.Parts.{by_sender};
ghost use Rattle.beet_five_server.specs.declared.mail.FiveMessage.{FiveMessage as Message};

use crate::engine::Engine;
use crate::mail::{FiveMessage, Mail};
use crate::parts::{Incoming, Outgoing};
use beet_field::{Fe, MOST_NUMBERS};
use beet_gates::Script;
use beet_round::Verdict;
use beet_server::{Numbers, StartFault};
use beet_words::{FeList, Tape};
use std::alloc::Global;
use std::marker::Model;

/// A message of these numbers.
fn message(from: u32, to: u32, round: u32, numbers: Numbers) -> FiveMessage
    ensures { result ≡ record { from = from; to = to; round = round; numbers = record { items = numbers.items } } }
{
    FiveMessage {
        from,
        to,
        round,
        numbers,
    }
}

/// The message of a server to itself, and those to its four peers in rising order.
fn address(me: u32, round: u32, out: Outgoing) -> (FiveMessage, [FiveMessage; 4])
    requires { IsServer me }
    ensures own { result.0 ≡ record {
      from = me;
      to = me;
      round = round;
      numbers = record {
        items = by_sender out.one.items out.two.items out.three.items out.four.items out.five.items me;
      };
    } }
    ensures others { result.1 ≡ map (λ to. record {
      from = me;
      to = to;
      round = round;
      numbers = record {
        items = by_sender out.one.items out.two.items out.three.items out.four.items out.five.items to;
      };
    }) (peers me) }
{
    let one = message(me, 1, round, out.one);
    let two = message(me, 2, round, out.two);
    let three = message(me, 3, round, out.three);
    let four = message(me, 4, round, out.four);
    let five = message(me, 5, round, out.five);
    match me {
        1 => (one, [two, three, four, five]),
        2 => (two, [one, three, four, five]),
        3 => (three, [one, two, four, five]),
        4 => (four, [one, two, three, five]),
        _ => (five, [one, two, three, four]),
    }
}

/// A server that runs a script with four others.
#[derive(Drop)]
pub struct FiveCore<S: Script<5>> {
    engine: Engine<S>,
    pub(crate) mail: Mail,
}

impl<S: Script<5>> Model for FiveCore<S> {
    ghost use Rattle.beet_five_server.specs.Answers.{Core, AreTied};

    ghost Value = { Core S };

    ghost view = { λ c. record { work = c.engine; mail = c.mail } };

    ghost invariant = { λ c. AreTied S.batch_of (S.rounds_of c.engine.script) c.engine c.mail };
}

impl<S: Script<5>> FiveCore<S> {
    /// A server in round 0, or ended if the script has no rounds. `inputs` are its points of the
    /// inputs; it deals the words of `masks`, and draws its numbers from `coefficients`. No other
    /// call takes memory.
    pub fn start(
        alloc: Global,
        me: u32,
        script: S,
        inputs: FeList,
        masks: Tape,
        coefficients: Tape,
    ) -> Result<FiveCore<S>, StartFault>
        requires me { IsServer me }
        requires inputs { length inputs ≡ S.inputs_of script }
        requires masks { masks.passed ≡ 0 }
        requires coefficients { coefficients.passed ≡ 0 }
        ensures words { (have : ℕ) → IsErrOf result (TooFewWords have)
            ↔ ((have ≡ length (left_of coefficients)) × (have < 2 * S.secrets_of script)) }
        ensures masks { (have : ℕ) → IsErrOf result (TooFewMasks have)
            ↔ ((2 * S.secrets_of script ≤ length (left_of coefficients))
            × (have ≡ length masks.words) × (have < S.masks_of script)) }
        ensures core { IfOk result (λ c.
            c ≡ fresh_core S.batch_of me script inputs masks coefficients (S.rounds_of script)) }
        ensures fits { IfOk result (λ c. (o : Setup)
            → OpensAt S.batch_of o me script inputs masks.words coefficients.words
            → Fits S.batch_of o nothing c.work c.mail) }
    {
        let have = coefficients.accepted_left();
        if have < script.coefficients() {
            return Err(StartFault::TooFewWords(have));
        }
        let have = masks.masks_left();
        if have < script.masks() {
            return Err(StartFault::TooFewMasks(have));
        }
        let opened = Vec::with_capacity(alloc, MOST_NUMBERS * script.rounds() as usize)?;
        let wires = Vec::with_capacity(alloc, script.wires() as usize)?;
        let rounds = script.rounds();
        let engine = Engine::start(
            me,
            script,
            inputs.as_slice(),
            masks,
            coefficients,
            wires,
            opened,
        );
        let mail = Mail::new(alloc, me, rounds, engine.size())?;
        Ok(FiveCore { engine, mail })
    }

    /// Whether `out` would answer `None`.
    pub fn sent(&self) -> bool
        ensures { result ≡ is_quiet S.batch_of self.now.work }
    {
        self.engine.handed() || self.engine.ended()
    }

    /// Hands out the four messages of the round, in rising order of the peers. If all four
    /// messages to this server of that round are in, it then passes the round.
    pub fn out(&mut self) -> Option<[FiveMessage; 4]>
        ensures quiet { IsNone result ↔ (is_quiet S.batch_of self.old.work ≡ true) }
        ensures same { IfNone result (self.new ≡ self.old) }
        ensures hands { IfSome result (λ m. m ≡ messages_out S.batch_of self.old.work) }
        ensures leaves { IfSome result (λ m. HandsOut S.batch_of self.old self.new) }
        ensures within { IfSome result (λ m. self.old.work.round < S.rounds_of self.old.work.script) }
        ensures room { IfSome result (λ m. 5 * (self.old.work.round + 2) ≤ length self.old.mail.places) }
        ensures fits { (o : Setup) (x : Delivered ℕ) → Fits S.batch_of o x self.old.work self.old.mail
            → Fits S.batch_of o x self.new.work self.new.mail }
        ensures messages { (o : Setup) (x : Delivered ℕ) → Fits S.batch_of o x self.old.work self.old.mail
            → IfSome result (λ m. m ≡ messages_from o self.old.work.me self.old.work.round) }
    {
        if self.sent() {
            return None;
        }
        Some(self.hand_out())
    }

    /// Hands out the messages, which were not handed out before.
    fn hand_out(&mut self) -> [FiveMessage; 4]
        requires { is_quiet S.batch_of self.old.work ≡ false }
        ensures hands { result ≡ messages_out S.batch_of self.old.work }
        ensures leaves { HandsOut S.batch_of self.old self.new }
        ensures tied { AreTied S.batch_of (S.rounds_of self.old.work.script) self.old.work self.old.mail }
        ensures within { self.old.work.round < S.rounds_of self.old.work.script }
    {
        let me = self.engine.me();
        let round = self.engine.round();
        let mut out = Outgoing::new();
        self.engine.hand_out(&mut out);
        let (own, messages) = address(me, round, out);
        self.mail.put_own(own);
        if self.mail.ready() {
            self.turn();
        }
        messages
    }

    /// Passes the round, whose messages are all in.
    fn turn(&mut self)
        requires goes { has_ended S.batch_of self.old.work ≡ false }
        requires handed { self.old.work.handed ≡ true }
        requires all { all_there self.old.mail.places self.old.mail.round ≡ true }
        ensures { MovesOn S.batch_of self.old self.new }
    {
        self.engine.pass(Incoming {
            one: self.mail.numbers(1),
            two: self.mail.numbers(2),
            three: self.mail.numbers(3),
            four: self.mail.numbers(4),
            five: self.mail.numbers(5),
        });
        let size = self.engine.size();
        self.mail.turn(size);
    }

    /// Gives the server a message. At `Ready` it passes the round. An ended server changes nothing.
    pub fn deliver(&mut self, m: FiveMessage) -> Verdict
        requires sent { is_quiet S.batch_of self.old.work ≡ true }
        ensures ended { has_ended S.batch_of self.old.work ≡ true
            → (self.new ≡ self.old) × (result ≡ late_verdict self.old.work m) }
        ensures verdict { has_ended S.batch_of self.old.work ≡ false
            → Answers S.batch_of self.old self.new m result }
        ensures fits { (o : Setup) (x : Delivered ℕ) (j t : ℕ) → Fits S.batch_of o x self.old.work self.old.mail
            → sends_to j self.old.work.me ≡ true → m ≡ message_of o j self.old.work.me t → IsRound o t
            → t ≤ self.old.work.round + 1 → Fits S.batch_of o
            (with_triple five x (record { from = j; to = self.old.work.me; round = t }))
            self.new.work self.new.mail }
    {
        if self.engine.ended() {
            return self.late_verdict(&m);
        }
        let verdict = self.mail.offer(m);
        if let Verdict::Ready = verdict {
            self.turn();
        }
        verdict
    }

    /// What an ended server says of a message.
    fn late_verdict(&self, m: &FiveMessage) -> Verdict
        ensures { result ≡ late_verdict self.now.work m.now }
    {
        let me = self.engine.me();
        let round = self.engine.round();
        if m.to != me || m.from == me || m.from < 1 || m.from > 5 {
            Verdict::Stranger
        } else if m.round < round {
            Verdict::Old
        } else {
            Verdict::TooEarly(round)
        }
    }

    /// Whether the script has ended.
    pub fn ended(&self) -> bool
        ensures { result ≡ has_ended S.batch_of self.now.work }
    {
        self.engine.ended()
    }

    /// Which server it is, from 1 to 5.
    pub fn me(&self) -> u32
        ensures value { result ≡ self.now.work.me }
        ensures server { IsServer result }
    {
        self.engine.me()
    }

    pub fn script(&self) -> &S
        ensures { result.now ≡ self.now.work.script }
    {
        self.engine.script()
    }

    /// How many rounds it has passed, below 2^31.
    pub fn round(&self) -> u32
        ensures value { result ≡ self.now.work.round }
        ensures few { result < 2 ^ 31 }
    {
        self.engine.round()
    }

    /// The opened numbers, in the order in which they were opened. They are some that the script may have opened in the
    /// rounds passed.
    pub fn opened(&self) -> &[Fe]
        ensures value { result.now ≡ self.now.work.opened }
        ensures came { ComesTo (S.batch_of self.now.work.script) self.now.work.round result.now }
    {
        self.engine.opened()
    }

    /// Whether the message of a server in a round is in its place, of a round up to the one after its own: its own once
    /// it was handed out, and that of a peer once it came.
    pub fn holds(&self, round: u32, from: u32) -> bool
        requires from { IsServer from }
        requires near { round ≤ self.now.work.round + 1 }
        ensures { result ≡ is_some (cell self.now.mail.places round from) }
    {
        self.mail.is_filled(round, from)
    }
}
