//! One server of three.

ghost use Rattle.std.specs.Prelude.{◌≡◌, ◌≢◌, ◌↔◌, ◌⊎◌, ◌<◌, ◌≤◌, ◌+◌, ◌-◌, ◌*◌, ◌^◌, ◌∷◌, [], ℕ, List, length, IfOk};
ghost use Rattle.std.specs.Prelude.{IsNone, IfNone, IfSome, IsErrOf, option_map, vec_capacity, true, false};
ghost use Rattle.beet_field.specs.declared.TheConstants.{MOST_NUMBERS};
ghost use Rattle.beet_words.specs.Tapes.{left_of};
ghost use Rattle.beet_gates.specs.Scripts.{size_of};
ghost use Rattle.beet_round.specs.Boxes.{HasBoth, Mailbox, Judged};
ghost use Rattle.beet_round.specs.Sides.{peer};
ghost use Rattle.beet_round.specs.declared.sides.Side.{Side as SideOf};
ghost use Rattle.beet_sharing.specs.Runs.{Setup};
ghost use Rattle.beet_delivery.specs.Events.{Delivered, nothing, with_triple};
ghost use Rattle.beet_server.specs.Cores.{has_ended, is_quiet, fresh, IsFresh};
ghost use Rattle.beet_server.specs.Fits.{Fits, OpensAt, IsRound, message_of, messages_from};
ghost use Rattle.beet_server.specs.Lockstep.{AreSent};
ghost use Rattle.beet_server.specs.Steps.{messages_out, moved_on, received_from};
ghost use Rattle.beet_server.specs.Answers.{HandsOut, Keeps, Moves, IsLateVerdict, Answers, verdict_on};
ghost use Rattle.beet_server.specs.declared.server.StartFault.TheVariants.{TooFewWords, TooFewMasks};

use crate::engine::Engine;
use crate::kept::KeptRounds;
use beet_field::{Fe, MOST_NUMBERS, Point};
use beet_gates::Script;
use beet_round::{RoundBox, RoundMessage, Side, Verdict};
use beet_words::{FeList, Tape};
use std::alloc::{AllocError, Global};
use std::marker::Model;
use thiserror::Error;

/// Why a server did not start.
#[derive(Clone, Copy, PartialEq, Eq, Debug, Error)]
pub enum StartFault {
    /// So many numbers can be drawn from the coefficient words, and the script may draw more.
    #[error("only {0} numbers can be drawn from the coefficient words")]
    TooFewWords(u32),
    /// There are so many mask words, and the script may deal more.
    #[error("there are only {0} mask words")]
    TooFewMasks(u32),
    /// Memory ran out.
    #[error("out of memory")]
    OutOfMemory,
}

impl From<AllocError> for StartFault {
    ghost use Rattle.std.specs.Prelude.{◌≡◌};
    ghost use Rattle.beet_server.specs.declared.server.StartFault.TheVariants.{OutOfMemory};

    ghost from_gives = { λ _ fault. fault ≡ OutOfMemory };

    fn from(_error: AllocError) -> StartFault {
        StartFault::OutOfMemory
    }
}

/// Names the server and the round of a message to the peer of this side.
fn address(message: &mut RoundMessage, me: Point, side: Side, round: u32)
    ensures { message.new ≡ record message.old { from = me; to = peer me side; round = round } }
{
    message.from = me;
    message.to = side.peer(me);
    message.round = round;
}

/// All memory that a server ever needs: for the messages that it gets, for its wires, and for the numbers that it
/// opens. Tapes that hold too few words are refused first.
fn take_room<S: Script<3>>(
    alloc: Global,
    me: Point,
    script: &S,
    masks: &Tape,
    coefficients: &Tape,
) -> Result<(KeptRounds, Vec<Fe>, Vec<Fe>), StartFault>
    requires { masks.now.passed ≡ 0 }
    ensures words { (have : ℕ) → IsErrOf result (TooFewWords have)
        ↔ ((have ≡ length (left_of coefficients.now)) × (have < S.secrets_of script.now)) }
    ensures masks { (have : ℕ) → IsErrOf result (TooFewMasks have)
        ↔ ((S.secrets_of script.now ≤ length (left_of coefficients.now))
        × (have ≡ length masks.now.words) × (have < S.masks_of script.now)) }
    ensures enough { IfOk result (λ room. (S.masks_of script.now ≤ length masks.now.words)
        × (S.secrets_of script.now ≤ length (left_of coefficients.now))) }
    ensures counted { IfOk result (λ room. S.rounds_of script.now < 2 ^ 32) }
    ensures received { IfOk result (λ room. room.0 ≡ record {
      me = me;
      messages = [];
      room = S.rounds_of script.now;
    }) }
    ensures wires { IfOk result (λ room. (room.1.items ≡ [])
        × (S.wires_of script.now ≤ vec_capacity room.1)) }
    ensures opened { IfOk result (λ room. (room.2.items ≡ [])
        × (MOST_NUMBERS * S.rounds_of script.now ≤ vec_capacity room.2)) }
{
    let have = coefficients.accepted_left();
    if have < script.coefficients() {
        return Err(StartFault::TooFewWords(have));
    }
    let have = masks.masks_left();
    if have < script.masks() {
        return Err(StartFault::TooFewMasks(have));
    }
    let received = KeptRounds::new(alloc, me, script.rounds())?;
    let opened = Vec::with_capacity(alloc, MOST_NUMBERS * script.rounds() as usize)?;
    let wires = Vec::with_capacity(alloc, script.wires() as usize)?;
    Ok((received, wires, opened))
}

/// A server that runs a script with two others.
#[derive(Drop)]
pub struct ServerCore<S: Script<3>> {
    engine: Engine<S>,
    mail: RoundBox,
    received: KeptRounds,
}

impl<S: Script<3>> Model for ServerCore<S> {
    ghost use Rattle.beet_server.specs.Cores.{Core};
    ghost use Rattle.beet_server.specs.Steps.{core_of};
    ghost use Rattle.beet_server.specs.Sound.{AreTied};

    ghost Value = { Core S };

    ghost view = { λ c. core_of c.engine c.received.messages c.mail };

    ghost invariant = { λ c. AreTied S.batch_of (S.rounds_of c.engine.script) c.engine
        c.received.messages c.mail c.received.room c.received.me };
}

impl<S: Script<3>> ServerCore<S> {
    /// A server in round 0, or ended if the script has no rounds. `inputs` are its points of the
    /// inputs; it deals the words of `masks`, and draws its numbers from `coefficients`. No other
    /// call takes memory.
    pub fn start(
        alloc: Global,
        me: Point,
        script: S,
        inputs: FeList,
        masks: Tape,
        coefficients: Tape,
    ) -> Result<ServerCore<S>, StartFault>
        requires inputs { length inputs ≡ S.inputs_of script }
        requires masks { masks.passed ≡ 0 }
        requires coefficients { coefficients.passed ≡ 0 }
        ensures words { (have : ℕ) → IsErrOf result (TooFewWords have)
            ↔ ((have ≡ length (left_of coefficients)) × (have < S.secrets_of script)) }
        ensures masks { (have : ℕ) → IsErrOf result (TooFewMasks have)
            ↔ ((S.secrets_of script ≤ length (left_of coefficients))
            × (have ≡ length masks.words) × (have < S.masks_of script)) }
        ensures core { IfOk result (λ c. c ≡ fresh S.batch_of me script inputs masks coefficients) }
        ensures fresh { IfOk result (IsFresh S.batch_of S.inputs_of) }
        ensures fits { IfOk result (λ c. (o : Setup)
            → OpensAt S.batch_of o me script inputs masks.words coefficients.words
            → Fits S.batch_of o nothing c) }
    {
        let (received, wires, opened) = take_room(alloc, me, &script, &masks, &coefficients)?;
        let engine = Engine::start(
            me,
            script,
            inputs.as_slice(),
            masks,
            coefficients,
            wires,
            opened,
        );
        let mail = RoundBox::new(me, engine.size());
        Ok(ServerCore {
            engine,
            mail,
            received,
        })
    }

    /// Hands out the two messages of the round, to the lower peer first. If both messages to
    /// this server of that round are in, it then passes the round. The answer is `None` if the
    /// messages of the round were handed out before, or the script has ended. In a run it answers
    /// with messages at most twice between two deliveries.
    pub fn out(&mut self) -> Option<[RoundMessage; 2]>
        ensures quiet { IsNone result ↔ (is_quiet S.batch_of self.old ≡ true) }
        ensures same { IfNone result (self.new ≡ self.old) }
        ensures keeps { Keeps self.old self.new }
        ensures moves { IfSome result (λ m. Moves self.old self.new) }
        ensures within { IfSome result (λ m. self.old.round < S.rounds_of self.old.script) }
        ensures hands { IfSome result (λ m. m ≡ messages_out S.batch_of self.old) }
        ensures leaves { IfSome result (λ m. HandsOut S.batch_of self.old self.new) }
        ensures fits { (o : Setup) (x : Delivered) → Fits S.batch_of o x self.old
            → Fits S.batch_of o x self.new }
        ensures messages { (o : Setup) (x : Delivered) → Fits S.batch_of o x self.old
            → IfSome result (λ m. m ≡ messages_from o self.old.me self.old.round) }
    {
        if self.sent() {
            return None;
        }
        let me = self.engine.me();
        let mut low = RoundMessage::blank(me, me);
        let mut high = RoundMessage::blank(me, me);
        self.hand_out(&mut low, &mut high);
        Some([low, high])
    }

    /// Hands out the two messages of the round as `out` does, to the lower peer first, in the place of
    /// two others. They were not handed out before, and the script has not ended.
    pub fn hand_out(&mut self, low: &mut RoundMessage, high: &mut RoundMessage)
        requires { is_quiet S.batch_of self.old ≡ false }
        ensures keeps { Keeps self.old self.new }
        ensures moves { Moves self.old self.new }
        ensures within { self.old.round < S.rounds_of self.old.script }
        ensures hands { low.new ∷ high.new ∷ [] ≡ messages_out S.batch_of self.old }
        ensures leaves { HandsOut S.batch_of self.old self.new }
        ensures fits { (o : Setup) (x : Delivered) → Fits S.batch_of o x self.old
            → Fits S.batch_of o x self.new }
        ensures messages { (o : Setup) (x : Delivered) → Fits S.batch_of o x self.old
            → AreSent o self.old.me self.old.round low.new high.new }
    {
        let me = self.engine.me();
        let round = self.engine.round();
        self.engine.hand_out(&mut low.numbers, &mut high.numbers);
        address(low, me, Side::Low, round);
        address(high, me, Side::High, round);
        let ready = self.mail.ready();
        if ready {
            self.turn();
        }
    }

    /// Whether `out` would answer `None`.
    pub fn sent(&self) -> bool
        ensures { result ≡ is_quiet S.batch_of self.now }
    {
        self.engine.handed() || self.engine.ended()
    }

    /// Gives the server a message. At `Ready` it passes the round. An ended server changes nothing.
    pub fn deliver(&mut self, m: &RoundMessage) -> Verdict
        requires sent { is_quiet S.batch_of self.old ≡ true }
        ensures keeps { Keeps self.old self.new }
        ensures masks { self.new.masks ≡ self.old.masks }
        ensures coefficients { self.new.coefficients ≡ self.old.coefficients }
        ensures ended { has_ended S.batch_of self.old ≡ true
            → (self.new ≡ self.old) × IsLateVerdict self.old m.now result }
        ensures verdict { has_ended S.batch_of self.old ≡ false
            → Answers S.batch_of self.old self.new m.now result }
        ensures fits { (o : Setup) (x : Delivered) (s : SideOf) (t : ℕ) → Fits S.batch_of o x self.old
            → m.now ≡ message_of o (peer self.old.me s) self.old.me t → IsRound o t
            → t ≤ self.old.round + 1 → Fits S.batch_of o
            (with_triple x (record { from = peer self.old.me s; to = self.old.me; round = t }))
            self.new }
        ensures told { (o : Setup) (x : Delivered) (s : SideOf) (t : ℕ) → Fits S.batch_of o x self.old
            → m.now ≡ message_of o (peer self.old.me s) self.old.me t → IsRound o t
            → t ≤ self.old.round + 1
            → result ≡ verdict_on x self.old.me self.old.round s t }
    {
        if self.engine.ended() {
            return self.late_verdict(m);
        }
        let verdict = self.mail.offer(m);
        if let Verdict::Ready = verdict {
            self.turn();
        }
        verdict
    }

    /// What an ended server says of a message.
    fn late_verdict(&self, m: &RoundMessage) -> Verdict
        ensures { IsLateVerdict self.now m.now result }
    {
        let me = self.engine.me();
        let round = self.engine.round();
        if m.to != me || m.from == me {
            Verdict::Stranger
        } else if m.round < round {
            Verdict::Old
        } else {
            Verdict::TooEarly(round)
        }
    }

    /// Passes the round, whose messages are both in.
    fn turn(&mut self)
        requires goes { has_ended S.batch_of self.old ≡ false }
        requires handed { self.old.handed ≡ true }
        requires both { HasBoth self.old.mail.now }
        ensures { self.new ≡ moved_on S.batch_of self.old }
    {
        self.engine.pass(self.mail.numbers(Side::Low), self.mail.numbers(Side::High));
        self.received.push(self.mail.message(Side::Low), self.mail.message(Side::High));
        let size = self.engine.size();
        self.mail.turn(size);
    }

    /// Whether the script has ended.
    pub fn ended(&self) -> bool
        ensures { result ≡ has_ended S.batch_of self.now }
    {
        self.engine.ended()
    }

    /// How many rounds it has passed.
    pub fn round(&self) -> u32
        ensures { result ≡ self.now.round }
    {
        self.engine.round()
    }

    /// Which server it is.
    pub fn me(&self) -> Point
        ensures { result ≡ self.now.me }
    {
        self.engine.me()
    }

    pub fn script(&self) -> &S
        ensures { result.now ≡ self.now.script }
    {
        self.engine.script()
    }

    /// The opened numbers, in the order in which they were opened.
    pub fn opened(&self) -> &[Fe]
        ensures { result.now ≡ self.now.opened }
    {
        self.engine.opened()
    }

    /// The words that it deals, with how many of them are dealt.
    pub fn masks(&self) -> &Tape
        ensures { result.now ≡ self.now.masks }
    {
        self.engine.masks()
    }

    /// The words from which it draws its numbers, with how many of them are passed.
    pub fn coefficients(&self) -> &Tape
        ensures { result.now ≡ self.now.coefficients }
    {
        self.engine.coefficients()
    }

    /// The numbers that the sender sent it in a round that it has passed, or `None` if it has
    /// not passed the round or is the sender itself.
    pub fn received(&self, round: u32, sender: Point) -> Option<&[Fe]>
        ensures none { IsNone result ↔ ((self.now.round ≤ round) ⊎ (sender ≡ self.now.me)) }
        ensures numbers { option_map (λ numbers. numbers.now) result
            ≡ received_from self.now round sender }
        ensures few { IfSome result (λ numbers. length numbers.now ≤ MOST_NUMBERS) }
    {
        let side = Side::of(self.engine.me(), sender)?;
        if round >= self.engine.round() {
            return None;
        }
        Some(self.received.numbers(round as usize, side))
    }
}
