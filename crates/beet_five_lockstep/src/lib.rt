//! Five servers that go round by round, on one thread.
#![tactic(auto)]

ghost use Rattle.std.specs.Prelude.{◌≡◌, ◌+◌, ℕ, Some, length};
ghost use Rattle.beet_weights.specs.Quadratics.{IsServer};
ghost use Rattle.beet_linear_sharing.specs.Runs.{Setup};
ghost use Rattle.beet_five_server.specs.Fits.{IsRound, messages_from};
ghost use Rattle.beet_five_lockstep.specs.FiveLockstep.{AreAtRound, AreSent, HasHanded, HaveEnded, IsAtRound, MayBegin};
ghost use Rattle.beet_five_lockstep.specs.FiveLockstep.{MayPass, MayTake, OfEach};

use beet_five_server::{FiveCore, FiveMessage, message_to};
use beet_gates::Script;

/// What the five servers hand out in a round, each four messages in rising order of the peers.
type Sent = [Option<[FiveMessage; 4]>; 5];

/// A server hands out its messages of the round.
fn hand_out<S: Script<5>>(core: &mut FiveCore<S>) -> Option<[FiveMessage; 4]>
    ensures { (o : Setup) (script : S) (t s : ℕ) → IsServer s → IsRound o t
        → IsAtRound S.batch_of o script t s core.old
        → HasHanded S.batch_of o script t 1 s core.new × (result ≡ Some (messages_from o s t)) }
{
    core.out()
}

/// Each server hands out its messages of the round.
fn hand_out_all<S: Script<5>>(cores: &mut Vec<FiveCore<S>>) -> Sent
    requires { length cores.old.items ≡ 5 }
    ensures count { length cores.new.items ≡ 5 }
    ensures room { length result ≡ 5 }
    ensures handed { (o : Setup) (script : S) (t : ℕ) → IsRound o t
        → AreAtRound S.batch_of o script t cores.old.items
        → OfEach cores.new.items (HasHanded S.batch_of o script t 1) }
    ensures sent { (o : Setup) (script : S) (t : ℕ) → IsRound o t
        → AreAtRound S.batch_of o script t cores.old.items → AreSent o t result }
{
    let mut sent: Sent = [None, None, None, None, None];
    for k in 0..5 {
        let core = &mut cores[k];
        sent[k] = hand_out(core);
    }
    sent
}

/// Gives a server the round's message from a server, unless that is the server itself.
fn take_from<S: Script<5>>(core: &mut FiveCore<S>, sent: &Sent, from: u32)
    requires from { IsServer from }
    requires may { MayTake S.batch_of from core.old sent.now }
    ensures { (o : Setup) (script : S) (t s : ℕ) → IsServer s → IsRound o t → AreSent o t sent.now
        → HasHanded S.batch_of o script t from s core.old
        → HasHanded S.batch_of o script t (from + 1) s core.new }
{
    let to = core.me();
    if from == to {
        return;
    }
    match &sent[from as usize - 1] {
        Some(messages) => {
            core.deliver(message_to(messages, from, to).copy());
        }
        None => unreachable!(),
    }
}

/// Gives a server the four messages of its round, in rising order of the senders, and so it passes the round.
fn take<S: Script<5>>(core: &mut FiveCore<S>, sent: &Sent)
    requires { MayTake S.batch_of 1 core.old sent.now }
    ensures { (o : Setup) (script : S) (t s : ℕ) → IsServer s → IsRound o t → AreSent o t sent.now
        → HasHanded S.batch_of o script t 1 s core.old
        → IsAtRound S.batch_of o script (t + 1) s core.new }
{
    for from in 1..6 {
        take_from(core, sent, from);
    }
}

/// One round: each server hands out its messages, and then takes those to it.
fn exchange<S: Script<5>>(cores: &mut Vec<FiveCore<S>>)
    requires { MayPass S.batch_of cores.old.items }
    ensures { (o : Setup) (script : S) (t : ℕ) → IsRound o t
        → AreAtRound S.batch_of o script t cores.old.items
        → AreAtRound S.batch_of o script (t + 1) cores.new.items }
{
    let sent = hand_out_all(cores);
    for k in 0..5 {
        let core = &mut cores[k];
        take(core, &sent);
    }
}

/// Runs five servers, 1 to 5 in order, from the start of their run to its end, round by round. Each message is
/// delivered in the round in which it is sent. No memory is taken.
pub fn lockstep_of_five<S: Script<5>>(cores: Vec<FiveCore<S>>) -> Vec<FiveCore<S>>
    requires { MayBegin S.batch_of cores.items }
    ensures { (o : Setup) (script : S) → AreAtRound S.batch_of o script 0 cores.items
        → HaveEnded S.batch_of o script result.items }
{
    let mut cores = cores;
    for _round in 0..cores[0].script().rounds() {
        if cores[0].ended() {
            return cores;
        }
        exchange(&mut cores);
    }
    cores
}
