//! Messages go out of a server and come to it.

ghost use Rattle.std.specs.Prelude.{◌≡◌, ◌<◌, true, ℕ};
ghost use Rattle.beet_round.specs.declared.sides.Side.{Side as SideOf};
ghost use Rattle.beet_delivery.specs.Events.{Delivered};
ghost use Rattle.beet_server.specs.Fits.{Fits};
ghost use Rattle.beet_sharing.specs.Runs.{HasRounds, Setup};
ghost use Rattle.beet_world.specs.Worlds.{sent_by};
ghost use Rattle.beet_world.specs.Happens.{HasTakenMessages, HoldsMessages, IsGiven, MayGive, MayTakeMessages};

use beet_gates::Script;
use beet_round::{RoundMessage, Verdict};
use beet_server::ServerCore;

/// Takes all messages that a server has to hand out, so that nothing is left. There is room for
/// those of all rounds. In a run it has at most two turns; the loop ends by the number of rounds,
/// which holds for every server.
pub(crate) fn hand_out<S: Script<3>>(core: &mut ServerCore<S>, sent: &mut Vec<[RoundMessage; 2]>)
    requires { HoldsMessages (S.rounds_of core.old.script) core.old sent.old }
    ensures took { HasTakenMessages S.batch_of (S.rounds_of core.old.script) core.old core.new
        sent.old sent.new }
    ensures fits { (o : Setup) (x : Delivered) → Fits S.batch_of o x core.old
        → Fits S.batch_of o x core.new }
    ensures sends { (o : Setup) (x : Delivered) → Fits S.batch_of o x core.old
        → sent.old.items ≡ sent_by o core.old → sent.new.items ≡ sent_by o core.new }
    ensures going { (o : Setup) (x : Delivered) (rounds : ℕ) → HasRounds o rounds
        → Fits S.batch_of o x core.old → (core.old.handed ≡ true → core.old.round < rounds)
        → core.new.handed ≡ true → core.new.round < rounds }
{
    let rounds = core.script().rounds() as usize;
    for _turn in 0..rounds + 1 {
        let Some(messages) = core.out() else {
            return;
        };
        sent.push_reserved(messages);
    }
    unreachable!()
}

/// Gives a server a message, and takes all messages that it then has to hand out.
pub(crate) fn give<S: Script<3>>(
    core: &mut ServerCore<S>,
    sent: &mut Vec<[RoundMessage; 2]>,
    message: &RoundMessage,
) -> Verdict
    requires { MayTakeMessages S.batch_of (S.rounds_of core.old.script) core.old sent.old }
    ensures took { HasTakenMessages S.batch_of (S.rounds_of core.old.script) core.old core.new
        sent.old sent.new }
    ensures given { (o : Setup) (x : Delivered) (rounds : ℕ) (s : SideOf) (t : ℕ)
        → MayGive S.batch_of o x rounds s t core.old sent.old.items message.now
        → IsGiven S.batch_of o x rounds s t core.old core.new sent.new.items result }
{
    let verdict = core.deliver(message);
    hand_out(core, sent);
    verdict
}
