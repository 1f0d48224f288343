//! Three servers that go round by round, on one thread.

ghost use Rattle.std.specs.Prelude.{◌≡◌, ◌+◌, ℕ};
ghost use Rattle.beet_field.specs.Trio.{member};
ghost use Rattle.beet_field.specs.declared.point.Point.{Point};
ghost use Rattle.beet_round.specs.Sides.{peer};
ghost use Rattle.beet_round.specs.declared.sides.Side.TheVariants.{Low, High};
ghost use Rattle.beet_server.specs.Answers.{Keeps};
ghost use Rattle.beet_server.specs.Cores.{AreFresh};
ghost use Rattle.beet_delivery.specs.Events.{all_delivered};
ghost use Rattle.beet_server.specs.Fits.{IsRound, message_of};
ghost use Rattle.beet_sharing.specs.Runs.{Setup};
ghost use Rattle.beet_server.specs.Lockstep.{AreAtRound, HasHanded, HaveEnded, IsAtRound, MayPass, MayTake};

use beet_field::Trio;
use beet_gates::Script;
use beet_round::{RoundMessage, ToPeers};
use beet_server::ServerCore;

/// Gives a server both messages of its round, and so it passes the round.
fn take_both<S: Script<3>>(core: &mut ServerCore<S>, low: &RoundMessage, high: &RoundMessage)
    requires { MayTake S.batch_of core.old low.now high.now }
    ensures keeps { Keeps core.old core.new }
    ensures passed { (o : Setup) (t : ℕ) (s : Point) → IsRound o t
        → HasHanded S.batch_of o t (all_delivered t) s core.old
        → low.now ≡ message_of o (peer s Low) s t → high.now ≡ message_of o (peer s High) s t
        → IsAtRound S.batch_of o (t + 1) s core.new }
{
    core.deliver(low);
    core.deliver(high);
}

/// One round: each server hands out its messages, in the place of others, and each message is
/// delivered.
fn exchange<S: Script<3>>(cores: &mut Trio<ServerCore<S>>, sent: &mut Trio<ToPeers>)
    requires { MayPass S.batch_of cores.old }
    ensures keeps { (s : Point) → Keeps (member cores.old s) (member cores.new s) }
    ensures passed { (o : Setup) (t : ℕ) → IsRound o t → AreAtRound S.batch_of o t cores.old
        → AreAtRound S.batch_of o (t + 1) cores.new }
{
    cores.one.hand_out(&mut sent.one.low, &mut sent.one.high);
    cores.two.hand_out(&mut sent.two.low, &mut sent.two.high);
    cores
        .three
        .hand_out(&mut sent.three.low, &mut sent.three.high);
    take_both(&mut cores.one, &sent.two.low, &sent.three.low);
    take_both(&mut cores.two, &sent.one.low, &sent.three.high);
    take_both(&mut cores.three, &sent.one.high, &sent.two.high);
}

/// Runs three fresh servers to the end, round by round. Each message is delivered in the round in
/// which it is sent. No memory is taken, and the messages of all rounds lie in the same places.
pub fn lockstep<S: Script<3>>(cores: Trio<ServerCore<S>>) -> Trio<ServerCore<S>>
    requires { AreFresh S.batch_of S.inputs_of cores }
    ensures { HaveEnded S.batch_of S.inputs_of S.rounds_of cores result }
{
    let mut cores = cores;
    let mut sent = Trio::of(ToPeers::blank);
    for _round in 0..cores.one.script().rounds() {
        if cores.one.ended() {
            return cores;
        }
        exchange(&mut cores, &mut sent);
    }
    cores
}
