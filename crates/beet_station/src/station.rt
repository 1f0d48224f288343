//! One server with its ends, and the loop that runs it.

ghost use Rattle.std.specs.Prelude.{◌≡◌, ◌≤◌, ◌+◌, ℕ, true, false, [], drop, length};
ghost use Rattle.beet_round.specs.Sides.{peer};
ghost use Rattle.beet_round.specs.declared.sides.Side.{Side};
ghost use Rattle.beet_sharing.specs.Runs.{HasRounds, Setup};
ghost use Rattle.beet_delivery.specs.Events.{Delivered, with_triple};
ghost use Rattle.beet_server.specs.Answers.{Keeps};
ghost use Rattle.beet_server.specs.Cores.{has_ended, is_quiet};
ghost use Rattle.beet_server.specs.Fits.{Fits};
ghost use Rattle.beet_link.specs.Ends.{one_on};
ghost use Rattle.beet_link.specs.Streams.{stream};
ghost use Rattle.beet_station.specs.Notes.{Awaits, notes_left};
ghost use Rattle.beet_station.specs.Stations.{HasHeard, HasPut, IsEnded, IsTied};

use crate::notes::Sink;
use beet_field::{Fe, Point, Trio};
use beet_gates::Script;
use beet_link::{Gate, GateNote, LinkRx, LinkTx};
use beet_round::{RoundMessage, Verdict};
use beet_server::ServerCore;
use std::snapshot::Snapshot;
use std::sync::Wait;
use std::time::Clock;

/// A server with its ends: to and from its lower and its higher peer.
#[derive(Drop)]
pub struct Station<S: Script<3>> {
    pub core: ServerCore<S>,
    pub to_low: LinkTx,
    pub to_high: LinkTx,
    pub from_low: LinkRx,
    pub from_high: LinkRx,
}

/// The messages that a server is to write next, each in memory of its own: to its lower and to its higher peer.
/// Messages go round: who has read one writes its next one there.
#[derive(Drop)]
pub struct Mail {
    pub low: Box<RoundMessage>,
    pub high: Box<RoundMessage>,
}

/// Waits for the next message of a link, and gives it to the server. The message comes back, to be written anew.
fn hear<S: Script<3>, R: Wait + Clock>(
    rt: &R,
    core: &mut ServerCore<S>,
    from: &mut LinkRx,
) -> (Verdict, Box<RoundMessage>)
    requires { is_quiet S.batch_of core.old ≡ true }
    ensures taken { from.new ≡ one_on from.old }
    ensures keeps { Keeps core.old core.new }
    ensures heard { HasHeard S.batch_of core.old core.new from.old result.0 }
    ensures fits { (o : Setup) (rounds : ℕ) (x : Delivered) (side : Side)
        → HasRounds o rounds → Fits S.batch_of o x core.old
        → from.old.stream ≡ stream o rounds (peer core.old.me side) core.old.me
        → from.old.moved ≤ core.old.round + 1 → Fits S.batch_of o
        (with_triple x (record {
          from = peer core.old.me side;
          to = core.old.me;
          round = from.old.moved;
        })) core.new }
{
    let message = from.wait(rt);
    let verdict = core.deliver(&message);
    (verdict, message)
}

/// The numbers from a place on.
fn behind(numbers: &[Fe], place: usize) -> &[Fe]
    requires { place ≤ length numbers.now }
    ensures { result.now ≡ drop place numbers.now }
{
    &numbers[place..]
}

/// Sends both messages of the round, in the memory of the mail. It never waits.
pub fn put_both<S: Script<3>, R: Wait>(
    rt: &R,
    _me: Point,
    station: &mut Station<S>,
    mail: Mail,
    _run: &Snapshot<Trio<ServerCore<S>>>,
)
    requires tied { IsTied S.batch_of S.inputs_of S.rounds_of _run.now.value _me station.old }
    requires going { has_ended S.batch_of station.old.core ≡ false }
    ensures { HasPut S.batch_of S.inputs_of S.rounds_of _run.now.value _me station.old station.new }
{
    let Mail { mut low, mut high } = mail;
    station.core.hand_out(&mut low, &mut high);
    station.to_low.put(rt, low);
    station.to_high.put(rt, high);
}

/// One round behind the gate: the server puts its messages, takes those of its peers, and tells what the round opened.
fn round<S: Script<3>, R: Wait + Clock, K: Sink>(
    rt: &R,
    me: Point,
    station: &mut Station<S>,
    mail: Mail,
    sink: &mut K,
    run: &Snapshot<Trio<ServerCore<S>>>,
) -> Mail
    requires tied { IsTied S.batch_of S.inputs_of S.rounds_of run.now.value me station.old }
    requires going { has_ended S.batch_of station.old.core ≡ false }
    requires told { Awaits (K.due sink.old)
        (notes_left S.batch_of S.inputs_of S.rounds_of run.now.value me station.old.core.round) }
    ensures tied { IsTied S.batch_of S.inputs_of S.rounds_of run.now.value me station.new }
    ensures told { Awaits (K.due sink.new)
        (notes_left S.batch_of S.inputs_of S.rounds_of run.now.value me station.new.core.round) }
    ensures same { K.origin sink.new ≡ K.origin sink.old }
{
    let round = station.core.round();
    let before = station.core.opened().len();
    put_both(rt, me, station, mail, run);
    let (_, low) = hear(rt, &mut station.core, &mut station.from_low);
    let (_, high) = hear(rt, &mut station.core, &mut station.from_high);
    sink.tell(rt, me, round, behind(station.core.opened(), before));
    Mail { low, high }
}

/// Runs the server to its end, in the memory of the messages of its mail, and tells of each round that it has passed.
/// It meets the gate in each round before it puts its messages.
pub fn serve<S: Script<3>, R: Wait + Clock, G: Gate, K: Sink>(
    rt: &R,
    gate: &G,
    me: Point,
    station: &mut Station<S>,
    mail: Mail,
    sink: &mut K,
    run: &Snapshot<Trio<ServerCore<S>>>,
) -> Mail
    requires tied { IsTied S.batch_of S.inputs_of S.rounds_of run.now.value me station.old }
    requires told { Awaits (K.due sink.old)
        (notes_left S.batch_of S.inputs_of S.rounds_of run.now.value me station.old.core.round) }
    ensures ended { IsEnded S.batch_of S.inputs_of S.rounds_of run.now.value me station.new.core }
    ensures told { Awaits (K.due sink.new) [] }
    ensures same { K.origin sink.new ≡ K.origin sink.old }
{
    let mut mail = mail;
    let mut seat = gate.seat(me);
    for _ in rt.forever() {
        if station.core.ended() {
            return mail;
        }
        let note = GateNote {
            server: me,
            round: station.core.round(),
        };
        gate.meet(&mut seat, note);
        mail = round(rt, me, station, mail, sink, run);
    }
    unreachable!()
}
