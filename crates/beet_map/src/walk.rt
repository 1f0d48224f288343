//! The walk through both worlds, batch by batch.

ghost use Rattle.std.specs.Prelude.{◌≡◌, ◌≢◌, ◌≤◌, ◌+◌, IfOk, OnOk, length, slice_index};
ghost use Rattle.beet_field.specs.Trio.{member};
ghost use Rattle.beet_gates.specs.Draws.{draws_in};
ghost use Rattle.beet_sharing.specs.Runs.{act_among, with_batch_lets};
ghost use Rattle.beet_map.specs.Mapped.{GateMapped};
ghost use Rattle.beet_map.specs.Premise.{MayMap, HasRoom};
ghost use Rattle.beet_map.specs.Steps.{HasEnough, MovesAt, MovesBatch, dealing, nothing_shared};
ghost use Rattle.beet_map.specs.Secrets.{begin_in};

use crate::moving::{Hidden, move_numbers, word_at};
use crate::numbers::Numbers;
use crate::secrets::Secrets;
use crate::stage::Stage;
use beet_field::{Fe, Point};
use beet_gates::{Act, Batch, Script};
use std::alloc::{AllocError, Global};

/// One of two worlds: what it hides, the numbers that its servers draw, and how far its run has come.
#[derive(Drop)]
struct World<'a> {
    secrets: &'a Secrets,
    numbers: Numbers,
    stage: Stage,
}

impl<'a> World<'a> {
    /// A world whose run has no wires yet.
    fn new(alloc: Global, secrets: &'a Secrets, numbers: Numbers) -> World<'a>
        ensures secrets { result.secrets.now ≡ secrets.now }
        ensures numbers { result.numbers ≡ numbers }
        ensures stage { result.stage ≡ nothing_shared }
    {
        World {
            secrets,
            numbers,
            stage: Stage::new(alloc),
        }
    }
}

/// What the numbers of a server may hide, in a run that has come so far.
fn hidden<'a>(secrets: &Secrets, stage: &'a Stage, server: Point) -> Hidden<'a>
    ensures points { result.points.now ≡ member stage.now.wires server }
    ensures word { result.word ≡ slice_index (member secrets.now.masks server) stage.now.dealt }
{
    Hidden {
        points: stage.wires.at(server),
        word: word_at(secrets.masks.get(server).as_slice(), stage.dealt),
    }
}

/// Moves the numbers that a server draws for an act, in its list. Those of `me` stay.
fn move_list(
    me: Point,
    act: &Act,
    here: &World<'_>,
    second: &Secrets,
    there: &Stage,
    server: Point,
    list: &mut [Fe],
)
    requires { here.now.stage.drawn + draws_in act.now ≤ length list.old }
    ensures same_length { length list.new ≡ length list.old }
    ensures own { server ≡ me → list.new ≡ list.old }
    ensures other { server ≢ me → MovesAt me act.now here.now.secrets.now here.now.stage second.now there.now
        server list.old list.new }
{
    if server != me {
        let first = hidden(here.secrets, &here.stage, server);
        let second = hidden(second, there, server);
        move_numbers(me, act, first, second, list, here.stage.drawn);
    }
}

/// Moves the numbers that the two servers other than `me` draw for an act in the second world. The lets
/// of its batch are among the wires of both stages.
fn move_batch(me: Point, act: &Act, here: &World<'_>, there: &mut World<'_>)
    requires { HasEnough act.now here.now.secrets.now.masks there.old.numbers here.now.stage }
    ensures secrets { there.new.secrets ≡ there.old.secrets }
    ensures stage { there.new.stage ≡ there.old.stage }
    ensures moves { MovesBatch me act.now here.now.secrets.now here.now.stage there.old.secrets.now
        there.old.stage there.old.numbers there.new.numbers }
{
    let (second, stage) = (there.secrets, &there.stage);
    let one = there.numbers.lists.one.as_mut_slice();
    move_list(me, act, here, second, stage, Point::One, one);
    let two = there.numbers.lists.two.as_mut_slice();
    move_list(me, act, here, second, stage, Point::Two, two);
    let three = there.numbers.lists.three.as_mut_slice();
    move_list(me, act, here, second, stage, Point::Three, three);
}

/// Takes the runs of both worlds through a batch. The numbers of the second are moved before the
/// products that rest on them are formed.
fn step(
    alloc: Global,
    me: Point,
    batch: &Batch,
    here: &mut World<'_>,
    there: &mut World<'_>,
) -> Result<(), AllocError>
    requires first { HasEnough batch.now.act here.old.secrets.now.masks here.old.numbers
        (with_batch_lets batch.now here.old.stage) }
    requires moving { HasEnough batch.now.act here.old.secrets.now.masks there.old.numbers
        (with_batch_lets batch.now here.old.stage) }
    requires second { (moved : _) → MovesBatch me batch.now.act here.old.secrets.now
        (with_batch_lets batch.now here.old.stage) there.old.secrets.now
        (with_batch_lets batch.now there.old.stage) there.old.numbers moved →
        HasEnough batch.now.act there.old.secrets.now.masks moved
        (with_batch_lets batch.now there.old.stage) }
    ensures first { OnOk result (here.new ≡ record here.old {
      stage = act_among (dealing here.old.secrets.now.masks here.old.numbers) batch.now.act
          (with_batch_lets batch.now here.old.stage);
    }) }
    ensures second { OnOk result (there.new ≡ record there.old {
      numbers = there.new.numbers;
      stage = act_among (dealing there.old.secrets.now.masks there.new.numbers) batch.now.act
          (with_batch_lets batch.now there.old.stage);
    }) }
    ensures moves { OnOk result (MovesBatch me batch.now.act here.old.secrets.now
        (with_batch_lets batch.now here.old.stage) there.old.secrets.now
        (with_batch_lets batch.now there.old.stage) there.old.numbers there.new.numbers) }
{
    here.stage.add_lets(batch)?;
    there.stage.add_lets(batch)?;
    move_batch(me, &batch.act, here, there);
    let (first, second) = (here.secrets, there.secrets);
    here.stage
        .act(alloc, &batch.act, &first.masks, &here.numbers)?;
    there
        .stage
        .act(alloc, &batch.act, &second.masks, &there.numbers)
}

/// Takes the runs of both worlds through so many rounds, and moves the numbers of the second. Both begin
/// with the same numbers, and no wires yet.
fn walk<S: Script<3>>(
    alloc: Global,
    me: Point,
    script: &S,
    rounds: u32,
    here: &mut World<'_>,
    there: &mut World<'_>,
) -> Result<(), AllocError>
    requires may { MayMap (S.batch_of script.now) me rounds here.old.secrets.now there.old.secrets.now }
    requires room { HasRoom rounds (begin_in (S.batch_of script.now) here.old.secrets.now here.old.numbers)
        there.old.secrets.now }
    requires here { here.old.stage ≡ nothing_shared }
    requires there { there.old.stage ≡ nothing_shared }
    requires numbers { there.old.numbers ≡ here.old.numbers }
    ensures { OnOk result (GateMapped me rounds
        (begin_in (S.batch_of script.now) here.old.secrets.now here.old.numbers)
        (begin_in (S.batch_of script.now) there.old.secrets.now there.new.numbers)) }
{
    let (first, second) = (here.secrets, there.secrets);
    here.stage.add_lines(first.inputs.as_slice())?;
    there.stage.add_lines(second.inputs.as_slice())?;
    let mut place = script.begin();
    let mut batch = Batch::end();
    for t in 0..rounds {
        let opened = here.stage.opened.as_slice();
        script.refill(t, opened, &mut place, &mut batch);
        step(alloc, me, &batch, here, there)?;
    }
    Ok(())
}

/// The numbers of the second world that show `me` the same as these do in the first. The script's run
/// has so many rounds in both.
pub(crate) fn map_numbers<S: Script<3>>(
    alloc: Global,
    me: Point,
    script: &S,
    rounds: u32,
    first: &Secrets,
    second: &Secrets,
    numbers: Numbers,
) -> Result<Numbers, AllocError>
    requires may { MayMap (S.batch_of script.now) me rounds first.now second.now }
    requires room { HasRoom rounds (begin_in (S.batch_of script.now) first.now numbers) second.now }
    ensures { IfOk result (λ mapped. GateMapped me rounds
        (begin_in (S.batch_of script.now) first.now numbers)
        (begin_in (S.batch_of script.now) second.now mapped)) }
{
    let mut there = World::new(alloc, second, numbers.copy(alloc)?);
    let mut here = World::new(alloc, first, numbers);
    let walked = walk(alloc, me, script, rounds, &mut here, &mut there);
    drop(here);
    walked?;
    Ok(there.numbers)
}
