//! The walk through both worlds, batch by batch.

ghost use Rattle.std.specs.Prelude.{◌≡◌, ◌≤◌, ◌<◌, ◌*◌, ℕ, IfOk, OnOk, length};
ghost use Rattle.beet_linear_sharing.specs.Schemes.{five_servers};
ghost use Rattle.beet_linear_sharing.specs.Sharings.{IsAmong};
ghost use Rattle.beet_coalition.specs.Lists.{at_server};
ghost use Rattle.beet_coalition.specs.Watchers.{two_watch};
ghost use Rattle.beet_coalition_map.specs.Steps.{HasEnough, MovesBatch, NumbersMapped, SameLengths, acted, lets_added};
ghost use Rattle.beet_coalition_map.specs.Steps.{start_on};

use crate::begins::FiveSecrets;
use crate::lists::FiveLists;
use crate::moving::{At, move_batch};
use crate::stage::Stage;
use crate::watchers::Watchers;
use beet_gates::{Batch, Script};
use beet_weights::Quadratic;
use std::alloc::{AllocError, Global};

/// The most wires that an act gives: the 61 bits of each of five words.
const MOST_GIVEN: usize = 305;

/// One of two worlds: what it begins with, the numbers that its servers draw, and how far its run has come.
#[derive(Drop)]
struct World<'a> {
    secrets: &'a FiveSecrets,
    numbers: FiveLists,
    stage: Stage,
}

impl<'a> World<'a> {
    /// A world whose run of a script has done no batch, with room for all its rounds.
    fn start<S: Script<5>>(
        alloc: Global,
        script: &S,
        secrets: &'a FiveSecrets,
        numbers: FiveLists,
    ) -> Result<World<'a>, AllocError>
        ensures secrets { IfOk result (λ world. world.secrets.now ≡ secrets.now) }
        ensures numbers { IfOk result (λ world. world.numbers ≡ numbers) }
        ensures stage { IfOk result (λ world. world.stage ≡ start_on secrets.now.inputs) }
    {
        let stage = Stage::start(alloc, script, secrets.inputs.as_slice())?;
        Ok(World {
            secrets,
            numbers,
            stage,
        })
    }
}

/// Takes the runs of both worlds through a batch. The numbers of the second are moved before the products that rest on
/// them are formed.
fn step(
    two: Watchers,
    batch: &Batch,
    here: &mut World<'_>,
    there: &mut World<'_>,
    given: &mut Vec<Quadratic>,
) -> Result<(), AllocError>
    requires first { HasEnough batch.now.act here.old.numbers (lets_added batch.now here.old.stage) }
    requires moving { HasEnough batch.now.act there.old.numbers (lets_added batch.now here.old.stage) }
    requires second { (moved : _) → MovesBatch (two_watch two.a two.b) batch.now.act here.old.secrets.now.masks
        (lets_added batch.now here.old.stage) there.old.secrets.now.masks (lets_added batch.now there.old.stage)
        there.old.numbers moved → HasEnough batch.now.act moved (lets_added batch.now there.old.stage) }
    ensures first { OnOk result (here.new ≡ record here.old {
      stage = acted here.old.secrets.now.masks here.old.numbers batch.now.act (lets_added batch.now here.old.stage);
    }) }
    ensures second { OnOk result (there.new ≡ record there.old {
      numbers = there.new.numbers;
      stage = acted there.old.secrets.now.masks there.new.numbers batch.now.act
          (lets_added batch.now there.old.stage);
    }) }
    ensures moves { OnOk result (MovesBatch (two_watch two.a two.b) batch.now.act here.old.secrets.now.masks
        (lets_added batch.now here.old.stage) there.old.secrets.now.masks (lets_added batch.now there.old.stage)
        there.old.numbers there.new.numbers) }
{
    let (begins, others) = (here.secrets, there.secrets);
    let (first, second) = (begins.masks.as_slice(), others.masks.as_slice());
    here.stage.add_lets(batch)?;
    there.stage.add_lets(batch)?;
    let one = At {
        masks: first,
        stage: &here.stage,
    };
    let other = At {
        masks: second,
        stage: &there.stage,
    };
    move_batch(two, &batch.act, one, other, &mut there.numbers);
    here.stage.act(&batch.act, first, &here.numbers, given)?;
    there.stage.act(&batch.act, second, &there.numbers, given)
}

/// Takes the runs of both worlds to the end of the first, and moves the numbers of the second. Both begin with the same
/// numbers.
fn walk<S: Script<5>>(
    two: Watchers,
    script: &S,
    here: &mut World<'_>,
    there: &mut World<'_>,
    given: &mut Vec<Quadratic>,
) -> Result<(), AllocError>
    requires here { here.old.stage ≡ start_on here.old.secrets.now.inputs }
    requires there { there.old.stage ≡ start_on there.old.secrets.now.inputs }
    requires numbers { there.old.numbers ≡ here.old.numbers }
    requires enough { (j : ℕ) → IsAmong five_servers.servers j →
        2 * S.secrets_of script.now ≤ length (at_server here.old.numbers j) }
    ensures mapped { OnOk result (NumbersMapped two.a two.b (S.batch_of script.now) here.old.secrets.now
        there.old.secrets.now here.old.numbers there.new.numbers) }
    ensures lengths { OnOk result (SameLengths here.old.numbers there.new.numbers) }
{
    let mut place = script.begin();
    let mut batch = Batch::end();
    for t in 0..script.rounds() {
        let opened = here.stage.opened.as_slice();
        script.refill(t, opened, &mut place, &mut batch);
        if batch.act.is_end() {
            return Ok(());
        }
        step(two, &batch, here, there, given)?;
    }
    Ok(())
}

/// The numbers of the second world that show the two servers the same as these do in the first.
pub(crate) fn map_numbers<S: Script<5>>(
    alloc: Global,
    two: Watchers,
    script: &S,
    first: &FiveSecrets,
    second: &FiveSecrets,
    numbers: FiveLists,
) -> Result<FiveLists, AllocError>
    requires { (j : ℕ) → IsAmong five_servers.servers j →
        2 * S.secrets_of script.now ≤ length (at_server numbers j) }
    ensures mapped { IfOk result (λ mapped. NumbersMapped two.a two.b (S.batch_of script.now) first.now
        second.now numbers mapped) }
    ensures lengths { IfOk result (λ mapped. SameLengths numbers mapped) }
{
    let mut given = Vec::with_capacity(alloc, MOST_GIVEN)?;
    let mut there = World::start(alloc, script, second, numbers.copy(alloc)?)?;
    let mut here = World::start(alloc, script, first, numbers)?;
    walk(two, script, &mut here, &mut there, &mut given)?;
    Ok(there.numbers)
}
