//! The words of the servers in the second world.

ghost use Rattle.std.specs.Prelude.{◌≡◌, Err, IfErr, IfOk, MatchResult, Ok};
ghost use Rattle.beet_map.specs.declared.refusals.GateFault.TheVariants.{OutOfMemory};
ghost use Rattle.beet_trades.specs.Servers.{AreBelow, CanMap, ServersMapped, world_with};

use beet_field::{Fe, Point, Trio};
use beet_forms::beside;
use beet_gates::Script;
use beet_map::{GateFault, Secrets, gate_map};
use beet_shamir::Line;
use beet_turned::map_masks;
use beet_words::{WordList, Words};
use std::alloc::{AllocError, Global};

/// Each word of the three servers is below 2^61.
pub fn look_at(words: &Trio<WordList>)
    ensures { AreBelow words.now }
{
    let _one = words.one.as_slice();
    let _two = words.two.as_slice();
    let _three = words.three.as_slice();
}

/// The words of three servers, in memory of their own.
fn copy_of(alloc: Global, words: &Trio<WordList>) -> Result<Trio<WordList>, AllocError>
    ensures { IfOk result (λ copy. copy ≡ words.now) }
{
    Trio::try_of(|at| words.get(at).copy(alloc))
}

/// What is mapped between worlds that the server cannot tell: want of memory is the only fault.
fn unless_out_of_memory(
    mapped: Result<Trio<WordList>, GateFault>,
) -> Result<Trio<WordList>, AllocError>
    requires { IfErr mapped (λ fault. fault ≡ OutOfMemory) }
    ensures { IfOk result (λ words. (mapped ≡ Ok words) × AreBelow words) }
{
    match mapped {
        Ok(words) => {
            look_at(&words);
            Ok(words)
        }
        Err(GateFault::OutOfMemory) => Err(AllocError),
        Err(_) => unreachable!(),
    }
}

/// The mask words of the servers; their lines are let go.
fn into_masks(secrets: Secrets) -> Trio<WordList>
    ensures { result ≡ secrets.masks }
{
    secrets.masks
}

/// The mask words and the coefficient words of the second world, whose inputs lie on `lines`. In the first the servers
/// hold `here`, and draw from `words`.
fn map_from<S: Script<3>>(
    alloc: Global,
    me: Point,
    script: &S,
    losses: &[Fe],
    here: &Secrets,
    lines: Vec<Line>,
    words: &Trio<WordList>,
) -> Result<(Trio<WordList>, Trio<WordList>), AllocError>
    requires { CanMap (S.batch_of script.now) (S.rounds_of script.now) (S.inputs_of script.now)
        (S.masks_of script.now) (S.secrets_of script.now) me losses.now here.now lines.items words.now }
    ensures { IfOk result (λ mapped. ServersMapped (S.batch_of script.now) (S.rounds_of script.now) me losses.now
        here.now lines.items words.now mapped.0 mapped.1) }
{
    let (inputs, masks) = beside(lines, map_masks(alloc, me, losses, &here.masks))?;
    look_at(&masks);
    let there = Secrets { inputs, masks };
    let coefficients = unless_out_of_memory(gate_map(alloc, me, script, here, &there, words));
    beside(into_masks(there), coefficients)
}

/// The mask words and the coefficient words of the second world, from the words of the first. The inputs of the first
/// lie on the lines `here` and those of the second on the lines `there`, and the numbers that are compared, one after
/// another, lose so much. Server `me` must not be able to tell the worlds once the masks are mapped. Want of memory is
/// the only error.
pub fn map_servers<S: Script<3>>(
    alloc: Global,
    me: Point,
    script: &S,
    losses: &[Fe],
    here: Vec<Line>,
    there: Vec<Line>,
    words: &Words,
) -> Result<(Trio<WordList>, Trio<WordList>), AllocError>
    requires { CanMap (S.batch_of script.now) (S.rounds_of script.now) (S.inputs_of script.now)
        (S.masks_of script.now) (S.secrets_of script.now) me losses.now (world_with here.items words.now.masks)
        there.items words.now.coefficients }
    ensures { IfOk result (λ mapped. ServersMapped (S.batch_of script.now) (S.rounds_of script.now) me losses.now
        (world_with here.items words.now.masks) there.items words.now.coefficients mapped.0 mapped.1) }
{
    let (inputs, masks) = beside(here, copy_of(alloc, &words.masks))?;
    let here = Secrets { inputs, masks };
    let mapped = map_from(alloc, me, script, losses, &here, there, &words.coefficients);
    drop(here);
    mapped
}

/// The words of a world, from those of its servers, if they are there, and those of all who deal.
pub fn all_words(
    servers: Result<(Trio<WordList>, Trio<WordList>), AllocError>,
    bidders: Vec<WordList>,
) -> Result<Words, AllocError>
    ensures { MatchResult result
        (λ words. (servers ≡ Ok (words.masks, words.coefficients)) × (words.bidders ≡ bidders.items))
        (λ error. servers ≡ Err error) }
{
    let (masks, coefficients) = servers?;
    Ok(Words {
        masks,
        coefficients,
        bidders,
    })
}
