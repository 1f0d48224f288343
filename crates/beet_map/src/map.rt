//! The map between two worlds.

ghost use Rattle.std.specs.Prelude.{IfErr, IfOk};
ghost use Rattle.beet_gates.specs.Scripts.{HasWords};
ghost use Rattle.beet_sharing.specs.Runs.{numbers_of};
ghost use Rattle.beet_map.specs.Mapped.{IsOnlyImage, IsOnlySource, WordsLookAlike, WordsMapped};
ghost use Rattle.beet_map.specs.Refused.{HasSecrets, LookSame, Refuses};

use crate::refusals::{GateFault, rounds_alike};
use crate::secrets::Secrets;
use crate::walk::map_numbers;
use crate::words::{all_back, all_numbers};
use beet_field::{Point, Trio};
use beet_gates::Script;
use beet_words::WordList;
use std::alloc::Global;

/// The coefficient words of the second world that show the server `me` what these words show it in
/// the first: its points, each message to it and the opened numbers are the same in both.
///
/// They are the only such words that keep the places of the words of all ones, and they are mapped from these words
/// alone. Words past those that the run draws stay as they are. The refusals are tested in the order of [`GateFault`];
/// want of memory may come at any time.
pub fn gate_map<S: Script<3>>(
    alloc: Global,
    me: Point,
    script: &S,
    first: &Secrets,
    second: &Secrets,
    coefficients: &Trio<WordList>,
) -> Result<Trio<WordList>, GateFault>
    requires first { HasSecrets (S.inputs_of script.now) (S.masks_of script.now) first.now }
    requires second { HasSecrets (S.inputs_of script.now) (S.masks_of script.now) second.now }
    requires numbers { HasWords (S.secrets_of script.now) (numbers_of coefficients.now) }
    ensures same { IfOk result (λ _. LookSame (S.batch_of script.now) (S.rounds_of script.now)
        (S.masks_of script.now) me first.now second.now) }
    ensures mapped { IfOk result (WordsMapped (S.batch_of script.now) (S.rounds_of script.now) me
        first.now second.now coefficients.now) }
    ensures looks { IfOk result (WordsLookAlike (S.batch_of script.now) (S.rounds_of script.now) me
        first.now second.now coefficients.now) }
    ensures only { IfOk result (IsOnlyImage (S.batch_of script.now) (S.rounds_of script.now) me
        first.now second.now coefficients.now) }
    ensures back { IfOk result (IsOnlySource (S.batch_of script.now) (S.rounds_of script.now) me
        first.now second.now coefficients.now) }
    ensures refused { IfErr result (Refuses (S.batch_of script.now) (S.rounds_of script.now)
        (S.masks_of script.now) me first.now second.now) }
{
    let rounds = rounds_alike(alloc, me, script, first, second)?;
    let drawn = all_numbers(alloc, coefficients)?;
    let numbers = map_numbers(alloc, me, script, rounds, first, second, drawn)?;
    let mapped = all_back(alloc, coefficients, &numbers)?;
    Ok(mapped)
}
