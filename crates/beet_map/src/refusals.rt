//! Where two worlds do not look alike to a server.

ghost use Rattle.std.specs.Prelude.{◌≡◌, ◌≤◌, ◌<◌, ℕ, IfErr, IfNone, IfOk, IfSome, OnOk, length, max, slice_get};
ghost use Rattle.std.specs.Prelude.{slice_index, take};
ghost use Rattle.beet_field.specs.Field.{IsElement};
ghost use Rattle.beet_field.specs.Trio.{member};
ghost use Rattle.beet_gates.specs.Clear.{rounds_run};
ghost use Rattle.beet_gates.specs.Scripts.{HasWords};
ghost use Rattle.beet_map.specs.Refused.{DifferFirst, HasSecrets, LookSame, Refuses, SameMasks, SameOpened, SameShares};
ghost use Rattle.beet_map.specs.Refused.{opened_in};
ghost use Rattle.beet_map.specs.Secrets.{shares_of, values_of};
ghost use Rattle.beet_map.specs.declared.refusals.GateFault.TheVariants.{OutOfMemory, RevealDiffers};

use crate::secrets::Secrets;
use crate::stage::points;
use beet_field::{Fe, Point};
use beet_gates::{ClearRun, Script, clear_run};
use beet_shamir::Line;
use beet_words::Word;
use std::alloc::{AllocError, Global};
use thiserror::Error;

/// Why a server can tell one world from another.
#[derive(Clone, Copy, PartialEq, Eq, Debug, Error)]
pub enum GateFault {
    /// The first input at which the server's points differ.
    #[error("the server's points of input {0} differ")]
    InputsDiffer(u32),
    /// The first of the server's mask words that differs, counted from 0.
    #[error("mask word {0} of the server differs")]
    OwnMaskDiffers(u32),
    /// The first opened number that differs, counted from 0, with the number of each world; none if
    /// a run opens fewer.
    #[error("opened number {place} differs")]
    RevealDiffers {
        place: u64,
        first: Option<Fe>,
        second: Option<Fe>,
    },
    /// Memory ran out.
    #[error("out of memory")]
    OutOfMemory,
}

impl From<AllocError> for GateFault {
    ghost use Rattle.std.specs.Prelude.{◌≡◌};
    ghost use Rattle.beet_map.specs.declared.refusals.GateFault.TheVariants.{OutOfMemory};

    ghost from_gives = { λ _ fault. fault ≡ OutOfMemory };

    fn from(_error: AllocError) -> GateFault {
        GateFault::OutOfMemory
    }
}

/// The number at a place, or none past the end.
fn item(numbers: &[Fe], place: usize) -> Option<Fe>
    ensures { result ≡ slice_get numbers.now place }
{
    numbers.get(place).copied()
}

/// The first place at which two lists of numbers differ.
fn first_difference(first: &[Fe], second: &[Fe]) -> Option<usize>
    ensures found { IfSome result (λ place. DifferFirst first.now second.now place) }
    ensures within { IfSome result (λ place. place < max (length first.now) (length second.now)) }
    ensures none { IfNone result (first.now ≡ second.now) }
{
    for place in 0..first.len().max(second.len()) {
        if item(first, place) != item(second, place) {
            return Some(place);
        }
    }
    None
}

/// The first of so many words at which two lists differ.
fn first_other_word(first: &[Word], second: &[Word], count: u32) -> Option<u32>
    requires first { count ≤ length first.now }
    requires second { count ≤ length second.now }
    ensures found { IfSome result (DifferFirst (take count first.now) (take count second.now)) }
    ensures none { IfNone result (take count first.now ≡ take count second.now) }
{
    for place in 0..count {
        if first[place as usize] != second[place as usize] {
            return Some(place);
        }
    }
    None
}

fn values(alloc: Global, lines: &[Line]) -> Result<Vec<Fe>, AllocError>
    ensures values { IfOk result (λ values. values.items ≡ values_of lines.now) }
    ensures elements { IfOk result (λ values. (k : ℕ) → IsElement (slice_index values.items k)) }
{
    let mut values = Vec::with_capacity(alloc, lines.len())?;
    for line in lines {
        // Each number of the field is below the modulus, and so are the numbers of the list.
        let _below = line.value.value();
        values.push(line.value)?;
    }
    Ok(values)
}

/// The script's run on the values of a world.
fn run_on_values<S: Script<3>>(
    alloc: Global,
    script: &S,
    secrets: &Secrets,
) -> Result<ClearRun, GateFault>
    requires { HasSecrets (S.inputs_of script.now) (S.masks_of script.now) secrets.now }
    ensures opened { IfOk result (λ run.
        run.opened ≡ opened_in (S.batch_of script.now) (S.rounds_of script.now) secrets.now) }
    ensures rounds { IfOk result (λ run. run.rounds ≡ rounds_run (S.batch_of script.now)
        (S.rounds_of script.now) (values_of secrets.now.inputs) secrets.now.masks) }
    ensures elements { OnOk result
        ((k : ℕ) → IsElement (slice_index (values_of secrets.now.inputs) k)) }
    ensures want { IfErr result (λ fault. fault ≡ OutOfMemory) }
{
    let inputs = values(alloc, secrets.inputs.as_slice())?;
    Ok(clear_run(alloc, script, inputs.as_slice(), &secrets.masks)?)
}

/// The first input at which the server's points differ.
fn first_other_input(
    alloc: Global,
    me: Point,
    first: &Secrets,
    second: &Secrets,
) -> Result<Option<usize>, AllocError>
    ensures found { IfOk result (λ found. IfSome found
        (DifferFirst (shares_of first.now.inputs me) (shares_of second.now.inputs me))) }
    ensures within { IfOk result (λ found. IfSome found
        (λ wire. wire < max (length first.now.inputs) (length second.now.inputs))) }
    ensures none { IfOk result (λ found. IfNone found (SameShares me first.now second.now)) }
{
    let here = points(alloc, first.inputs.as_slice(), me)?;
    let there = points(alloc, second.inputs.as_slice(), me)?;
    Ok(first_difference(here.as_slice(), there.as_slice()))
}

/// The first of so many of the server's mask words that differs.
fn first_other_mask(me: Point, first: &Secrets, second: &Secrets, count: u32) -> Option<u32>
    requires first { HasWords count first.now.masks }
    requires second { HasWords count second.now.masks }
    ensures found { IfSome result (DifferFirst (take count (member first.now.masks me))
        (take count (member second.now.masks me))) }
    ensures none { IfNone result (SameMasks count me first.now second.now) }
{
    let own = first.masks.get(me).as_slice();
    let other = second.masks.get(me).as_slice();
    first_other_word(own, other, count)
}

/// The rounds of two runs that open the same numbers, or the first that differs.
fn rounds_in_both(first: &ClearRun, second: &ClearRun) -> Result<u32, GateFault>
    ensures same { IfOk result (λ _. first.now.opened ≡ second.now.opened) }
    ensures rounds { IfOk result (λ rounds. rounds ≡ first.now.rounds) }
    ensures differ { IfErr result (λ fault. (place : ℕ)
        × DifferFirst first.now.opened second.now.opened place
        × (fault ≡ RevealDiffers place (slice_get first.now.opened place)
        (slice_get second.now.opened place))) }
{
    let here = first.opened.as_slice();
    let there = second.opened.as_slice();
    match first_difference(here, there) {
        None => Ok(first.rounds),
        Some(place) => Err(GateFault::RevealDiffers {
            place: place as u64,
            first: item(here, place),
            second: item(there, place),
        }),
    }
}

/// The rounds of the script's runs in two worlds that look alike to the server, or the first refusal.
pub(crate) fn rounds_alike<S: Script<3>>(
    alloc: Global,
    me: Point,
    script: &S,
    first: &Secrets,
    second: &Secrets,
) -> Result<u32, GateFault>
    requires first { HasSecrets (S.inputs_of script.now) (S.masks_of script.now) first.now }
    requires second { HasSecrets (S.inputs_of script.now) (S.masks_of script.now) second.now }
    ensures same { IfOk result (λ _. LookSame (S.batch_of script.now) (S.rounds_of script.now)
        (S.masks_of script.now) me first.now second.now) }
    ensures rounds { IfOk result (λ rounds. rounds ≡ rounds_run (S.batch_of script.now)
        (S.rounds_of script.now) (values_of first.now.inputs) first.now.masks) }
    ensures first_elements { OnOk result
        ((k : ℕ) → IsElement (slice_index (values_of first.now.inputs) k)) }
    ensures second_elements { OnOk result
        ((k : ℕ) → IsElement (slice_index (values_of second.now.inputs) k)) }
    ensures refused { IfErr result (Refuses (S.batch_of script.now) (S.rounds_of script.now)
        (S.masks_of script.now) me first.now second.now) }
{
    // The number of inputs is a u32, so each of them is counted by one.
    let _inputs = script.inputs();
    if let Some(wire) = first_other_input(alloc, me, first, second)? {
        return Err(GateFault::InputsDiffer(wire as u32));
    }
    if let Some(place) = first_other_mask(me, first, second, script.masks()) {
        return Err(GateFault::OwnMaskDiffers(place));
    }
    let here = run_on_values(alloc, script, first)?;
    let there = run_on_values(alloc, script, second)?;
    rounds_in_both(&here, &there)
}
