//! How a run of a script begins at a server and passes a round, among any number of servers.

ghost use Rattle.std.specs.Prelude.{◌≡◌, ◌<◌, ◌≤◌, ◌+◌, ◌-◌, ◌*◌, ◌^◌, ◌++◌, ℕ, [], length, true, false, vec_capacity};
ghost use Rattle.beet_field.specs.declared.TheConstants.{MOST_NUMBERS};
ghost use Rattle.beet_words.specs.Tapes.{Tape, left_of};
ghost use Rattle.beet_gates.specs.Clear.{is_end, with_lets};
ghost use Rattle.beet_gates.specs.Ends.{ComesTo};
ghost use Rattle.beet_gates.specs.Scripts.{bounds_of, size_of};
ghost use Rattle.beet_server.specs.Sound.{IsSound};
ghost use Rattle.beet_server.specs.Values.{numbers_by, points_by};

use crate::parts::{Given, absorb, append_all, append_lets};
use beet_field::Fe;
use beet_gates::{Batch, Script};

/// The place and the batch at which a run begins. The points of the inputs and the lets of the batch are appended to
/// the wires, of which there are none; there must be room for all wires.
pub fn begin_run<S: Script<SERVERS>, const SERVERS: usize>(
    script: &S,
    inputs: &[Fe],
    wires: &mut Vec<Fe>,
) -> (S::Place, Batch)
    requires inputs { length inputs.now ≡ S.inputs_of script.now }
    requires none { wires.old.items ≡ [] }
    requires room { S.wires_of script.now ≤ vec_capacity wires.old }
    ensures place { S.is_at script.now 0 [] result.0 }
    ensures batch { result.1 ≡ S.batch_of script.now 0 [] }
    ensures wires { wires.new.items ≡ with_lets inputs.now (S.batch_of script.now 0 []).lets.items }
    ensures sound { (numbers : ℕ) (masks coefficients : Tape) (room : ℕ) → masks.passed ≡ 0
        → S.masks_of script.now ≤ length masks.words
        → numbers * S.secrets_of script.now ≤ length (left_of coefficients)
        → MOST_NUMBERS * S.rounds_of script.now ≤ room → S.rounds_of script.now < 2 ^ 32
        → IsSound SERVERS numbers (S.batch_of script.now)
        (bounds_of (S.wires_of script.now) (S.masks_of script.now) (S.secrets_of script.now))
        (S.rounds_of script.now) result.1 0 wires.new.items [] masks coefficients false
        (vec_capacity wires.new) room }
{
    let place = script.begin();
    let batch = script.next(0, &[]);
    append_all(wires, inputs);
    append_lets(wires, batch.lets.as_slice());
    (place, batch)
}

/// Passes a round with what the servers gave: the points of wires and the opened numbers are appended, the batch that
/// comes takes the place of this one, and its lets are appended.
pub fn pass_round<S: Script<SERVERS>, G: Given<SERVERS>, const SERVERS: usize>(
    script: &S,
    round: u32,
    given: &G,
    place: &mut S::Place,
    batch: &mut Batch,
    wires: &mut Vec<Fe>,
    opened: &mut Vec<Fe>,
)
    requires goes { is_end batch.old.act ≡ false }
    requires even { G.are_even given.now }
    requires count { G.count given.now ≡ size_of batch.old.act }
    requires place { S.is_at script.now round opened.old.items place.old }
    requires sound { (numbers : ℕ) × (masks : Tape) × (coefficients : Tape)
        × IsSound SERVERS numbers (S.batch_of script.now)
        (bounds_of (S.wires_of script.now) (S.masks_of script.now) (S.secrets_of script.now))
        (S.rounds_of script.now) batch.old round wires.old.items opened.old.items masks coefficients true
        (vec_capacity wires.old) (vec_capacity opened.old) }
    ensures within { round < S.rounds_of script.now }
    ensures counted { round < 2 ^ 32 - 1 }
    ensures place { S.is_at script.now (round + 1) opened.new.items place.new }
    ensures opened { opened.new.items ≡ opened.old.items ++ numbers_by batch.old.act (G.made given.now) }
    ensures wires { wires.new.items
        ≡ with_lets (wires.old.items ++ points_by batch.old.act (G.all given.now) (G.made given.now))
        (S.batch_of script.now (round + 1) opened.new.items).lets.items }
    ensures came { ComesTo (S.batch_of script.now) round opened.old.items
        → ComesTo (S.batch_of script.now) (round + 1) opened.new.items }
    ensures sound { (numbers : ℕ) (masks coefficients : Tape)
        → IsSound SERVERS numbers (S.batch_of script.now)
        (bounds_of (S.wires_of script.now) (S.masks_of script.now) (S.secrets_of script.now))
        (S.rounds_of script.now) batch.old round wires.old.items opened.old.items masks coefficients true
        (vec_capacity wires.old) (vec_capacity opened.old)
        → IsSound SERVERS numbers (S.batch_of script.now)
        (bounds_of (S.wires_of script.now) (S.masks_of script.now) (S.secrets_of script.now))
        (S.rounds_of script.now) batch.new (round + 1) wires.new.items opened.new.items masks coefficients false
        (vec_capacity wires.new) (vec_capacity opened.new) }
{
    absorb(&batch.act, wires, opened, given);
    script.refill(round + 1, opened.as_slice(), place, batch);
    append_lets(wires, batch.lets.as_slice());
}
