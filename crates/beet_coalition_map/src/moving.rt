//! How the numbers of a batch are moved.

ghost use Rattle.std.specs.Prelude.{◌≡◌, ◌≢◌, ◌≤◌, ◌<◌, ◌+◌, ◌*◌, ℕ, length, slice_index, true, false};
ghost use Rattle.beet_field.specs.Field.{add_of, mul_of};
ghost use Rattle.beet_gates.specs.Draws.{draws_in};
ghost use Rattle.beet_weights.specs.Quadratics.{IsServer};
ghost use Rattle.beet_coalition.specs.Watchers.{two_watch};
ghost use Rattle.beet_coalition_map.specs.Steps.{HasEnough, MovesBatch, MovesList, secret_in};

use crate::lists::FiveLists;
use crate::stage::Stage;
use crate::watchers::Watchers;
use beet_field::Fe;
use beet_gates::Act;
use beet_map::draws;
use beet_words::WordList;

/// One of two worlds, in a batch whose lets are among the wires: the mask words, and how far the run has come.
#[derive(Clone, Copy)]
pub(crate) struct At<'a> {
    pub masks: &'a [WordList],
    pub stage: &'a Stage,
}

/// Moves the two numbers from a place on that hide a secret, if it becomes so much less.
pub fn move_pair(factors: (Fe, Fe), numbers: &mut [Fe], place: usize, less: Fe)
    requires { place + 1 < length numbers.old }
    ensures length { length numbers.new ≡ length numbers.old }
    ensures rho { slice_index numbers.new place
        ≡ add_of (slice_index numbers.old place) (mul_of less factors.0) }
    ensures sigma { slice_index numbers.new (place + 1)
        ≡ add_of (slice_index numbers.old (place + 1)) (mul_of less factors.1) }
    ensures rest { (n : ℕ) → n ≢ place → n ≢ place + 1 → slice_index numbers.new n ≡ slice_index numbers.old n }
{
    let (rho, sigma) = factors;
    numbers[place] = numbers[place].add(less.mul(rho));
    numbers[place + 1] = numbers[place + 1].add(less.mul(sigma));
}

/// Moves both numbers that hide each secret of a server in an act, so that the secrets may change from the first world
/// to the second.
fn move_numbers(
    two: Watchers,
    act: &Act,
    here: At<'_>,
    there: At<'_>,
    server: u32,
    numbers: &mut [Fe],
)
    requires server { IsServer server }
    requires enough { 2 * (here.stage.now.hidden + draws_in act.now) ≤ length numbers.old }
    ensures { MovesList (two_watch two.a two.b) (draws_in act.now)
        (secret_in here.entry.masks.now here.entry.stage.now act.now server)
        (secret_in there.entry.masks.now there.entry.stage.now act.now server)
        here.entry.stage.now.hidden numbers.old numbers.new }
{
    let (rho, sigma) = two.factors();
    let (stage, other) = (here.stage, there.stage);
    for k in 0..draws(act) {
        let first = stage.secret(act, here.masks, server, k);
        let second = other.secret(act, there.masks, server, k);
        let place = 2 * (stage.hidden + k);
        move_pair((rho, sigma), numbers, place, first.sub(second));
    }
}

/// Moves the numbers that a server draws for an act, in its list. Those of a server that watches stay.
fn move_list(two: Watchers, act: &Act, here: At<'_>, there: At<'_>, server: u32, list: &mut [Fe])
    requires server { IsServer server }
    requires enough { 2 * (here.stage.now.hidden + draws_in act.now) ≤ length list.old }
    ensures same_length { length list.new ≡ length list.old }
    ensures own { (two_watch two.a two.b).watches server ≡ true → list.new ≡ list.old }
    ensures other { (two_watch two.a two.b).watches server ≡ false →
        MovesList (two_watch two.a two.b) (draws_in act.now)
        (secret_in here.entry.masks.now here.entry.stage.now act.now server)
        (secret_in there.entry.masks.now there.entry.stage.now act.now server)
        here.entry.stage.now.hidden list.old list.new }
{
    if !two.watches(server) {
        move_numbers(two, act, here, there, server, list);
    }
}

/// Moves the numbers that the servers which do not watch draw for an act in the second world.
pub(crate) fn move_batch(
    two: Watchers,
    act: &Act,
    here: At<'_>,
    there: At<'_>,
    numbers: &mut FiveLists,
)
    requires enough { HasEnough act.now numbers.old here.stage.now }
    ensures { MovesBatch (two_watch two.a two.b) act.now here.entry.masks.now here.entry.stage.now
        there.entry.masks.now there.entry.stage.now numbers.old numbers.new }
{
    let first = numbers.one.as_mut_slice();
    move_list(two, act, here, there, 1, first);
    let second = numbers.two.as_mut_slice();
    move_list(two, act, here, there, 2, second);
    let third = numbers.three.as_mut_slice();
    move_list(two, act, here, there, 3, third);
    let fourth = numbers.four.as_mut_slice();
    move_list(two, act, here, there, 4, fourth);
    let fifth = numbers.five.as_mut_slice();
    move_list(two, act, here, there, 5, fifth);
}
