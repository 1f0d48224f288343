//! Worlds of the five servers in which masks are rejected: the exclusive or of the servers' words is all ones.

ghost use Rattle.std.specs.Prelude.{◌≤◌};

use super::servers::{ONES, ROUNDS, VOLUME, list, servers_with};
use super::world::play;
use beet_field::Fe;
use beet_five_auction::finish_at;
use beet_five_server::FiveCore;
use beet_five_world::FiveWorld;
use beet_plan::Finish;
use beet_search::FiveScript;
use std::alloc::Global;
use std::process::Abort;

/// The rounds of a mask of five words, which one more mask costs.
const MASK_ROUNDS: u32 = 66;

/// The words of a server for the three masks that a comparison may want.
type Masks = [u64; 3];

/// The words of each server, how many rounds the auction then has, and whether its masks are spent.
type Case = ([Masks; 5], u32, bool);

const ZEROS: Masks = [0; 3];

/// All three masks are rejected; the first; the first two, of which the second is made by two servers; and none,
/// although two servers deal nothing but ones.
const CASES: [Case; 4] = [
    (
        [[ONES; 3], ZEROS, ZEROS, ZEROS, ZEROS],
        3 * MASK_ROUNDS,
        true,
    ),
    (
        [[ONES, 0, 0], ZEROS, ZEROS, ZEROS, ZEROS],
        MASK_ROUNDS + ROUNDS,
        false,
    ),
    (
        [[ONES, ONES - 6, 0], ZEROS, [0, 6, 0], ZEROS, ZEROS],
        2 * MASK_ROUNDS + ROUNDS,
        false,
    ),
    ([ZEROS, [ONES; 3], ZEROS, ZEROS, [ONES; 3]], ROUNDS, false),
];

/// A world of servers with these words for masks.
fn world(rt: &impl Abort, alloc: Global, masks: &[Masks; 5]) -> FiveWorld<FiveScript> {
    let [one, two, three, four, five] = masks;
    let masks = [
        list(rt, alloc, one),
        list(rt, alloc, two),
        list(rt, alloc, three),
        list(rt, alloc, four),
        list(rt, alloc, five),
    ];
    FiveWorld::of(alloc, servers_with(rt, alloc, masks)).expect(rt, "memory")
}

/// How the auction ends.
fn finish(spent: bool) -> Finish {
    if spent {
        Finish::MasksSpent
    } else {
        Finish::Price {
            place: 0,
            volume: Some(Fe::reduce(VOLUME)),
            supply: None,
        }
    }
}

/// Compares how a server has ended, and after how many rounds.
pub fn expect_end(rt: &impl Abort, core: &FiveCore<FiveScript>, rounds: u32, spent: bool) {
    assert!(rt; core.ended());
    assert!(rt; core.round() == rounds);
    assert!(rt; finish_at(core) == Some(finish(spent)));
}

/// Plays a new world of a case, and compares how all five have ended.
fn expect_played(rt: &impl Abort, alloc: Global, case: &Case, order: u64, held: u32)
    requires { held ≤ 5 }
{
    let (masks, rounds, spent) = case;
    let mut world = world(rt, alloc, masks);
    play(&mut world, order, held);
    assert!(rt; world.undelivered() == 0);
    for at in 1..=5 {
        expect_end(rt, world.core(at), *rounds, *spent);
        assert!(rt; world.core(at).opened() == world.core(1).opened());
    }
    drop(world);
}

#[test]
fn rejected_masks_in_any_order(rt: HostRuntime) {
    for (order, case) in CASES.iter().enumerate() {
        expect_played(&rt, rt.alloc(), case, order as u64, 0);
    }
}

#[test]
fn rejected_masks_if_a_server_hears_late(rt: HostRuntime) {
    for (place, case) in CASES.iter().enumerate() {
        expect_played(&rt, rt.alloc(), case, 46, place as u32 + 1);
    }
}
