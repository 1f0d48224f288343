ghost use Rattle.std.specs.Prelude.{IsTrue};
ghost use Rattle.beet_gates.specs.Scripts.{HasWords};
ghost use Rattle.beet_sharing.specs.Runs.{numbers_of};
ghost use Rattle.beet_map.specs.Refused.{HasSecrets};

use super::samples::{ONES, lists};
use beet_field::{Fe, Point, Trio};
use beet_gates::Script;
use beet_map::{GateFault, Secrets, gate_map};
use beet_samples::Sample;
use beet_shamir::Line;
use beet_words::{WordList, count_accepted};
use std::alloc::Global;
use std::process::Abort;

/// A half in the field.
const HALF: u64 = 1_152_921_504_606_846_976;

/// The line of this value and slope.
fn line((value, slope): (u64, u64)) -> Line {
    Line {
        value: Fe::reduce(value as u128),
        slope: Fe::reduce(slope as u128),
    }
}

/// A world with two inputs and no words to deal.
fn world(rt: &impl Abort, alloc: Global, first: (u64, u64), second: (u64, u64)) -> Secrets {
    Secrets {
        inputs: vec![in alloc; line(first), line(second)].expect(rt, "memory"),
        masks: lists(rt, alloc, [&[], &[], &[]]),
    }
}

/// Whether each list has so many words.
fn have_words(words: &Trio<WordList>, wanted: u32) -> bool
    ensures { IsTrue result → HasWords wanted words.now }
{
    words.one.as_slice().len() >= wanted as usize
        && words.two.as_slice().len() >= wanted as usize
        && words.three.as_slice().len() >= wanted as usize
}

/// Whether so many numbers can be drawn from each list.
fn have_numbers(words: &Trio<WordList>, wanted: u32) -> bool
    ensures { IsTrue result → HasWords wanted (numbers_of words.now) }
{
    count_accepted(words.one.as_slice()) >= wanted as usize
        && count_accepted(words.two.as_slice()) >= wanted as usize
        && count_accepted(words.three.as_slice()) >= wanted as usize
}

/// Whether a world is one of the script.
fn has_secrets<S: Script<3>>(script: &S, secrets: &Secrets) -> bool
    ensures { IsTrue result → HasSecrets (S.inputs_of script.now) (S.masks_of script.now) secrets.now }
{
    secrets.inputs.len() == script.inputs() as usize && have_words(&secrets.masks, script.masks())
}

/// The map for server 2.
fn map<S: Script<3>>(
    rt: &impl Abort,
    alloc: Global,
    script: &S,
    first: &Secrets,
    second: &Secrets,
    words: &Trio<WordList>,
) -> Result<Trio<WordList>, GateFault> {
    assert!(rt; has_secrets(script, first));
    assert!(rt; has_secrets(script, second));
    assert!(rt; have_numbers(words, script.coefficients()));
    gate_map(alloc, Point::Two, script, first, second, words)
}

/// The map of the product's script from the inputs (3, 5) and (4, 2) to these, with the words 1; 2; 4.
fn product_map(
    rt: &impl Abort,
    alloc: Global,
    first: (u64, u64),
    second: (u64, u64),
) -> Result<Trio<WordList>, GateFault> {
    let here = world(rt, alloc, (3, 5), (4, 2));
    let there = world(rt, alloc, first, second);
    let words = lists(rt, alloc, [&[1], &[2], &[4]]);
    let mapped = map(rt, alloc, &Sample::Product, &here, &there, &words);
    drop((here, there, words));
    mapped
}

/// Compares why there is no map to these inputs.
fn expect_fault(
    rt: &impl Abort,
    alloc: Global,
    first: (u64, u64),
    second: (u64, u64),
    fault: GateFault,
) {
    assert!(rt; product_map(rt, alloc, first, second).err() == Some(fault));
}

/// The word at a place of a list, if there is one.
fn word(list: &WordList, place: usize) -> Option<u64> {
    list.as_slice().get(place).map(|word| word.value())
}

/// Whether the servers' lists have these words, each at its place.
fn hold(words: &Trio<WordList>, expected: &[(Point, usize, Option<u64>)]) -> bool {
    for (server, place, number) in expected {
        if word(words.get(*server), *place) != *number {
            return false;
        }
    }
    true
}

/// The first factor of another world, of which server 2 has the same point.
const SIX: (u64, u64) = (6, HALF + 3);

/// Compares words of a map.
fn expect_words(
    rt: &impl Abort,
    mapped: Result<Trio<WordList>, GateFault>,
    expected: &[(Point, usize, Option<u64>)],
) {
    let words = mapped.expect(rt, "a map");
    assert!(rt; hold(&words, expected));
}

/// Words of the product's other world: the messages to server 2 are 50 and 188 in both worlds, and 12 is opened.
const OTHER_FACTORS: [(Point, usize, Option<u64>); 4] = [
    (Point::One, 0, Some(576_460_752_303_423_489)),
    (Point::Two, 0, Some(2)),
    (Point::Three, 0, Some(576_460_752_303_423_491)),
    (Point::Three, 1, None),
];

#[test]
fn product_of_other_factors(rt: HostRuntime) {
    let mapped = product_map(&rt, rt.alloc(), SIX, (2, 3));
    expect_words(&rt, mapped, &OTHER_FACTORS);
}

#[test]
fn other_product(rt: HostRuntime) {
    let expected = GateFault::RevealDiffers {
        place: 0,
        first: Some(Fe::reduce(12)),
        second: Some(Fe::reduce(24)),
    };
    expect_fault(&rt, rt.alloc(), SIX, (4, 2), expected);
}

#[test]
fn other_points(rt: HostRuntime) {
    expect_fault(&rt, rt.alloc(), SIX, (2, 2), GateFault::InputsDiffer(1));
    expect_fault(&rt, rt.alloc(), (6, 5), (2, 2), GateFault::InputsDiffer(0));
}

/// A world with no inputs, in which these words are dealt.
fn dealers(rt: &impl Abort, alloc: Global, one: u64, two: u64, three: u64) -> Secrets {
    Secrets {
        inputs: Vec::new(alloc),
        masks: lists(rt, alloc, [&[one], &[two], &[three]]),
    }
}

/// The words that each server draws: one of ones, and then 61 times the word 5.
fn ones_and_fives(rt: &impl Abort, alloc: Global) -> Trio<WordList> {
    let mut numbers = [5; 62];
    numbers[0] = ONES;
    lists(rt, alloc, [&numbers, &numbers, &numbers])
}

/// The map of the dealing script from the world in which 1, 2 and 3 are dealt to that in which these words and 3 are.
fn deal_map(
    rt: &impl Abort,
    alloc: Global,
    one: u64,
    two: u64,
) -> Result<Trio<WordList>, GateFault> {
    let here = dealers(rt, alloc, 1, 2, 3);
    let there = dealers(rt, alloc, one, two, 3);
    let words = ones_and_fives(rt, alloc);
    let mapped = map(rt, alloc, &Sample::SecondBits, &here, &there, &words);
    drop((here, there, words));
    mapped
}

#[test]
fn other_word_of_the_server(rt: HostRuntime) {
    let fault = deal_map(&rt, rt.alloc(), 1, 6).err();
    assert!(rt; fault == Some(GateFault::OwnMaskDiffers(0)));
}

/// Words of the dealing script's other world: the lowest bit of server 1, which is not opened, is 1 in the first world
/// and 0 in the second, so its number gains 1/2. The words of ones stay.
const OTHER_BIT: [(Point, usize, Option<u64>); 6] = [
    (Point::One, 0, Some(ONES)),
    (Point::One, 1, Some(HALF + 5)),
    (Point::One, 2, Some(5)),
    (Point::Two, 1, Some(5)),
    (Point::Three, 1, Some(5)),
    (Point::Three, 62, None),
];

#[test]
fn other_bit_of_another_server(rt: HostRuntime) {
    expect_words(&rt, deal_map(&rt, rt.alloc(), 0, 2), &OTHER_BIT);
}
