//! What the numbers of a batch hide, and how they are moved.

ghost use Rattle.std.specs.Prelude.{◌≡◌, ◌<◌, ◌≤◌, ◌+◌, length, slice_index};
ghost use Rattle.std.specs.Int.{bit_at};
ghost use Rattle.beet_gates.specs.Clear.{product_of};
ghost use Rattle.beet_gates.specs.Draws.{draws_in, secret_of};
ghost use Rattle.beet_gates.specs.Scripts.{deals_in};
ghost use Rattle.beet_map.specs.Mapped.{moved_of};
ghost use Rattle.beet_map.specs.Steps.{MovesList};

use crate::numbers::number_at;
use beet_field::{Fe, Point};
use beet_gates::Act;
use beet_words::Word;

/// How many numbers each server draws for an act.
pub fn draws(act: &Act) -> usize
    ensures { result ≡ draws_in act.now }
{
    match act {
        Act::Deal => 61,
        Act::Mul(pairs) => pairs.len(),
        Act::Reveal(_) | Act::End => 0,
    }
}

/// How many words each server deals for an act.
pub fn deals(act: &Act) -> usize
    ensures { result ≡ deals_in act.now }
{
    match act {
        Act::Deal => 1,
        Act::Mul(_) | Act::Reveal(_) | Act::End => 0,
    }
}

/// The word at a place as a number, or 0 past the end.
pub fn word_at(words: &[Word], place: usize) -> u64
    ensures { result ≡ slice_index words.now place }
{
    match words.get(place) {
        Some(word) => word.value(),
        None => 0,
    }
}

/// The bit of a word at the place, as a number.
fn bit_of(word: u64, k: usize) -> Fe
    requires { k < 61 }
    ensures { result ≡ bit_at word k }
{
    Fe::reduce(((word >> k) & 1) as u128)
}

/// The product of two points.
pub fn multiply(points: &[Fe], pair: (u32, u32)) -> Fe
    ensures { result ≡ product_of points.now pair }
{
    number_at(points, pair.0 as usize).mul(number_at(points, pair.1 as usize))
}

/// What the k-th number that a server draws for an act hides: a bit of the word that it deals, or the
/// product of its points of a pair.
pub fn secret(act: &Act, points: &[Fe], word: u64, k: usize) -> Fe
    requires { k < draws_in act.now }
    ensures { result ≡ secret_of act.now points.now word k }
{
    match act {
        Act::Deal => bit_of(word, k),
        Act::Mul(pairs) => multiply(points, pairs[k]),
        Act::Reveal(_) | Act::End => Fe::default(),
    }
}

/// The number that hides `second` from the server `me` as `number` hides `first`: the point at `me`
/// stays.
pub fn moved(me: Point, number: Fe, first: Fe, second: Fe) -> Fe
    ensures { result ≡ moved_of me number first second }
{
    number.add(first.sub(second).over(me))
}

/// What the numbers of a server may hide in one of two worlds: the products of its points, and the bits
/// of the word that it deals.
#[derive(Clone, Copy)]
pub(crate) struct Hidden<'a> {
    pub points: &'a [Fe],
    pub word: u64,
}

/// Moves the numbers that a server draws for an act, so that what they hide may change from the first
/// world to the second.
pub(crate) fn move_numbers(
    me: Point,
    act: &Act,
    first: Hidden<'_>,
    second: Hidden<'_>,
    numbers: &mut [Fe],
    drawn: usize,
)
    requires { drawn + draws_in act.now ≤ length numbers.old }
    ensures { MovesList me act.now first.entry.points.now first.entry.word second.entry.points.now second.entry.word
        drawn numbers.old numbers.new }
{
    for k in 0..draws(act) {
        let here = secret(act, first.points, first.word, k);
        let there = secret(act, second.points, second.word, k);
        numbers[drawn + k] = moved(me, numbers[drawn + k], here, there);
    }
}
