//! What a batch does to lists of numbers, among any number of servers.

ghost use Rattle.std.specs.Prelude.{◌≡◌, ◌<◌, ◌≤◌, ◌+◌, ◌*◌, ◌++◌, ℕ, Bool, List, take, map, length, slice_index};
ghost use Rattle.std.specs.Prelude.{vec_capacity};
ghost use Rattle.std.specs.Int.{bit_at};
ghost use Rattle.beet_field.specs.declared.TheConstants.{MOST_NUMBERS};
ghost use Rattle.beet_words.specs.Tapes.{drawn_from, left_of};
ghost use Rattle.beet_gates.specs.Each.{each};
ghost use Rattle.beet_gates.specs.Scripts.{LetsBelow, PairsBelow, WiresBelow, ActBelow, deals_in, revealed, size_of};
ghost use Rattle.beet_gates.specs.Clear.{with_lets, product_of};
ghost use Rattle.beet_gates.specs.Draws.{draws_in};
ghost use Rattle.beet_server.specs.Values.{numbers_by, points_by, values_of};
ghost use Rattle.beet_server.specs.declared.parts.TheConstants.{MOST_DRAWN};
ghost use Rattle.beet_sharing.specs.Steps.{gained_among};

use arrayvec::ArrayVec;
use beet_field::{Fe, MOST_NUMBERS};
use beet_gates::{Act, Linear, bit_of, evaluate, multiply};
use beet_words::{Tape, Word};

/// The numbers of one server for another in a round.
pub type Numbers = ArrayVec<Fe, MOST_NUMBERS>;

/// The most numbers that a server draws for a batch.
pub const MOST_DRAWN: usize = 128;

/// The numbers that a server draws for a batch.
pub type Drawn = ArrayVec<Fe, MOST_DRAWN>;

/// The words that a server deals, and those from which it draws numbers.
#[derive(Drop)]
pub struct Tapes {
    pub masks: Tape,
    pub coefficients: Tape,
}

/// The numbers that each of so many servers gave one of them in a round.
pub trait Given<const SERVERS: usize> {
    /// Each gave as many.
    ghost are_even: { Self → Type 0 };

    ghost count: { Self → ℕ };

    /// All numbers, those of server 1 first.
    ghost all: { Self → List ℕ };

    /// What the numbers of all servers at a place make: an opened number, or else the server's point of a product.
    ghost made: { Self → Bool → ℕ → ℕ };

    /// How many numbers each gave.
    fn count(&self) -> usize
        ensures { result ≡ count self.now };

    /// Appends all numbers, those of server 1 first.
    fn append_all(&self, list: &mut Vec<Fe>)
        requires room { length list.old.items + length (all self.now) ≤ vec_capacity list.old }
        ensures items { list.new.items ≡ list.old.items ++ all self.now }
        ensures capacity { vec_capacity list.new ≡ vec_capacity list.old };

    /// What the numbers of all servers at a place make: an opened number, or else the server's point of a product.
    fn make(&self, opens: bool, k: usize) -> Fe
        requires even { are_even self.now }
        requires there { k < count self.now }
        ensures { result ≡ made self.now opens k };

    ghost counted: { (g : Self) → are_even g → length (all g) ≡ count g * SERVERS };
}

/// Appends the lets, each of which may use those before it.
pub fn append_lets(wires: &mut Vec<Fe>, lets: &[Linear])
    requires below { LetsBelow (length wires.old.items) lets.now }
    requires room { length wires.old.items + length lets.now ≤ vec_capacity wires.old }
    ensures wires { wires.new.items ≡ with_lets wires.old.items lets.now }
    ensures capacity { vec_capacity wires.new ≡ vec_capacity wires.old }
{
    for linear in lets {
        let value = evaluate(wires.as_slice(), linear);
        wires.push_reserved(value);
    }
}

pub fn append_all(list: &mut Vec<Fe>, numbers: &[Fe])
    requires room { length list.old.items + length numbers.now ≤ vec_capacity list.old }
    ensures items { list.new.items ≡ list.old.items ++ numbers.now }
    ensures capacity { vec_capacity list.new ≡ vec_capacity list.old }
{
    for number in numbers {
        list.push_reserved(*number);
    }
}

/// Puts the numbers in the place of others.
pub fn put_all(all: &[Fe], numbers: &mut Numbers)
    requires { length all.now ≤ MOST_NUMBERS }
    ensures { numbers.new.items ≡ all.now }
{
    numbers.clear();
    for number in all {
        numbers.push(*number);
    }
}

/// Appends what the numbers of the servers make at each place.
#[tactic(auto, using(beet_gates::proofs::EachFacts::each_steps))]
fn append_each<G: Given<SERVERS>, const SERVERS: usize>(list: &mut Vec<Fe>, given: &G, opens: bool)
    requires even { G.are_even given.now }
    requires room { length list.old.items + G.count given.now ≤ vec_capacity list.old }
    ensures items { list.new.items ≡ list.old.items ++ each (G.made given.now opens) (G.count given.now) }
    ensures count { length list.new.items ≡ length list.old.items + G.count given.now }
    ensures capacity { vec_capacity list.new ≡ vec_capacity list.old }
{
    for k in 0..given.count() {
        list.push_reserved(given.make(opens, k));
    }
}

/// Appends the points of the wires and the opened numbers that the numbers of the servers give.
pub fn absorb<G: Given<SERVERS>, const SERVERS: usize>(
    act: &Act,
    wires: &mut Vec<Fe>,
    opened: &mut Vec<Fe>,
    given: &G,
)
    requires even { G.are_even given.now }
    requires count { G.count given.now ≡ size_of act.now }
    requires wires_room { length wires.old.items + gained_among SERVERS act.now ≤ vec_capacity wires.old }
    requires opened_room { length opened.old.items + revealed act.now ≤ vec_capacity opened.old }
    ensures wires { wires.new.items ≡ wires.old.items ++ points_by act.now (G.all given.now) (G.made given.now) }
    ensures opened { opened.new.items ≡ opened.old.items ++ numbers_by act.now (G.made given.now) }
    ensures wires_count { length wires.new.items ≡ length wires.old.items + gained_among SERVERS act.now }
    ensures opened_count { length opened.new.items ≡ length opened.old.items + revealed act.now }
    ensures wires_capacity { vec_capacity wires.new ≡ vec_capacity wires.old }
    ensures opened_capacity { vec_capacity opened.new ≡ vec_capacity opened.old }
{
    match act {
        Act::Deal => given.append_all(wires),
        Act::Mul(_) => append_each(wires, given, false),
        Act::Reveal(_) => append_each(opened, given, true),
        Act::End => (),
    }
}

/// Puts the products of the pairs in the place of other numbers.
fn put_products(wires: &[Fe], pairs: &[(u32, u32)], numbers: &mut Numbers)
    requires below { PairsBelow (length wires.now) pairs.now }
    requires few { length pairs.now ≤ MOST_NUMBERS }
    ensures { numbers.new.items ≡ map (product_of wires.now) pairs.now }
{
    numbers.clear();
    for pair in pairs {
        numbers.push(multiply(wires, *pair));
    }
}

/// Puts the bits of a word, the lowest first, in the place of other numbers.
#[tactic(auto, using(beet_gates::proofs::EachFacts::each_steps))]
fn put_bits(word: Word, numbers: &mut Numbers)
    ensures bits { numbers.new.items ≡ each (bit_at word) 61 }
    ensures count { length numbers.new.items ≡ 61 }
{
    numbers.clear();
    for k in 0..61u32 {
        numbers.push(bit_of(word, k));
    }
}

/// Puts the points of the wires in the place of other numbers.
fn pick(wires: &[Fe], shown: &[u32], numbers: &mut Numbers)
    requires below { WiresBelow (length wires.now) shown.now }
    requires few { length shown.now ≤ MOST_NUMBERS }
    ensures { numbers.new.items ≡ map (slice_index wires.now) shown.now }
{
    numbers.clear();
    for wire in shown {
        numbers.push(wires[*wire as usize]);
    }
}

/// Puts what a server hides or shows for an act in the place of other numbers. The word that it needs is taken from the
/// tape.
pub fn put_values(act: &Act, wires: &[Fe], masks: &mut Tape, values: &mut Numbers)
    requires below { ActBelow (length wires.now) act.now }
    requires few { size_of act.now ≤ MOST_NUMBERS }
    requires words { masks.old.passed + deals_in act.now ≤ length masks.old.words }
    ensures values { values.new.items
        ≡ values_of act.now wires.now (slice_index masks.old.words masks.old.passed) }
    ensures count { length values.new.items ≡ size_of act.now }
    ensures dealt { masks.new ≡ record masks.old { passed = masks.old.passed + deals_in act.now } }
{
    match act {
        Act::Deal => put_bits(masks.next_mask(), values),
        Act::Mul(pairs) => put_products(wires, pairs.as_slice(), values),
        Act::Reveal(shown) => pick(wires, shown.as_slice(), values),
        Act::End => values.clear(),
    }
}

/// How many secrets a server hides for an act.
pub fn secrets_in(act: &Act) -> usize
    ensures value { result ≡ draws_in act.now }
    ensures few { result ≤ size_of act.now }
{
    match act {
        Act::Deal => 61,
        Act::Mul(pairs) => pairs.len(),
        Act::Reveal(_) | Act::End => 0,
    }
}

/// Puts the next numbers of the tape in the place of other numbers.
pub fn draw(tape: &mut Tape, count: usize, numbers: &mut Drawn)
    requires few { count ≤ MOST_DRAWN }
    requires enough { count ≤ length (left_of tape.old) }
    ensures items { numbers.new.items ≡ take count (left_of tape.old) }
    ensures count { length numbers.new.items ≡ count }
    ensures tape { tape.new ≡ drawn_from tape.old count }
{
    numbers.clear();
    for _ in 0..count {
        numbers.push(tape.draw());
    }
}
