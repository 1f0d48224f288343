//! What five servers hide by polynomials, and what their numbers give.

ghost use Rattle.std.specs.Prelude.{◌≡◌, ◌≤◌, ◌+◌, ◌*◌, ℕ, List, length, slice_index, take};
ghost use Rattle.beet_field.specs.declared.TheConstants.{MOST_NUMBERS};
ghost use Rattle.beet_words.specs.Tapes.{drawn_from, left_of};
ghost use Rattle.beet_gates.specs.Scripts.{ActBelow, deals_in, size_of};
ghost use Rattle.beet_server.specs.Values.{values_of};
ghost use Rattle.beet_five_server.specs.Runs.{draws_in};
ghost use Rattle.beet_five_server.specs.Parts.{hidden, numbers_for};

use beet_field::{Fe, MOST_NUMBERS};
use beet_gates::Act;
use beet_server::{
    Drawn, Given, Numbers, Tapes, append_all, draw, put_all, put_values, secrets_in,
};
use beet_weights::{Quadratic, recombine, reshare};

/// The numbers of one server for each of the five.
#[derive(Drop)]
pub struct Outgoing {
    pub one: Numbers,
    pub two: Numbers,
    pub three: Numbers,
    pub four: Numbers,
    pub five: Numbers,
}

impl Outgoing {
    /// No numbers for any server.
    pub fn new() -> Outgoing {
        Outgoing {
            one: Numbers::new(),
            two: Numbers::new(),
            three: Numbers::new(),
            four: Numbers::new(),
            five: Numbers::new(),
        }
    }
}

/// The numbers of each of the five servers for one.
#[derive(Clone, Copy)]
pub struct Incoming<'a> {
    pub one: &'a [Fe],
    pub two: &'a [Fe],
    pub three: &'a [Fe],
    pub four: &'a [Fe],
    pub five: &'a [Fe],
}

impl<'a> Given<5> for Incoming<'a> {
    ghost use Rattle.std.specs.Prelude.{◌≡◌, length, if◌then◌else◌, slice_index};
    ghost use Rattle.beet_linear_sharing.specs.Sharings.{joined};
    ghost use Rattle.beet_weights.specs.Quadratics.{recombined, reshared, servers};
    ghost use Rattle.beet_five_server.specs.Parts.{by_sender};
    ghost use Rattle.beet_five_server.specs.Lengths.{counted-five};

    ghost are_even = { λ g. (length g.two.now ≡ length g.one.now) × (length g.three.now ≡ length g.one.now)
        × (length g.four.now ≡ length g.one.now) × (length g.five.now ≡ length g.one.now) };

    ghost count = { λ g. length g.one.now };

    ghost all = { λ g. joined (by_sender g.one.now g.two.now g.three.now g.four.now g.five.now) servers };

    ghost made = { λ g opens k. if opens
        then recombined (λ j. slice_index (by_sender g.one.now g.two.now g.three.now g.four.now g.five.now j) k)
        else reshared (λ j. slice_index (by_sender g.one.now g.two.now g.three.now g.four.now g.five.now j) k) };

    ghost counted = { λ g even. counted-five g.one.now g.two.now g.three.now g.four.now g.five.now even };

    fn count(&self) -> usize {
        self.one.len()
    }

    fn append_all(&self, list: &mut Vec<Fe>) {
        append_all(list, self.one);
        append_all(list, self.two);
        append_all(list, self.three);
        append_all(list, self.four);
        append_all(list, self.five);
    }

    fn make(&self, opens: bool, k: usize) -> Fe {
        let (one, two, three) = (self.one[k], self.two[k], self.three[k]);
        if opens {
            recombine(one, two, three)
        } else {
            reshare(one, two, three, self.four[k], self.five[k])
        }
    }
}

/// Puts the points at a server of the polynomials with these values and these coefficients, two for each, in the place
/// of other numbers.
#[tactic(auto, using(beet_gates::proofs::EachFacts::each_steps))]
fn hide(values: &[Fe], drawn: &[Fe], to: u32, numbers: &mut Numbers)
    requires drawn { length drawn.now ≡ 2 * length values.now }
    requires few { length values.now ≤ MOST_NUMBERS }
    ensures { numbers.new.items ≡ hidden values.now drawn.now to }
{
    numbers.clear();
    for k in 0..values.len() {
        let polynomial = Quadratic {
            value: values[k],
            first: drawn[2 * k],
            second: drawn[2 * k + 1],
        };
        numbers.push(polynomial.at(to));
    }
}

/// Puts the numbers of an act for a server in the place of other numbers: what is hidden by these numbers, or shown.
fn put_for(act: &Act, values: &[Fe], drawn: &[Fe], to: u32, numbers: &mut Numbers)
    requires values { length values.now ≡ size_of act.now }
    requires drawn { length drawn.now ≡ draws_in act.now }
    requires few { length values.now ≤ MOST_NUMBERS }
    ensures { (points : List ℕ) (word : ℕ) → values.now ≡ values_of act.now points word
        → numbers.new.items ≡ numbers_for act.now points word drawn.now to }
{
    match act {
        Act::Deal => hide(values, drawn, to, numbers),
        Act::Mul(_) => hide(values, drawn, to, numbers),
        Act::Reveal(_) => put_all(values, numbers),
        Act::End => put_all(values, numbers),
    }
}

/// Puts the numbers of an act for each server in the place of other numbers.
fn put_for_each(act: &Act, values: &[Fe], drawn: &[Fe], out: &mut Outgoing)
    requires values { length values.now ≡ size_of act.now }
    requires drawn { length drawn.now ≡ draws_in act.now }
    requires few { length values.now ≤ MOST_NUMBERS }
    ensures one { (points : List ℕ) (word : ℕ) → values.now ≡ values_of act.now points word
        → out.new.one.items ≡ numbers_for act.now points word drawn.now 1 }
    ensures two { (points : List ℕ) (word : ℕ) → values.now ≡ values_of act.now points word
        → out.new.two.items ≡ numbers_for act.now points word drawn.now 2 }
    ensures three { (points : List ℕ) (word : ℕ) → values.now ≡ values_of act.now points word
        → out.new.three.items ≡ numbers_for act.now points word drawn.now 3 }
    ensures four { (points : List ℕ) (word : ℕ) → values.now ≡ values_of act.now points word
        → out.new.four.items ≡ numbers_for act.now points word drawn.now 4 }
    ensures five { (points : List ℕ) (word : ℕ) → values.now ≡ values_of act.now points word
        → out.new.five.items ≡ numbers_for act.now points word drawn.now 5 }
{
    put_for(act, values, drawn, 1, &mut out.one);
    put_for(act, values, drawn, 2, &mut out.two);
    put_for(act, values, drawn, 3, &mut out.three);
    put_for(act, values, drawn, 4, &mut out.four);
    put_for(act, values, drawn, 5, &mut out.five);
}

/// The numbers of a batch for each server, in the place of others. The words and the numbers that they need are taken
/// from the tapes.
pub fn put_numbers(act: &Act, wires: &[Fe], tapes: &mut Tapes, out: &mut Outgoing)
    requires below { ActBelow (length wires.now) act.now }
    requires few { size_of act.now ≤ MOST_NUMBERS }
    requires words { tapes.old.masks.passed + deals_in act.now ≤ length tapes.old.masks.words }
    requires enough { draws_in act.now ≤ length (left_of tapes.old.coefficients) }
    ensures one { out.new.one.items ≡ numbers_for act.now wires.now
        (slice_index tapes.old.masks.words tapes.old.masks.passed)
        (take (draws_in act.now) (left_of tapes.old.coefficients)) 1 }
    ensures two { out.new.two.items ≡ numbers_for act.now wires.now
        (slice_index tapes.old.masks.words tapes.old.masks.passed)
        (take (draws_in act.now) (left_of tapes.old.coefficients)) 2 }
    ensures three { out.new.three.items ≡ numbers_for act.now wires.now
        (slice_index tapes.old.masks.words tapes.old.masks.passed)
        (take (draws_in act.now) (left_of tapes.old.coefficients)) 3 }
    ensures four { out.new.four.items ≡ numbers_for act.now wires.now
        (slice_index tapes.old.masks.words tapes.old.masks.passed)
        (take (draws_in act.now) (left_of tapes.old.coefficients)) 4 }
    ensures five { out.new.five.items ≡ numbers_for act.now wires.now
        (slice_index tapes.old.masks.words tapes.old.masks.passed)
        (take (draws_in act.now) (left_of tapes.old.coefficients)) 5 }
    ensures dealt { tapes.new.masks ≡ record tapes.old.masks { passed = tapes.old.masks.passed + deals_in act.now } }
    ensures drawn { tapes.new.coefficients ≡ drawn_from tapes.old.coefficients (draws_in act.now) }
{
    let mut values = Numbers::new();
    let mut drawn = Drawn::new();
    put_values(act, wires, &mut tapes.masks, &mut values);
    let count = secrets_in(act);
    draw(&mut tapes.coefficients, 2 * count, &mut drawn);
    let values = values.as_slice();
    let drawn = drawn.as_slice();
    put_for_each(act, values, drawn, out);
}
