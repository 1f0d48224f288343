//! What three servers hide by lines, and what their numbers give.

ghost use Rattle.std.specs.Prelude.{◌≡◌, ◌≤◌, ◌+◌, ℕ, List, length, slice_index, take};
ghost use Rattle.beet_field.specs.declared.TheConstants.{MOST_NUMBERS};
ghost use Rattle.beet_words.specs.Tapes.{drawn_from, left_of};
ghost use Rattle.beet_gates.specs.Draws.{draws_in};
ghost use Rattle.beet_gates.specs.Scripts.{ActBelow, deals_in, size_of};
ghost use Rattle.beet_round.specs.Sides.{peer, side_of};
ghost use Rattle.beet_round.specs.declared.sides.Side.TheVariants.{Low, High};
ghost use Rattle.beet_server.specs.Values.{values_of};
ghost use Rattle.beet_server.specs.Steps.{at_side};
ghost use Rattle.beet_sharing.specs.Steps.{hidden, numbers_for};

use crate::parts::{
    Drawn, Given, Numbers, Tapes, append_all, draw, put_all, put_values, secrets_in,
};
use beet_field::{Fe, Point, Trio};
use beet_gates::Act;
use beet_round::Side;
use beet_shamir::{Line, recombine, reshare};

/// The numbers of each of the three servers for one.
#[derive(Clone, Copy)]
pub struct Incoming<'a> {
    pub one: &'a [Fe],
    pub two: &'a [Fe],
    pub three: &'a [Fe],
}

impl<'a> Given<3> for Incoming<'a> {
    ghost use Rattle.std.specs.Prelude.{◌≡◌, ◌++◌, length, if◌then◌else◌};
    ghost use Rattle.beet_shamir.specs.Line.{recombined, reshared};
    ghost use Rattle.beet_sharing.specs.Steps.{three_at};
    ghost use Rattle.beet_server.specs.Lengths.{counted-three};

    ghost are_even = { λ g. (length g.two.now ≡ length g.one.now) × (length g.three.now ≡ length g.one.now) };

    ghost count = { λ g. length g.one.now };

    ghost all = { λ g. g.one.now ++ (g.two.now ++ g.three.now) };

    ghost made = { λ g opens k. if opens then recombined (three_at g.one.now g.two.now g.three.now k)
        else reshared (three_at g.one.now g.two.now g.three.now k) };

    ghost counted = { λ g even. counted-three g.one.now g.two.now g.three.now even };

    fn count(&self) -> usize {
        self.one.len()
    }

    fn append_all(&self, list: &mut Vec<Fe>) {
        append_all(list, self.one);
        append_all(list, self.two);
        append_all(list, self.three);
    }

    fn make(&self, opens: bool, k: usize) -> Fe {
        let points = Trio {
            one: self.one[k],
            two: self.two[k],
            three: self.three[k],
        };
        if opens {
            recombine(points)
        } else {
            reshare(points)
        }
    }
}

/// Puts the points at a server of the lines with these values and slopes in the place of other numbers.
#[tactic(auto, using(beet_gates::proofs::EachFacts::each_steps))]
fn hide(values: &[Fe], slopes: &[Fe], to: Point, numbers: &mut Numbers)
    requires slopes { length slopes.now ≡ length values.now }
    requires few { length values.now ≤ MOST_NUMBERS }
    ensures { numbers.new.items ≡ hidden values.now slopes.now to }
{
    numbers.clear();
    for k in 0..values.len() {
        let line = Line {
            value: values[k],
            slope: slopes[k],
        };
        numbers.push(line.at(to));
    }
}

/// Puts the numbers of an act for a server in the place of other numbers: what is hidden by these slopes, or shown.
fn put_for(act: &Act, values: &[Fe], slopes: &[Fe], to: Point, numbers: &mut Numbers)
    requires values { length values.now ≡ size_of act.now }
    requires slopes { length slopes.now ≡ draws_in act.now }
    requires few { length values.now ≤ MOST_NUMBERS }
    ensures { (points : List ℕ) (word : ℕ) → values.now ≡ values_of act.now points word
        → numbers.new.items ≡ numbers_for act.now points word slopes.now to }
{
    match act {
        Act::Deal => hide(values, slopes, to, numbers),
        Act::Mul(_) => hide(values, slopes, to, numbers),
        Act::Reveal(_) => put_all(values, numbers),
        Act::End => put_all(values, numbers),
    }
}

/// The numbers of a batch for the server itself, for its lower and for its higher peer, in the place of others. The
/// words and the numbers that they need are taken from the tapes.
pub fn put_numbers(
    act: &Act,
    wires: &[Fe],
    tapes: &mut Tapes,
    me: Point,
    own: &mut Numbers,
    low: &mut Numbers,
    high: &mut Numbers,
)
    requires below { ActBelow (length wires.now) act.now }
    requires few { size_of act.now ≤ MOST_NUMBERS }
    requires words { tapes.old.masks.passed + deals_in act.now ≤ length tapes.old.masks.words }
    requires enough { draws_in act.now ≤ length (left_of tapes.old.coefficients) }
    ensures own { own.new.items ≡ numbers_for act.now wires.now
        (slice_index tapes.old.masks.words tapes.old.masks.passed)
        (take (draws_in act.now) (left_of tapes.old.coefficients)) me }
    ensures low { low.new.items ≡ numbers_for act.now wires.now
        (slice_index tapes.old.masks.words tapes.old.masks.passed)
        (take (draws_in act.now) (left_of tapes.old.coefficients)) (peer me Low) }
    ensures high { high.new.items ≡ numbers_for act.now wires.now
        (slice_index tapes.old.masks.words tapes.old.masks.passed)
        (take (draws_in act.now) (left_of tapes.old.coefficients)) (peer me High) }
    ensures dealt { tapes.new.masks ≡ record tapes.old.masks { passed = tapes.old.masks.passed + deals_in act.now } }
    ensures drawn { tapes.new.coefficients ≡ drawn_from tapes.old.coefficients (draws_in act.now) }
{
    let mut values = Numbers::new();
    let mut slopes = Drawn::new();
    put_values(act, wires, &mut tapes.masks, &mut values);
    let count = secrets_in(act);
    draw(&mut tapes.coefficients, count, &mut slopes);
    let values = values.as_slice();
    let slopes = slopes.as_slice();
    put_for(act, values, slopes, me, own);
    put_for(act, values, slopes, Side::Low.peer(me), low);
    put_for(act, values, slopes, Side::High.peer(me), high);
}

/// The numbers of a sender, from a server's own and those of its peers.
pub fn of_sender<'a>(
    me: Point,
    sender: Point,
    own: &'a [Fe],
    low: &'a [Fe],
    high: &'a [Fe],
) -> &'a [Fe]
    ensures { result.now ≡ at_side (side_of me sender) own.now low.now high.now }
{
    match Side::of(me, sender) {
        None => own,
        Some(Side::Low) => low,
        Some(Side::High) => high,
    }
}
