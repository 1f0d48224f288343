//! What a batch appends to the points of one server.

ghost use Rattle.std.specs.Prelude.{◌≡◌, ◌≤◌, ◌<◌, ◌+◌, ◌%◌, ◌++◌, OnOk, length};
ghost use Rattle.beet_field.specs.Field.{p};
ghost use Rattle.beet_gates.specs.Clear.{let_of, weighed, with_lets};
ghost use Rattle.beet_gates.specs.Each.{each};
ghost use Rattle.beet_gates.specs.Draws.{draws_in, pair_at};
ghost use Rattle.beet_map.specs.Steps.{hidden_line, product_line};
ghost use Rattle.beet_map.specs.Secrets.{shares_of};

use crate::moving::{draws, multiply, secret};
use crate::numbers::{Numbers, number_at};
use beet_field::{Fe, Point, Trio};
use beet_gates::{Act, Linear};
use beet_shamir::{Line, reshare};
use std::alloc::AllocError;

/// The sum of the terms.
#[tactic(auto, unfolding(beet_gates::specs::Clear::weighed))]
fn weigh(wires: &[Fe], terms: &[(Fe, u32)]) -> Fe
    ensures { result ≡ weighed wires.now terms.now % p }
{
    let mut sum = Fe::default();
    for (factor, wire) in terms {
        sum = sum.add(factor.mul(number_at(wires, *wire as usize)));
    }
    sum
}

/// The point of a let.
fn evaluate(wires: &[Fe], linear: &Linear) -> Fe
    ensures { result ≡ let_of wires.now linear.now }
{
    linear.constant.add(weigh(wires, &linear.terms))
}

/// Appends the points of the lets, each of which may use those before it.
pub fn append_lets(wires: &mut Vec<Fe>, lets: &[Linear]) -> Result<(), AllocError>
    ensures { OnOk result (wires.new.items ≡ with_lets wires.old.items lets.now) }
{
    for linear in lets {
        let point = evaluate(wires.as_slice(), linear);
        wires.push(point)?;
    }
    Ok(())
}

/// Appends the points of lines at a server.
pub(crate) fn append_points(
    wires: &mut Vec<Fe>,
    lines: &[Line],
    at: Point,
) -> Result<(), AllocError>
    ensures { OnOk result (wires.new.items ≡ wires.old.items ++ shares_of lines.now at) }
{
    wires.reserve(lines.len())?;
    for line in lines {
        wires.push(line.at(at))?;
    }
    Ok(())
}

/// Appends the lines by which a server hides its secrets of an act.
pub(crate) fn append_hidden(
    lines: &mut Vec<Line>,
    act: &Act,
    points: &[Fe],
    word: u64,
    numbers: &[Fe],
    drawn: usize,
) -> Result<(), AllocError>
    requires { drawn + draws_in act.now ≤ length numbers.now }
    ensures { OnOk result (lines.new.items ≡ lines.old.items
        ++ each (hidden_line act.now points.now word numbers.now drawn) (draws_in act.now)) }
{
    for k in 0..draws(act) {
        lines.push(Line {
            value: secret(act, points, word, k),
            slope: number_at(numbers, drawn + k),
        })?;
    }
    Ok(())
}

/// The line of the k-th product: the three local products and the three numbers drawn, put together.
fn product(pairs: &[(u32, u32)], wires: &Numbers, numbers: &Numbers, drawn: usize, k: usize) -> Line
    requires pair { k < length pairs.now }
    requires fits { drawn + k < length numbers.now.one }
    ensures { result ≡ product_line pairs.now wires.now numbers.now drawn k }
{
    let pair = pairs[k];
    // The list has this place, so a usize counts it.
    let _first = numbers.lists.one.as_slice();
    let place = drawn + k;
    Line {
        value: reshare(Trio::of(|at| multiply(wires.at(at), pair))),
        slope: reshare(Trio::of(|at| number_at(numbers.at(at), place))),
    }
}

/// Appends the lines of the products of pairs.
pub(crate) fn append_products(
    lines: &mut Vec<Line>,
    pairs: &[(u32, u32)],
    wires: &Numbers,
    numbers: &Numbers,
    drawn: usize,
) -> Result<(), AllocError>
    requires { drawn + length pairs.now ≤ length numbers.now.one }
    ensures { OnOk result (lines.new.items ≡ lines.old.items
        ++ each (product_line pairs.now wires.now numbers.now drawn) (length pairs.now)) }
{
    for k in 0..pairs.len() {
        lines.push(product(pairs, wires, numbers, drawn, k))?;
    }
    Ok(())
}
