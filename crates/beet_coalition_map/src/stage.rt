//! A run on the points of all five servers, batch by batch.

ghost use Rattle.std.specs.Prelude.{◌≡◌, ◌≤◌, ◌<◌, ◌+◌, ◌*◌, ◌++◌, IfOk, OnOk, length, map, slice_index};
ghost use Rattle.beet_gates.specs.Draws.{draws_in};
ghost use Rattle.beet_gates.specs.Each.{each};
ghost use Rattle.beet_weights.specs.Quadratics.{IsServer, of_five, recombined};
ghost use Rattle.beet_linear_sharing.specs.Runs.{opened_by};
ghost use Rattle.beet_linear_sharing.specs.Schemes.{five_servers};
ghost use Rattle.beet_coalition.specs.Lists.{at_server};
ghost use Rattle.beet_coalition_map.specs.Steps.{HasEnough, acted, dealing, hidden_by, lets_added, points_at};
ghost use Rattle.beet_coalition_map.specs.Steps.{polynomials, product_by, run_of, secret_in, start_on};

use crate::begins::words_at;
use crate::lists::FiveLists;
use beet_field::{Fe, MOST_NUMBERS};
use beet_gates::{Act, Batch, Script};
use beet_map::{append_lets, deals, draws, number_at, secret, word_at};
use beet_weights::{Quadratic, recombine, reshare};
use beet_words::{FeList, WordList};
use std::alloc::{AllocError, Global};
use std::marker::Model;

/// How far a run has come: the points of the wires, the opened numbers, and how many secrets each server has hidden and
/// how many words it has dealt.
#[derive(Drop)]
pub(crate) struct Stage {
    pub wires: FiveLists,
    pub opened: Vec<Fe>,
    pub hidden: usize,
    pub dealt: usize,
}

impl Model for Stage {
    ghost use Rattle.beet_coalition_map.specs.Steps.{Stage as Reached};

    ghost Value = { Reached };

    ghost view = { λ a. record {
      wires = a.wires;
      opened = a.opened.items;
      hidden = a.hidden;
      dealt = a.dealt;
    } };
}

/// Appends the points of polynomials at a server.
fn append_points(wires: &mut Vec<Fe>, given: &[Quadratic], at: u32) -> Result<(), AllocError>
    ensures { OnOk result (wires.new.items ≡ wires.old.items ++ points_at given.now at) }
{
    for polynomial in given {
        wires.push(polynomial.at(at))?;
    }
    Ok(())
}

/// Appends the values of the wires that are opened.
fn append_opened(opened: &mut Vec<Fe>, wires: &FiveLists, shown: &[u32]) -> Result<(), AllocError>
    ensures { OnOk result (opened.new.items
        ≡ opened.old.items ++ map (λ w. recombined (λ i. slice_index (at_server wires.now i) w)) shown.now) }
{
    for wire in shown {
        let place = *wire as usize;
        opened.push(recombine(
            number_at(wires.at(1), place),
            number_at(wires.at(2), place),
            number_at(wires.at(3), place),
        ))?;
    }
    Ok(())
}

impl Stage {
    /// A run of a script on these points of the inputs that has done no batch, with room for all its wires and for all
    /// that it may open.
    pub(crate) fn start<S: Script<5>>(
        alloc: Global,
        script: &S,
        inputs: &[FeList],
    ) -> Result<Stage, AllocError>
        ensures { IfOk result (λ stage. stage ≡ start_on inputs.now) }
    {
        Ok(Stage {
            wires: FiveLists::with_room(alloc, inputs, script.wires() as usize)?,
            opened: Vec::with_capacity(alloc, MOST_NUMBERS * script.rounds() as usize)?,
            hidden: 0,
            dealt: 0,
        })
    }

    /// Appends the lets of a batch.
    pub(crate) fn add_lets(&mut self, batch: &Batch) -> Result<(), AllocError>
        ensures { OnOk result (self.new ≡ lets_added batch.now self.old) }
    {
        let lets = batch.lets.as_slice();
        append_lets(&mut self.wires.one, lets)?;
        append_lets(&mut self.wires.two, lets)?;
        append_lets(&mut self.wires.three, lets)?;
        append_lets(&mut self.wires.four, lets)?;
        append_lets(&mut self.wires.five, lets)
    }

    /// The k-th secret that a server hides in an act: a bit of the word that it deals, or the product of its points of
    /// a pair.
    pub(crate) fn secret(&self, act: &Act, masks: &[WordList], server: u32, k: usize) -> Fe
        requires server { IsServer server }
        requires place { k < draws_in act.now }
        ensures { result ≡ secret_in masks.now self.now act.now server k }
    {
        let word = word_at(words_at(masks, server), self.dealt);
        secret(act, self.wires.at(server), word, k)
    }

    /// The polynomial by which a server hides its k-th secret of an act.
    fn hide(
        &self,
        act: &Act,
        masks: &[WordList],
        numbers: &FiveLists,
        server: u32,
        k: usize,
    ) -> Quadratic
        requires server { IsServer server }
        requires place { k < draws_in act.now }
        requires enough { 2 * (self.now.hidden + draws_in act.now) ≤ length (at_server numbers.now server) }
        ensures { result ≡ hidden_by (dealing masks.now numbers.now) (run_of self.now) act.now server k }
    {
        let drawn = numbers.at(server);
        let place = 2 * (self.hidden + k);
        Quadratic {
            value: self.secret(act, masks, server, k),
            first: number_at(drawn, place),
            second: number_at(drawn, place + 1),
        }
    }

    /// The polynomial of the k-th product: those of the five servers, put together.
    fn product(&self, act: &Act, masks: &[WordList], numbers: &FiveLists, k: usize) -> Quadratic
        requires place { k < draws_in act.now }
        requires enough { HasEnough act.now numbers.now self.now }
        ensures { result ≡ product_by (dealing masks.now numbers.now) (run_of self.now) act.now k }
    {
        let one = self.hide(act, masks, numbers, 1, k);
        let two = self.hide(act, masks, numbers, 2, k);
        let three = self.hide(act, masks, numbers, 3, k);
        let four = self.hide(act, masks, numbers, 4, k);
        let five = self.hide(act, masks, numbers, 5, k);
        Quadratic {
            value: reshare(one.value, two.value, three.value, four.value, five.value),
            first: reshare(one.first, two.first, three.first, four.first, five.first),
            second: reshare(
                one.second,
                two.second,
                three.second,
                four.second,
                five.second,
            ),
        }
    }

    /// Appends the polynomials by which a server hides its secrets of an act.
    fn append_hidden(
        &self,
        act: &Act,
        masks: &[WordList],
        numbers: &FiveLists,
        server: u32,
        given: &mut Vec<Quadratic>,
    ) -> Result<(), AllocError>
        requires server { IsServer server }
        requires enough { 2 * (self.now.hidden + draws_in act.now) ≤ length (at_server numbers.now server) }
        ensures { OnOk result (given.new.items ≡ given.old.items
            ++ each (hidden_by (dealing masks.now numbers.now) (run_of self.now) act.now server) (draws_in act.now)) }
    {
        for k in 0..draws(act) {
            given.push(self.hide(act, masks, numbers, server, k))?;
        }
        Ok(())
    }

    /// Appends the polynomials of the products of an act.
    fn append_products(
        &self,
        act: &Act,
        masks: &[WordList],
        numbers: &FiveLists,
        given: &mut Vec<Quadratic>,
    ) -> Result<(), AllocError>
        requires enough { HasEnough act.now numbers.now self.now }
        ensures { OnOk result (given.new.items ≡ given.old.items
            ++ each (product_by (dealing masks.now numbers.now) (run_of self.now) act.now) (draws_in act.now)) }
    {
        for k in 0..draws(act) {
            given.push(self.product(act, masks, numbers, k))?;
        }
        Ok(())
    }

    /// Appends the polynomials of the wires that an act gives.
    fn append_given(
        &self,
        act: &Act,
        masks: &[WordList],
        numbers: &FiveLists,
        given: &mut Vec<Quadratic>,
    ) -> Result<(), AllocError>
        requires { HasEnough act.now numbers.now self.now }
        ensures { OnOk result (given.new.items
            ≡ given.old.items ++ polynomials (dealing masks.now numbers.now) (run_of self.now) act.now) }
    {
        match act {
            Act::Deal => {
                self.append_hidden(act, masks, numbers, 1, given)?;
                self.append_hidden(act, masks, numbers, 2, given)?;
                self.append_hidden(act, masks, numbers, 3, given)?;
                self.append_hidden(act, masks, numbers, 4, given)?;
                self.append_hidden(act, masks, numbers, 5, given)
            }
            Act::Mul(_) => self.append_products(act, masks, numbers, given),
            Act::Reveal(_) | Act::End => Ok(()),
        }
    }

    /// Appends the points of these polynomials.
    fn add_points(&mut self, given: &[Quadratic]) -> Result<(), AllocError>
        ensures { OnOk result (self.new ≡ record self.old {
          wires = of_five (λ i. at_server self.old.wires i ++ points_at given.now i);
        }) }
    {
        append_points(&mut self.wires.one, given, 1)?;
        append_points(&mut self.wires.two, given, 2)?;
        append_points(&mut self.wires.three, given, 3)?;
        append_points(&mut self.wires.four, given, 4)?;
        append_points(&mut self.wires.five, given, 5)
    }

    /// Opens the wires that an act shows.
    fn open(&mut self, act: &Act) -> Result<(), AllocError>
        ensures { OnOk result (self.new ≡ record self.old {
          opened = self.old.opened ++ opened_by five_servers (run_of self.old) act.now;
        }) }
    {
        match act {
            Act::Reveal(shown) => append_opened(&mut self.opened, &self.wires, shown.as_slice()),
            Act::Deal | Act::Mul(_) | Act::End => Ok(()),
        }
    }

    /// Does the act of a batch, whose lets are among the wires. The polynomials of the wires that it gives are put in
    /// the place of others.
    pub(crate) fn act(
        &mut self,
        act: &Act,
        masks: &[WordList],
        numbers: &FiveLists,
        given: &mut Vec<Quadratic>,
    ) -> Result<(), AllocError>
        requires { HasEnough act.now numbers.now self.old }
        ensures { OnOk result (self.new ≡ acted masks.now numbers.now act.now self.old) }
    {
        given.clear();
        self.append_given(act, masks, numbers, given)?;
        self.open(act)?;
        self.add_points(given.as_slice())?;
        // The list has a place for each secret, so a usize counts them.
        let _numbers = numbers.at(1);
        self.hidden += draws(act);
        self.dealt += deals(act);
        Ok(())
    }
}
