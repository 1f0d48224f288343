//! Runs on plain values, with no shares in them.

ghost use Rattle.std.specs.Prelude.{suc, ◌≡◌, ◌<◌, ◌≤◌, ◌+◌, ◌%◌, ◌^◌, ◌++◌, map, length, IfOk, OnOk, slice_index};
ghost use Rattle.std.specs.Int.{bit_at};
ghost use Rattle.beet_field.specs.Field.{p};
ghost use Rattle.beet_gates.specs.Each.{each};
ghost use Rattle.beet_gates.specs.Deals.{dealt_bits, deals_of};
ghost use Rattle.beet_gates.specs.Scripts.{TermsBelow, LetsBelow, PairsBelow, WiresBelow, ActBelow, deals_in, HasWords};
ghost use Rattle.beet_gates.specs.Clear.{weighed, let_of, with_lets, product_of, batch_on, clear_at, start_values};
ghost use Rattle.beet_gates.specs.Clear.{EndsAfter};

use crate::{Act, Batch, Linear, Script};
use beet_field::{Fe, Trio};
use beet_words::{FeList, Word, WordList};
use std::alloc::{AllocError, Global};
use std::marker::Model;

/// What a run on plain values leaves.
#[derive(Drop)]
pub struct ClearRun {
    /// The value of each wire.
    pub wires: FeList,
    /// The opened numbers, in the order in which they were opened.
    pub opened: FeList,
    /// The number of batches before the end.
    pub rounds: u32,
}

/// A run that has come so far; `dealt` counts the mask words that each server has dealt.
#[derive(Drop)]
struct Run {
    wires: Vec<Fe>,
    opened: Vec<Fe>,
    dealt: u32,
}

impl Model for Run {
    ghost use Rattle.beet_gates.specs.Clear.{Values};

    ghost Value = { Values };

    ghost view = { λ a. record { wires = a.wires.items; opened = a.opened.items; dealt = a.dealt } };
}

/// The sum of the terms.
#[tactic(auto, unfolding(crate::specs::Clear::weighed))]
fn weigh(wires: &[Fe], terms: &[(Fe, u32)]) -> Fe
    requires { TermsBelow (length wires.now) terms.now }
    ensures { result ≡ weighed wires.now terms.now % p }
{
    let mut sum = Fe::reduce(0);
    for (factor, wire) in terms {
        sum = sum.add(factor.mul(wires[*wire as usize]));
    }
    sum
}

/// The value of a let, or its point if the wires are points.
pub fn evaluate(wires: &[Fe], linear: &Linear) -> Fe
    requires { TermsBelow (length wires.now) linear.now.terms }
    ensures { result ≡ let_of wires.now linear.now }
{
    linear.constant.add(weigh(wires, &linear.terms))
}

/// Appends the values of the lets, each of which may use those before it.
fn append_lets(wires: &mut Vec<Fe>, lets: &[Linear]) -> Result<(), AllocError>
    requires { LetsBelow (length wires.old.items) lets.now }
    ensures wires { OnOk result (wires.new.items ≡ with_lets wires.old.items lets.now) }
    ensures len { OnOk result (length wires.new.items ≡ length wires.old.items + length lets.now) }
{
    for linear in lets {
        let value = evaluate(wires.as_slice(), linear);
        wires.push(value)?;
    }
    Ok(())
}

/// The product of two wires.
pub fn multiply(wires: &[Fe], pair: (u32, u32)) -> Fe
    requires first { pair.0 < length wires.now }
    requires second { pair.1 < length wires.now }
    ensures { result ≡ product_of wires.now pair }
{
    wires[pair.0 as usize].mul(wires[pair.1 as usize])
}

/// Appends the products of the pairs.
fn append_products(wires: &mut Vec<Fe>, pairs: &[(u32, u32)]) -> Result<(), AllocError>
    requires { PairsBelow (length wires.old.items) pairs.now }
    ensures { OnOk result (wires.new.items ≡ wires.old.items ++ map (product_of wires.old.items) pairs.now) }
{
    for pair in pairs {
        let product = multiply(wires.as_slice(), *pair);
        wires.push(product)?;
    }
    Ok(())
}

/// The bit of a word at the place, as a number.
pub fn bit_of(word: Word, k: u32) -> Fe
    requires { k < 61 }
    ensures { result ≡ bit_at word k }
{
    Fe::reduce(((word.value() >> k) & 1) as u128)
}

/// Appends the bits of a word, the lowest first.
#[tactic(auto, using(crate::proofs::EachFacts::each_steps))]
fn append_bits(wires: &mut Vec<Fe>, word: Word) -> Result<(), AllocError>
    ensures { OnOk result (wires.new.items ≡ wires.old.items ++ each (bit_at word) 61) }
{
    for k in 0..61u32 {
        wires.push(bit_of(word, k))?;
    }
    Ok(())
}

/// Appends the bits of one word of each server.
fn append_deal(wires: &mut Vec<Fe>, one: Word, two: Word, three: Word) -> Result<(), AllocError>
    ensures { OnOk result (wires.new.items ≡ wires.old.items ++ dealt_bits one two three) }
{
    append_bits(wires, one)?;
    append_bits(wires, two)?;
    append_bits(wires, three)?;
    Ok(())
}

fn append_opened(wires: &[Fe], opened: &mut Vec<Fe>, shown: &[u32]) -> Result<(), AllocError>
    requires { WiresBelow (length wires.now) shown.now }
    ensures { OnOk result (opened.new.items ≡ opened.old.items ++ map (slice_index wires.now) shown.now) }
{
    for wire in shown {
        opened.push(wires[*wire as usize])?;
    }
    Ok(())
}

impl Run {
    /// The start of a run, with room for so many wires.
    fn start(alloc: Global, inputs: &[Fe], room: u32) -> Result<Run, AllocError>
        ensures { IfOk result (λ run. run ≡ start_values inputs.now) }
    {
        let mut wires = Vec::with_capacity(alloc, room as usize)?;
        wires.extend_from_slice(inputs)?;
        Ok(Run {
            wires,
            opened: Vec::new(alloc),
            dealt: 0,
        })
    }

    /// The numbers opened so far.
    fn opened(&self) -> &[Fe]
        ensures { result.now ≡ self.now.opened }
    {
        self.opened.as_slice()
    }

    /// Appends the lets of a batch and does its act.
    fn step(&mut self, batch: &Batch, masks: &Trio<WordList>) -> Result<(), AllocError>
        requires lets { LetsBelow (length self.old.wires) batch.now.lets.items }
        requires act { ActBelow (length self.old.wires + length batch.now.lets.items) batch.now.act }
        requires words { HasWords (self.old.dealt + deals_in batch.now.act) masks.now }
        requires few { self.old.dealt + deals_in batch.now.act < 2 ^ 32 }
        ensures { OnOk result (self.new ≡ batch_on (deals_of masks.now) batch.now self.old) }
    {
        append_lets(&mut self.wires, batch.lets.as_slice())?;
        match &batch.act {
            Act::Deal => {
                let place = self.dealt as usize;
                let one = masks.one.as_slice()[place];
                let two = masks.two.as_slice()[place];
                let three = masks.three.as_slice()[place];
                self.dealt += 1;
                append_deal(&mut self.wires, one, two, three)
            }
            Act::Mul(pairs) => append_products(&mut self.wires, pairs.as_slice()),
            Act::Reveal(shown) => {
                append_opened(self.wires.as_slice(), &mut self.opened, shown.as_slice())
            }
            Act::End => Ok(()),
        }
    }

    /// The whole run, which had so many rounds.
    fn finish(self, rounds: u32) -> ClearRun
        ensures { result ≡ record { wires = self.wires; opened = self.opened; rounds = rounds } }
    {
        ClearRun {
            wires: FeList::of(self.wires),
            opened: FeList::of(self.opened),
            rounds,
        }
    }
}

/// Runs the script on plain values: the inputs are the first wires, and the n-th `Deal` takes the n-th word of each
/// list. The run goes to the first end, whose lets are appended too.
pub fn clear_run<S: Script<3>>(
    alloc: Global,
    script: &S,
    inputs: &[Fe],
    masks: &Trio<WordList>,
) -> Result<ClearRun, AllocError>
    requires inputs { length inputs.now ≡ S.inputs_of script.now }
    requires masks { HasWords (S.masks_of script.now) masks.now }
    ensures end { IfOk result (λ run.
        EndsAfter (S.batch_of script.now) (deals_of masks.now) inputs.now run.rounds) }
    ensures wires { IfOk result (λ run. run.wires ≡
        (clear_at (S.batch_of script.now) (deals_of masks.now) inputs.now (suc run.rounds)).wires) }
    ensures opened { IfOk result (λ run. run.opened ≡
        (clear_at (S.batch_of script.now) (deals_of masks.now) inputs.now run.rounds).opened) }
{
    let rounds = script.rounds();
    // The law bounds the deals by this number, so a u32 counts them.
    let _dealt_at_most = script.masks();
    let mut run = Run::start(alloc, inputs, script.wires())?;
    let mut place = script.begin();
    let mut batch = Batch::end();
    for done in 0..rounds {
        script.refill(done, run.opened(), &mut place, &mut batch);
        run.step(&batch, masks)?;
        if batch.act.is_end() {
            return Ok(run.finish(done));
        }
    }
    script.refill(rounds, run.opened(), &mut place, &mut batch);
    run.step(&batch, masks)?;
    Ok(run.finish(rounds))
}
