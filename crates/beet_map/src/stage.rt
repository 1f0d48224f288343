//! A run on the points of all three servers, batch by batch.

ghost use Rattle.std.specs.Prelude.{◌≡◌, ◌≤◌, ◌<◌, ◌+◌, ◌++◌, [], IfOk, OnOk, length, map, slice_index};
ghost use Rattle.beet_field.specs.Trio.{member, trio_of};
ghost use Rattle.beet_gates.specs.Each.{each};
ghost use Rattle.beet_gates.specs.Draws.{draws_in};
ghost use Rattle.beet_sharing.specs.Runs.{act_among, opened_at, opened_by, with_batch_lets};
ghost use Rattle.beet_map.specs.Steps.{HasEnough, dealing, hidden_line, lines_gained, nothing_shared};
ghost use Rattle.beet_map.specs.Secrets.{shares_of};

use crate::moving::{deals, draws, word_at};
use crate::numbers::{Numbers, number_at};
use crate::wires::{append_hidden, append_lets, append_points, append_products};
use beet_field::{Fe, Point, Trio};
use beet_gates::{Act, Batch};
use beet_shamir::{Line, recombine};
use beet_words::WordList;
use std::alloc::{AllocError, Global};
use std::marker::Model;

/// How far a run has come: the points of the wires, the opened numbers, and how many numbers each
/// server has drawn and how many words it has dealt.
#[derive(Drop)]
pub(crate) struct Stage {
    pub wires: Numbers,
    pub opened: Vec<Fe>,
    pub drawn: usize,
    pub dealt: usize,
}

impl Model for Stage {
    ghost use Rattle.beet_sharing.specs.Runs.{Shared};

    ghost Value = { Shared };

    ghost view = { λ a. record {
      wires = a.wires;
      opened = a.opened.items;
      drawn = a.drawn;
      dealt = a.dealt;
    } };
}

/// The points of lines at a server.
pub(crate) fn points(alloc: Global, lines: &[Line], at: Point) -> Result<Vec<Fe>, AllocError>
    ensures { IfOk result (λ points. points.items ≡ shares_of lines.now at) }
{
    let mut points = Vec::new(alloc);
    append_points(&mut points, lines, at)?;
    Ok(points)
}

/// Appends the values of the wires that are opened.
fn append_opened(opened: &mut Vec<Fe>, wires: &Numbers, shown: &[u32]) -> Result<(), AllocError>
    ensures { OnOk result (opened.new.items ≡ opened.old.items ++ map (opened_at wires.now) shown.now) }
{
    for wire in shown {
        let place = *wire as usize;
        opened.push(recombine(Trio::of(|at| number_at(wires.at(at), place))))?;
    }
    Ok(())
}

impl Stage {
    /// A run that has no wires yet.
    pub(crate) fn new(alloc: Global) -> Stage
        ensures { result ≡ nothing_shared }
    {
        Stage {
            wires: Numbers::new(alloc),
            opened: Vec::new(alloc),
            drawn: 0,
            dealt: 0,
        }
    }

    /// Appends the lets of a batch.
    pub(crate) fn add_lets(&mut self, batch: &Batch) -> Result<(), AllocError>
        ensures { OnOk result (self.new ≡ with_batch_lets batch.now self.old) }
    {
        append_lets(&mut self.wires.lists.one, batch.lets.as_slice())?;
        append_lets(&mut self.wires.lists.two, batch.lets.as_slice())?;
        append_lets(&mut self.wires.lists.three, batch.lets.as_slice())
    }

    /// Appends the lines of the bits that a server deals.
    fn append_dealt(
        &self,
        lines: &mut Vec<Line>,
        act: &Act,
        masks: &Trio<WordList>,
        numbers: &Numbers,
        server: Point,
    ) -> Result<(), AllocError>
        requires { self.now.drawn + draws_in act.now ≤ length (member numbers.now server) }
        ensures { OnOk result (lines.new.items ≡ lines.old.items
            ++ each (hidden_line act.now (member self.now.wires server)
            (slice_index (member masks.now server) self.now.dealt) (member numbers.now server)
            self.now.drawn) (draws_in act.now)) }
    {
        append_hidden(
            lines,
            act,
            self.wires.at(server),
            word_at(masks.get(server).as_slice(), self.dealt),
            numbers.at(server),
            self.drawn,
        )
    }

    /// Appends the lines of the bits that the three servers deal.
    fn append_deal(
        &self,
        lines: &mut Vec<Line>,
        act: &Act,
        masks: &Trio<WordList>,
        numbers: &Numbers,
    ) -> Result<(), AllocError>
        requires deal { act.now ≡ Act.Deal }
        requires enough { HasEnough act.now masks.now numbers.now self.now }
        ensures { OnOk result (lines.new.items ≡
            lines.old.items ++ lines_gained Act.Deal masks.now numbers.now self.now) }
    {
        self.append_dealt(lines, act, masks, numbers, Point::One)?;
        self.append_dealt(lines, act, masks, numbers, Point::Two)?;
        self.append_dealt(lines, act, masks, numbers, Point::Three)
    }

    /// Appends the lines of the wires that an act gives.
    fn append_gained(
        &self,
        lines: &mut Vec<Line>,
        act: &Act,
        masks: &Trio<WordList>,
        numbers: &Numbers,
    ) -> Result<(), AllocError>
        requires { HasEnough act.now masks.now numbers.now self.now }
        ensures { OnOk result (lines.new.items ≡
            lines.old.items ++ lines_gained act.now masks.now numbers.now self.now) }
    {
        match act {
            Act::Deal => self.append_deal(lines, act, masks, numbers),
            Act::Mul(pairs) => append_products(
                lines,
                pairs.as_slice(),
                &self.wires,
                numbers,
                self.drawn,
            ),
            Act::Reveal(_) | Act::End => Ok(()),
        }
    }

    /// Appends the points of these lines.
    pub(crate) fn add_lines(&mut self, lines: &[Line]) -> Result<(), AllocError>
        ensures { OnOk result (self.new ≡ record self.old {
          wires = trio_of (λ i. member self.old.wires i ++ shares_of lines.now i);
        }) }
    {
        append_points(&mut self.wires.lists.one, lines, Point::One)?;
        append_points(&mut self.wires.lists.two, lines, Point::Two)?;
        append_points(&mut self.wires.lists.three, lines, Point::Three)
    }

    /// Opens the wires that an act shows.
    fn open(&mut self, act: &Act) -> Result<(), AllocError>
        ensures { OnOk result (self.new ≡ record self.old {
          opened = self.old.opened ++ opened_by self.old act.now;
        }) }
    {
        match act {
            Act::Reveal(shown) => append_opened(&mut self.opened, &self.wires, shown.as_slice()),
            Act::Deal | Act::Mul(_) | Act::End => Ok(()),
        }
    }

    /// Appends the lines of the wires that an act gives, opens those that it shows, and appends the
    /// points of all the lines.
    fn gain(
        &mut self,
        lines: &mut Vec<Line>,
        act: &Act,
        masks: &Trio<WordList>,
        numbers: &Numbers,
    ) -> Result<(), AllocError>
        requires enough { HasEnough act.now masks.now numbers.now self.old }
        requires lines { lines.old.items ≡ [] }
        ensures { OnOk result (self.new ≡ act_among (dealing masks.now numbers.now) act.now self.old) }
    {
        self.append_gained(lines, act, masks, numbers)?;
        self.open(act)?;
        self.add_lines(lines.as_slice())?;
        // There are as many words and numbers, so a usize counts them.
        let _words = masks.one.as_slice().len();
        let _numbers = numbers.lists.one.len();
        self.drawn += draws(act);
        self.dealt += deals(act);
        Ok(())
    }

    /// Does the act of a batch, whose lets are among the wires.
    pub(crate) fn act(
        &mut self,
        alloc: Global,
        act: &Act,
        masks: &Trio<WordList>,
        numbers: &Numbers,
    ) -> Result<(), AllocError>
        requires { HasEnough act.now masks.now numbers.now self.old }
        ensures { OnOk result (self.new ≡ act_among (dealing masks.now numbers.now) act.now self.old) }
    {
        let mut lines = Vec::new(alloc);
        self.gain(&mut lines, act, masks, numbers)
    }
}
