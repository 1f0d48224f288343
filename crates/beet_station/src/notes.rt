//! What a server tells of each round that it has passed.

ghost use Rattle.std.specs.Prelude.{◌≡◌, ◌≤◌, ◌∷◌, List, length};
ghost use Rattle.beet_field.specs.declared.TheConstants.{MOST_NUMBERS};
ghost use Rattle.beet_station.specs.Notes.{Awaits, a_note};

use arrayvec::ArrayVec;
use beet_field::{Fe, MOST_NUMBERS, Point};
use beet_queue::FromServer;
use std::sync::Wait;

/// What a server tells of a round that it has passed: the numbers that the round opened, none if it opened none.
#[derive(Debug, Drop)]
pub struct DeskNote {
    pub server: Point,
    pub round: u32,
    pub numbers: ArrayVec<Fe, MOST_NUMBERS>,
}

impl FromServer for DeskNote {
    ghost server = { λ note. note.server };
}

/// Whom a server tells of each round that it has passed. It awaits the notes on certain rounds, in order, and is told
/// them one by one.
pub trait Sink {
    ghost use Rattle.std.specs.Prelude.{List};
    ghost use Rattle.beet_station.specs.declared.notes.DeskNote.{DeskNote};

    /// The notes that it still awaits, if these are left in the run: the same, if it is to be told them.
    ghost due: { Self → List DeskNote → List DeskNote };

    /// It, before it was told of any round.
    ghost origin: { Self → Self };

    /// Is told the numbers that a server has opened in a round.
    fn tell<R: Wait>(&mut self, rt: &R, server: Point, round: u32, opened: &[Fe])
        requires few { length opened.now ≤ MOST_NUMBERS }
        requires next { (rest : List DeskNote) × Awaits (due self.old) (a_note server round opened.now ∷ rest) }
        ensures told { (rest : List DeskNote) → Awaits (due self.old) (a_note server round opened.now ∷ rest)
            → Awaits (due self.new) rest }
        ensures same { origin self.new ≡ origin self.old };
}

#[derive(Drop)]
pub struct Nobody;

impl Sink for Nobody {
    ghost due = { λ _ notes. notes };

    ghost origin = { λ nobody. nobody };

    fn tell<R: Wait>(&mut self, _rt: &R, _server: Point, _round: u32, _opened: &[Fe]) {}
}
