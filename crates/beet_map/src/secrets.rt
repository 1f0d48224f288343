//! What a script hides.

use beet_field::Trio;
use beet_shamir::Line;
use beet_words::WordList;
use std::marker::Model;

/// The secrets of a script: the inputs with their lines, and the mask words of each server.
#[derive(Drop)]
pub struct Secrets {
    pub inputs: Vec<Line>,
    pub masks: Trio<WordList>,
}

impl Model for Secrets {
    ghost use Rattle.beet_map.specs.Secrets.{Secrets as Seen};

    ghost Value = { Seen };

    ghost view = { λ a. record { inputs = a.inputs.items; masks = a.masks } };
}
