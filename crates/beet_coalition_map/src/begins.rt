//! What a script among five servers begins with.

ghost use Rattle.std.specs.Prelude.{◌≡◌, ◌≤◌};
ghost use Rattle.beet_coalition.specs.Lists.{at_server};

use beet_words::{FeList, Word, WordList};
use std::marker::Model;

/// What a script among five servers begins with in one world: for each server in order its points of the inputs, and
/// its mask words.
#[derive(Drop)]
pub struct FiveSecrets {
    pub inputs: Vec<FeList>,
    pub masks: Vec<WordList>,
}

impl Model for FiveSecrets {
    ghost use Rattle.beet_coalition_map.specs.Begins.{Begins};

    ghost Value = { Begins };

    ghost view = { λ a. record { inputs = a.inputs.items; masks = a.masks.items } };
}

/// The words of a server, of the lists of all; none if there is no such list.
pub(crate) fn words_at(lists: &[WordList], server: u32) -> &[Word]
    requires { 1 ≤ server }
    ensures { result.now ≡ at_server lists.now server }
{
    match lists.get(server as usize - 1) {
        Some(list) => list.as_slice(),
        None => &[],
    }
}
