//! The words of an auction among five servers.

use beet_words::WordList;
use std::marker::Model;

/// The random words of an auction among five servers: the mask words and the coefficient words of each server, in the
/// order of the servers, and the words of each bidder, in the order of the book.
#[derive(Drop)]
pub struct FiveWords {
    pub masks: Vec<WordList>,
    pub coefficients: Vec<WordList>,
    pub bidders: Vec<WordList>,
}

impl Model for FiveWords {
    ghost use Rattle.beet_five_dealing.specs.FiveWords.{FiveWords as Lists};

    ghost Value = { Lists };

    ghost view = { λ w.
        record { masks = w.masks.items; coefficients = w.coefficients.items; bidders = w.bidders.items } };
}
