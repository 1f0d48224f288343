//! What is wanted of the words that a job reads.

ghost use Rattle.std.specs.Prelude.{◌≡◌, ◌≤◌};
ghost use Rattle.beet_load.specs.Counts.{counts_of};
ghost use Rattle.beet_masking.specs.Masks.{with_spare};
ghost use Rattle.beet_load.specs.Wanted.{wanted_of};
ghost use Rattle.beet_words.specs.declared.bundle.TheConstants.{MOST_WORDS};

use beet_bids::Grid;
use beet_masking::SPARE_WORDS;
use beet_plan::{most_coefficients, most_masks};
use std::marker::Model;

/// How many words are wanted, each count at most 16,384: mask words of each server, words of it that are not all ones,
/// for the numbers that it draws, and such words of each bidder.
#[derive(Clone, Copy)]
pub struct Counts {
    masks: u32,
    coefficients: u32,
    words: u32,
}

impl Model for Counts {
    ghost use Rattle.std.specs.Prelude.{◌≤◌};
    ghost use Rattle.beet_load.specs.Counts.{Counts as Seen};
    ghost use Rattle.beet_words.specs.declared.bundle.TheConstants.{MOST_WORDS};

    ghost Value = { Seen };

    ghost view = { λ a. record { masks = a.masks; coefficients = a.coefficients; words = a.words } };

    ghost invariant = { λ a. (a.masks ≤ MOST_WORDS) × (a.coefficients ≤ MOST_WORDS) × (a.words ≤ MOST_WORDS) };

    ghost inverse = { λ n. record { masks = n.masks; coefficients = n.coefficients; words = n.words } };
}

impl Counts {
    /// So many mask words and numbers of each server, and so many numbers of each bidder, each count at most 16,384.
    pub fn new(masks: u32, coefficients: u32, words: u32) -> Counts
        requires masks { masks ≤ MOST_WORDS }
        requires coefficients { coefficients ≤ MOST_WORDS }
        requires words { words ≤ MOST_WORDS }
        ensures { result ≡ record { masks = masks; coefficients = coefficients; words = words } }
    {
        Counts {
            masks,
            coefficients,
            words,
        }
    }

    /// How many mask words are wanted of each server. As many are kept.
    pub(crate) fn masks(&self) -> u32
        ensures { result ≡ self.now.masks }
    {
        self.masks
    }

    /// How many numbers are wanted of each server.
    pub(crate) fn coefficients(&self) -> u32
        ensures { result ≡ self.now.coefficients }
    {
        self.coefficients
    }

    /// How many words for numbers are kept of each server's.
    pub(crate) fn coefficients_kept(&self) -> u32
        ensures { result ≡ with_spare self.now.coefficients }
    {
        self.coefficients + SPARE_WORDS
    }

    /// How many numbers are wanted of each bidder.
    pub(crate) fn words(&self) -> u32
        ensures { result ≡ self.now.words }
    {
        self.words
    }

    /// How many words are kept of each bidder's.
    pub(crate) fn words_kept(&self) -> u32
        ensures { result ≡ with_spare self.now.words }
    {
        self.words + SPARE_WORDS
    }
}

/// What is wanted of the words that a job reads: how many of them, and for which lot, if it has several. The lot,
/// counted from 0, says which streams of a server's seed hold its words, and is named in the line on too few of them.
#[derive(Clone, Copy)]
pub struct Wanted {
    pub counts: Counts,
    pub lot: Option<u32>,
}

/// How many words the auction over the grid wants.
pub fn auction_counts(grid: &Grid) -> Counts
    ensures { result ≡ counts_of grid.now }
{
    let prices = grid.prices();
    Counts::new(most_masks(prices), most_coefficients(prices), 2 * prices)
}

/// What the auction over the grid wants, alone or as a lot.
pub fn auction_wants(lot: Option<u32>, grid: &Grid) -> Wanted
    ensures { result ≡ wanted_of lot grid.now }
{
    Wanted {
        counts: auction_counts(grid),
        lot,
    }
}
