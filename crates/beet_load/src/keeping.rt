//! Keeping the bidders of a book with their words.

ghost use Rattle.std.specs.Prelude.{◌≡◌, ◌≤◌, ◌++◌, ◌∷◌, [], OnOk, length, map, option_map};
ghost use Rattle.beet_errand.specs.Fetches.{ReadsFor};
ghost use Rattle.beet_load.specs.Farmers.{farmers_errand};
ghost use Rattle.beet_load.specs.Wholes.{AreKept};
ghost use Rattle.beet_words.specs.declared.bundle.TheConstants.{MOST_BIDDERS};

use crate::collecting::list_of;
use crate::farmers::{BidderWithTape, read_farmer};
use crate::wanted::Wanted;
use beet_bids::{Bidder, Grid};
use beet_book::Entry;
use beet_errand::Stop;
use beet_field::Point;
use beet_store::Shelf;
use beet_words::WordList;
use std::alloc::{AllocError, Global};
use std::marker::Model;

/// Bidders, and the words of each.
#[derive(Drop)]
pub struct Farmers {
    bidders: Vec<Bidder>,
    words: Vec<WordList>,
}

impl Model for Farmers {
    ghost use Rattle.std.specs.Prelude.{◌≡◌, List, length};
    ghost use Rattle.beet_book.specs.Farmers.{BidderWithWords, farmers_of};

    ghost Value = { List BidderWithWords };

    ghost view = { λ a. farmers_of a.bidders.items a.words.items };

    ghost invariant = { λ a. length a.words.items ≡ length a.bidders.items };
}

impl Farmers {
    ghost use Rattle.beet_book.specs.Farmers.{farmers_of};

    /// No bidder yet.
    fn new(alloc: Global) -> Farmers
        ensures { result ≡ [] }
    {
        Farmers {
            bidders: Vec::new(alloc),
            words: Vec::new(alloc),
        }
    }

    /// Keeps one bidder more, with the server that knows it.
    fn push(&mut self, known: Option<Point>, farmer: BidderWithTape) -> Result<(), AllocError>
        ensures { OnOk result (self.new ≡ self.old
            ++ record { bidder = record { known = known; curve = farmer.curve }; words = farmer.tape.words } ∷ []) }
    {
        let bidder = Bidder {
            known,
            curve: farmer.curve,
        };
        let words = farmer.tape.into_words();
        self.bidders.reserve(1)?;
        self.words.reserve(1)?;
        self.bidders.push_reserved(bidder);
        self.words.push_reserved(words);
        Ok(())
    }

    /// The bidders, and the words of each, given away.
    pub fn into_parts(self) -> (Vec<Bidder>, Vec<WordList>)
        ensures farmers { farmers_of result.0.items result.1.items ≡ self }
        ensures bidders { result.0.items ≡ map (λ farmer. farmer.bidder) self }
        ensures words { result.1.items ≡ map (λ farmer. farmer.words) self }
    {
        (self.bidders, self.words)
    }
}

/// Reads each bidder in order, with the words that are given or those of its source.
pub fn read_farmers<S: Shelf>(
    alloc: Global,
    shelf: &mut S,
    wanted: &Wanted,
    grid: &Grid,
    lists: Option<&[WordList]>,
    entries: &[Entry],
) -> Result<Farmers, Stop>
    requires few { length entries.now ≤ MOST_BIDDERS }
    ensures { ReadsFor (AreKept wanted.now.counts grid.now entries.now) (S.seen shelf.old) (S.seen shelf.new)
        (farmers_errand wanted.now grid.now (option_map (λ all. all.now) lists.entry) [] entries.now) result }
{
    let mut farmers = Farmers::new(alloc);
    for (i, entry) in entries.iter().enumerate() {
        let given = list_of(lists, i);
        let farmer = read_farmer(alloc, shelf, wanted, grid, given, i as u32 + 1, entry)?;
        farmers.push(entry.known, farmer)?;
    }
    Ok(farmers)
}
