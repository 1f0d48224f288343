//! A shelf that hands each fetch on, and keeps the seeds in the files of servers and bidders.

ghost use Rattle.std.specs.Prelude.{◌≡◌, [], false, if◌then◌else◌};
ghost use Rattle.beet_notice.specs.Notices.{come_twice, seeds_seen};

use crate::watch::Watch;
use beet_store::{FetchFault, Shelf};
use std::alloc::Global;
use std::marker::Model;

/// A shelf that is watched: it answers as the shelf in it does. If no memory can be had for the seeds, nothing is told
/// of them.
#[derive(Drop)]
pub struct Watched<S: Shelf> {
    shelf: S,
    watch: Watch,
}

impl<S: Shelf> Model for Watched<S> {
    ghost use Rattle.beet_notice.specs.Noting.{HasNoted, Watching};

    ghost Value = { Watching S };

    ghost view = { λ w. record { shelf = w.shelf; lost = w.watch.lost } };

    ghost invariant = { λ w. HasNoted (S.seen w.shelf).told.fetches w.watch };
}

impl<S: Shelf> Watched<S> {
    /// A shelf from which nothing was fetched.
    pub fn new(alloc: Global, shelf: S) -> Watched<S>
        requires { (S.seen shelf).told.fetches ≡ [] }
        ensures shelf { result.shelf ≡ shelf }
        ensures lost { result.lost ≡ false }
    {
        Watched {
            shelf,
            watch: Watch::new(alloc),
        }
    }

    /// Whether the files of servers and bidders that were fetched name one seed twice.
    pub fn has_seed_twice(&self) -> bool
        ensures { result ≡ (if self.now.lost then false
            else come_twice (seeds_seen (S.seen self.now.shelf).told.fetches)) }
    {
        self.watch.has_seed_twice()
    }
}

impl<S: Shelf> Shelf for Watched<S> {
    ghost seen = { λ w. S.seen w.shelf };

    fn fetch(&mut self, alloc: Global, name: &str, limit: u64) -> Result<Vec<u8>, FetchFault> {
        let answer = self.shelf.fetch(alloc, name, limit);
        self.watch.note(alloc, &answer);
        answer
    }
}
