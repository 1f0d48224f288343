//! The seeds of the sources of words, and whether one of them comes twice.

ghost use Rattle.std.specs.Prelude.{◌≡◌, ◌++◌, ◌∷◌, [], ℕ, List, OnOk};
ghost use Rattle.beet_notice.specs.Noting.{HasSeeds};
ghost use Rattle.beet_notice.specs.Notices.{seed_of_bidder, seed_of_server, seeds_of_entries, seeds_of_servers};

use beet_book::{BidderSource, Entry, ServerSource, Servers};
use std::alloc::{AllocError, Global};
use std::collections::BTreeSet;

/// The seeds so far, each once, and whether one of them came twice.
#[derive(Drop)]
pub(crate) struct Seeds {
    set: BTreeSet<[u8; 32]>,
    twice: bool,
}

impl Seeds {
    pub(crate) fn new(alloc: Global) -> Seeds
        ensures { HasSeeds [] result }
    {
        Seeds {
            set: BTreeSet::new(alloc),
            twice: false,
        }
    }

    /// Whether a seed came twice.
    pub(crate) fn come_twice(&self) -> bool
        ensures { result ≡ self.now.twice }
    {
        self.twice
    }

    fn note(&mut self, seed: [u8; 32]) -> Result<(), AllocError>
        ensures { OnOk result ((seeds : List (List ℕ)) → HasSeeds seeds self.old
            → HasSeeds (seeds ++ seed ∷ []) self.new) }
    {
        let Ok(new) = self.set.insert(seed) else {
            return Err(AllocError);
        };
        self.twice |= !new;
        Ok(())
    }

    fn note_server(&mut self, source: &ServerSource) -> Result<(), AllocError>
        ensures { OnOk result ((seeds : List (List ℕ)) → HasSeeds seeds self.old
            → HasSeeds (seeds ++ seed_of_server source.now) self.new) }
    {
        match source {
            ServerSource::Seed(seed) => self.note(*seed),
            ServerSource::Tapes { .. } => Ok(()),
        }
    }

    fn note_bidder(&mut self, source: &BidderSource) -> Result<(), AllocError>
        ensures { OnOk result ((seeds : List (List ℕ)) → HasSeeds seeds self.old
            → HasSeeds (seeds ++ seed_of_bidder source.now) self.new) }
    {
        match source {
            BidderSource::Seed(seed) => self.note(*seed),
            BidderSource::Tape(_) => Ok(()),
        }
    }

    pub(crate) fn note_servers(&mut self, servers: &Servers) -> Result<(), AllocError>
        ensures { OnOk result ((seeds : List (List ℕ)) → HasSeeds seeds self.old
            → HasSeeds (seeds ++ seeds_of_servers servers.now) self.new) }
    {
        let Servers::Three(sources) = servers else {
            return Ok(());
        };
        self.note_server(&sources.one)?;
        self.note_server(&sources.two)?;
        self.note_server(&sources.three)?;
        Ok(())
    }

    pub(crate) fn note_entries(&mut self, entries: &[Entry]) -> Result<(), AllocError>
        ensures { OnOk result ((seeds : List (List ℕ)) → HasSeeds seeds self.old
            → HasSeeds (seeds ++ seeds_of_entries entries.now) self.new) }
    {
        for entry in entries {
            self.note_bidder(&entry.source)?;
        }
        Ok(())
    }
}
