//! Reading the words of the servers and the envelopes of the bidders of a list, whose points are handed on.

ghost use Rattle.std.specs.Prelude.{◌≡◌, ◌*◌, ◌++◌, ◌∷◌, [], ℕ, IfOk, List, OnOk, length};
ghost use Rattle.beet_field.specs.declared.trio.Trio.{Trio as Each};
ghost use Rattle.beet_book.specs.Dealing.{HasLengths};
ghost use Rattle.beet_farmer.specs.Envelopes.{envelope_of};
ghost use Rattle.beet_errand.specs.Errands.{reads};
ghost use Rattle.beet_errand.specs.Fetches.{Reads, ReadsFor};
ghost use Rattle.beet_load.specs.Counts.{counts_of};
ghost use Rattle.beet_load.specs.Servers.{HaveEnough};
ghost use Rattle.beet_gathering.specs.Gather.{HasGathered, bidders_errand, envelopes_errand, sealed_errand};
ghost use Rattle.beet_farmer.specs.declared.envelope.TheConstants.{ENVELOPE_LIMIT};

use beet_bids::Grid;
use beet_book::{Dealt, Servers, Totals};
use beet_errand::{Stop, fetch_file, judge};
use beet_farmer::{ENVELOPE_LIMIT, Envelope, ListEntry, read_envelope};
use beet_field::{Point, Trio};
use beet_forms::beside;
use beet_load::{AllWords, ServerWords, auction_wants, read_words};
use beet_store::Shelf;
use std::alloc::{AllocError, Global};

/// The envelope of a file, for this server.
fn read_envelope_file<S: Shelf>(
    alloc: Global,
    shelf: &mut S,
    grid: &Grid,
    server: Point,
    name: &str,
) -> Result<Envelope, Stop>
    ensures lengths { IfOk result (λ envelope. length envelope.points ≡ 2 * grid.now.prices) }
    ensures reads { Reads (λ envelope. envelope) (S.seen shelf.old) (S.seen shelf.new)
        (reads name.now ENVELOPE_LIMIT (envelope_of grid.now server)) result }
{
    let bytes = fetch_file(alloc, shelf, name, ENVELOPE_LIMIT)?;
    judge(
        alloc,
        name,
        read_envelope(alloc, grid, server, bytes.as_slice()),
    )
}

/// The points of the bidder of an entry, as its three envelopes hold them.
fn read_bidder<S: Shelf>(
    alloc: Global,
    shelf: &mut S,
    grid: &Grid,
    entry: &ListEntry,
) -> Result<Dealt, Stop>
    ensures lengths { IfOk result (λ dealt. HasLengths dealt (2 * grid.now.prices)) }
    ensures reads { Reads (λ dealt. dealt) (S.seen shelf.old) (S.seen shelf.new)
        (envelopes_errand grid.now entry.now.envelopes) result }
{
    let names = &entry.envelopes;
    let one = read_envelope_file(alloc, shelf, grid, Point::One, names.one.as_str())?;
    let two = read_envelope_file(alloc, shelf, grid, Point::Two, names.two.as_str())?;
    let three = read_envelope_file(alloc, shelf, grid, Point::Three, names.three.as_str())?;
    Ok(Dealt::of(
        grid,
        Trio {
            one: one.points,
            two: two.points,
            three: three.points,
        },
    ))
}

/// What takes the points of the bidders of a list, one bidder after another.
pub trait Gathers: Drop {
    ghost use Rattle.std.specs.Prelude.{ℕ, List};
    ghost use Rattle.beet_field.specs.declared.trio.Trio.{Trio as Each};
    ghost use Rattle.beet_bids.specs.Grids.{Grid as Lattice};

    /// It has taken the points of these bidders, over this grid, and no others.
    ghost has_taken: { Lattice → List (Each (List ℕ)) → Self → Type 0 };

    /// It, before the first bidder.
    fn begin(alloc: Global, grid: &Grid) -> Result<Self, AllocError>
        ensures { IfOk result (has_taken grid.now []) };

    /// Takes the points of one bidder more.
    fn take(&mut self, grid: &Grid, points: Dealt) -> Result<(), AllocError>
        requires lengths { HasLengths points (2 * grid.now.prices) }
        requires taken { (bidders : List (Each (List ℕ))) × has_taken grid.now bidders self.old }
        ensures { (bidders : List (Each (List ℕ))) → has_taken grid.now bidders self.old
            → OnOk result (has_taken grid.now (bidders ++ points ∷ []) self.new) };
}

impl Gathers for Totals {
    ghost use Rattle.beet_book.specs.PointSums.{AddsUp};

    ghost has_taken = { λ grid bidders totals. AddsUp grid totals bidders };

    fn begin(alloc: Global, grid: &Grid) -> Result<Totals, AllocError> {
        Totals::new(alloc, grid)
    }

    fn take(&mut self, _grid: &Grid, points: Dealt) -> Result<(), AllocError> {
        self.add(&points);
        Ok(())
    }
}

/// Reads the envelopes of each bidder in order, and hands on the points.
fn gather_bidders<S: Shelf, B: Gathers>(
    alloc: Global,
    shelf: &mut S,
    grid: &Grid,
    entries: &[ListEntry],
) -> Result<B, Stop>
    ensures { ReadsFor (HasGathered B.has_taken grid.now entries.now) (S.seen shelf.old) (S.seen shelf.new)
        (bidders_errand grid.now [] entries.now) result }
{
    let mut gathered = B::begin(alloc, grid)?;
    for entry in entries {
        let points = read_bidder(alloc, shelf, grid, entry)?;
        gathered.take(grid, points)?;
    }
    Ok(gathered)
}

/// The words of the servers, of which a bundle may have any number of bidders; and what takes the points of the bidders
/// of a list, whose envelopes are read after the words.
pub fn gather_with_words<S: Shelf, B: Gathers>(
    alloc: Global,
    shelf: &mut S,
    grid: &Grid,
    sources: &Servers,
    entries: &[ListEntry],
) -> Result<(Trio<ServerWords>, B), Stop>
    ensures enough { IfOk result (λ read. HaveEnough (counts_of grid.now) read.0) }
    ensures reads { ReadsFor (λ read sealed. (sealed.0 ≡ read.0)
        × HasGathered B.has_taken grid.now entries.now read.1 sealed.1) (S.seen shelf.old) (S.seen shelf.new)
        (sealed_errand grid.now sources.now entries.now) result }
{
    let words = read_words(alloc, shelf, &auction_wants(None, grid), sources, None)?;
    let (words, gathered) = beside(words, gather_bidders::<S, B>(alloc, shelf, grid, entries))?;
    let AllWords { servers, bidders } = words;
    drop(bidders);
    Ok((servers, gathered))
}
