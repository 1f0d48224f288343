//! Views.

ghost use Rattle.std.specs.Prelude.{◌≡◌, ◌↔◌, ◌≤◌, ◌⊎◌, IsNone, length, option_map};
ghost use Rattle.beet_view.specs.Views.{IsView, from_peer, numbers_of};

use arrayvec::ArrayVec;
use beet_bids::{Curve, Grid};
use beet_field::{Fe, MOST_NUMBERS, Point};
use beet_round::Side;
use beet_words::{FeList, Word, WordList};
use std::marker::Model;

/// A bidder at a server: the server that knows it, if one does; its points there, for each price the one of what it
/// buys, and then for each price the one of what it sells; and its curve and its words, if the server itself knows it.
#[derive(Drop)]
pub struct Seen {
    pub known: Option<Point>,
    pub points: FeList,
    pub own: Option<(Curve, WordList)>,
}

/// What came in a round: the numbers from the lower and from the higher peer.
#[derive(Drop)]
pub(crate) struct Received {
    pub(crate) lower: ArrayVec<Fe, MOST_NUMBERS>,
    pub(crate) higher: ArrayVec<Fe, MOST_NUMBERS>,
}

impl Model for Received {
    ghost use Rattle.std.specs.Prelude.{ℕ, List};

    ghost Value = { List ℕ × List ℕ };

    ghost view = { λ a. (a.lower.items, a.higher.items) };
}

impl Received {
    /// The numbers from the lower peer.
    pub(crate) fn lower(&self) -> &[Fe]
        ensures { result.now ≡ self.now.0 }
    {
        self.lower.as_slice()
    }

    /// The numbers from the higher peer.
    pub(crate) fn higher(&self) -> &[Fe]
        ensures { result.now ≡ self.now.1 }
    {
        self.higher.as_slice()
    }
}

/// What one server sees of a run of any script: its tapes of words, and the numbers that its peers sent it.
#[derive(Drop)]
pub struct RunView {
    pub(crate) masks: WordList,
    pub(crate) coefficients: WordList,
    pub(crate) rounds: Vec<Received>,
}

impl Model for RunView {
    ghost use Rattle.beet_sharing.specs.Seen.{SeenRun};

    ghost Value = { SeenRun };

    ghost view = { λ a. record { masks = a.masks; coefficients = a.coefficients; rounds = a.rounds.items } };
}

impl RunView {
    /// What came in each round.
    pub(crate) fn received(&self) -> &[Received]
        ensures { result.now ≡ self.now.rounds }
    {
        &self.rounds
    }
}

/// What one server sees of an auction: the bidders as it sees them, and what it sees of the run.
#[derive(Drop)]
pub struct View {
    pub(crate) server: Point,
    pub(crate) grid: Grid,
    pub(crate) bidders: Vec<Seen>,
    pub(crate) run: RunView,
}

impl Model for View {
    ghost use Rattle.beet_view.specs.Views.{Viewed, IsView, view_with_run};

    ghost Value = { Viewed };

    ghost view = { λ a. view_with_run a.server a.grid a.bidders.items a.run };

    ghost invariant = { λ a. IsView (view_with_run a.server a.grid a.bidders.items a.run) };
}

impl View {
    ghost use Rattle.beet_view.specs.Views.{IsView};

    /// The server whose view it is.
    pub fn server(&self) -> Point
        ensures value { result ≡ self.now.server }
        ensures limits { IsView self.now }
    {
        self.server
    }

    /// The grid of the auction.
    pub fn grid(&self) -> &Grid
        ensures value { result.now ≡ self.now.grid }
        ensures limits { IsView self.now }
    {
        &self.grid
    }

    /// The bidders in their order, at most 2,000.
    pub fn bidders(&self) -> &[Seen]
        ensures value { result.now ≡ self.now.bidders }
        ensures limits { IsView self.now }
    {
        &self.bidders
    }

    /// The mask tape of the server.
    pub fn masks(&self) -> &[Word]
        ensures { result.now ≡ self.now.masks }
    {
        self.run.masks.as_slice()
    }

    /// The coefficient tape of the server.
    pub fn coefficients(&self) -> &[Word]
        ensures { result.now ≡ self.now.coefficients }
    {
        self.run.coefficients.as_slice()
    }

    /// How many rounds there were.
    pub fn rounds(&self) -> u32
        ensures { result ≡ length self.now.rounds }
    {
        self.run.received().len() as u32
    }

    /// The numbers from this sender in this round, counted from 0, or none if there was no such round or the sender
    /// is the server itself.
    pub fn numbers(&self, round: u32, sender: Point) -> Option<&[Fe]>
        ensures numbers { option_map (λ s. s.now) result ≡ numbers_of self.now round sender }
        ensures none { IsNone result ↔ ((length self.now.rounds ≤ round) ⊎ (sender ≡ self.now.server)) }
    {
        let received = self.run.received().get(round as usize)?;
        numbers_from(self.server, sender, received)
    }
}

/// Of what a server received in a round, the numbers of this sender.
fn numbers_from(server: Point, sender: Point, received: &Received) -> Option<&[Fe]>
    ensures numbers { option_map (λ s. s.now) result ≡ from_peer server sender received.now }
    ensures none { IsNone result ↔ (sender ≡ server) }
{
    match Side::of(server, sender)? {
        Side::Low => Some(received.lower()),
        Side::High => Some(received.higher()),
    }
}
