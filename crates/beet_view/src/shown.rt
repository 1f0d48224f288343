//! Bidders as the bytes that they are in a transcript.

ghost use Rattle.std.specs.Prelude.{◌≡◌, ◌++◌, ◌∷◌, [], IfOk, OnErr, OnOk, length, option_map};
ghost use Rattle.std.specs.List.{flat_map};
ghost use Rattle.beet_view.specs.Views.{view_with_run};
ghost use Rattle.beet_view.specs.Transcripts.{header_bytes, seen_bytes, view_bytes};

use crate::listed::{Listed, Listing};
use crate::view::RunView;
use crate::writing::{push_header, push_run, push_seen, room_beside};
use beet_bids::{Curve, Grid};
use beet_field::{Fe, Point};
use beet_words::{WIDTH, WordList};
use std::alloc::{AllocError, Global};
use std::marker::Model;

/// Bidders in their order, as one server sees them. They are kept as the bytes that stand for them in its transcript.
#[derive(Drop)]
pub struct ShownBidders {
    bytes: Vec<u8>,
    count: usize,
    listed: Listed,
}

impl Model for ShownBidders {
    ghost use Rattle.std.specs.Prelude.{◌≡◌, List, length};
    ghost use Rattle.std.specs.List.{flat_map};
    ghost use Rattle.beet_view.specs.Transcripts.{seen_bytes};
    ghost use Rattle.beet_view.specs.declared.view.Seen.{Seen as Shown};

    ghost Value = { List Shown };

    ghost view = { λ a. a.listed.bidders };

    ghost invariant = { λ a.
        (a.bytes.items ≡ flat_map seen_bytes a.listed.bidders) × (a.count ≡ length a.listed.bidders) };
}

impl ShownBidders {
    /// No bidder yet.
    pub fn new(alloc: Global) -> ShownBidders
        ensures { result ≡ [] }
    {
        ShownBidders {
            bytes: Vec::new(alloc),
            count: 0,
            listed: Listed::of(&Listing::Empty),
        }
    }

    /// No bidder yet, with memory for so many numbers. Want of memory is the only error.
    pub fn with_capacity(alloc: Global, numbers: usize) -> Result<ShownBidders, AllocError>
        ensures { IfOk result (λ shown. shown ≡ []) }
    {
        Ok(ShownBidders {
            bytes: Vec::with_capacity(alloc, numbers.saturating_mul(WIDTH))?,
            count: 0,
            listed: Listed::of(&Listing::Empty),
        })
    }

    /// Appends a bidder: the server that knows it, if one does, its points, and its curve and its words, if this server
    /// itself knows it. Want of memory is the only error.
    pub fn push(
        &mut self,
        known: Option<Point>,
        points: &[Fe],
        own: Option<(&Curve, &WordList)>,
    ) -> Result<(), AllocError>
        ensures pushed { OnOk result (self.new ≡ self.old ++ record {
          known = known;
          points = points.now;
          own = option_map (λ o. (o.0.now, o.1.now)) own.entry;
        } ∷ []) }
        ensures failed { OnErr result (self.new ≡ []) }
    {
        let Ok(()) = push_seen(&mut self.bytes, known, points, own) else {
            self.bytes.clear();
            self.count = 0;
            self.listed = Listed::of(&Listing::Empty);
            return Err(AllocError);
        };
        // There are no more bidders than bytes, so a usize counts them.
        let _bytes = self.bytes.len();
        self.count += 1;
        self.listed = Listed::of(&Listing::And(&self.listed, known, points, own));
        Ok(())
    }

    /// Appends the bidders of others, whose memory is given back. Want of memory is the only error.
    pub fn append(&mut self, others: ShownBidders) -> Result<(), AllocError>
        ensures appended { OnOk result (self.new ≡ self.old ++ others) }
        ensures failed { OnErr result (self.new ≡ self.old) }
    {
        self.bytes.extend_from_slice(&others.bytes)?;
        // There are no more bidders than bytes, so a usize counts them.
        let _bytes = self.bytes.len();
        self.count += others.count;
        self.listed = Listed::of(&Listing::Both(&self.listed, &others.listed));
        Ok(())
    }

    /// What a transcript begins with and these bidders, in the memory of the bidders, with room for so many bytes more.
    fn into_front(self, server: Point, grid: &Grid, room: usize) -> Result<Vec<u8>, AllocError>
        ensures { IfOk result (λ file. file.items
            ≡ header_bytes server grid.now (length self) ++ flat_map seen_bytes self) }
    {
        let count = self.count;
        let mut file = self.bytes;
        let bidders = file.len();
        file.reserve_exact(room)?;
        push_header(&mut file, server, grid, count)?;
        let header = file.len() - bidders;
        file.rotate_right(header);
        Ok(file)
    }

    /// The transcript of a server with these bidders, which has seen so much of a run.
    pub(crate) fn into_transcript(
        self,
        server: Point,
        grid: &Grid,
        run: &RunView,
    ) -> Result<Vec<u8>, AllocError>
        ensures { IfOk result (λ file. file.items ≡ view_bytes (view_with_run server grid.now self run.now)) }
    {
        let mut file = self.into_front(server, grid, room_beside(grid, run))?;
        push_run(&mut file, run)?;
        Ok(file)
    }
}
