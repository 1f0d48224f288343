//! What the bidders of a book deal, and what each server sees of them.

ghost use Rattle.std.specs.Prelude.{◌≡◌, ◌≤◌, ◌++◌, ◌∷◌, [], IfOk, OnOk, All, List, Option, length, map, false, true};
ghost use Rattle.beet_field.specs.Trio.{member};
ghost use Rattle.beet_bids.specs.Curves.{IsOfGrid};
ghost use Rattle.beet_bids.specs.Grids.{Grid as Lattice};
ghost use Rattle.beet_book.specs.Farmers.{BidderWithWords, book_inputs, farmers_of};
ghost use Rattle.beet_load.specs.Counts.{counts_of};
ghost use Rattle.beet_load.specs.Wholes.{CanDeal};
ghost use Rattle.beet_view.specs.BookViews.{seen_at, seen_with};
ghost use Rattle.beet_transcripts.specs.DealtBooks.{CanDealAll, CanDealPart, HasDealt, part_of, shows};
ghost use Rattle.beet_transcripts.specs.RunsOn.{seen_sealed};

use beet_bids::{Bidder, Book, Grid};
use beet_book::{Totals, deal_bidder};
use beet_field::{Point, Trio};
use beet_forms::beside;
use beet_load::front;
use beet_parts::{Parts, in_parts};
use beet_plan::words_kept;
use beet_view::{ShownBidders, numbers_for_bidders};
use beet_words::{FeList, WordList};
use std::alloc::{AllocError, Global};
use std::marker::{Model, Sync};
use std::thread::Threads;

/// The bidders, in their order, as each server sees them.
#[derive(Drop)]
pub struct SeenByAll {
    servers: Trio<ShownBidders>,
}

impl Model for SeenByAll {
    ghost use Rattle.std.specs.Prelude.{List};
    ghost use Rattle.beet_field.specs.declared.trio.Trio.{Trio as Each};
    ghost use Rattle.beet_view.specs.declared.view.Seen.{Seen as Shown};

    ghost Value = { Each (List Shown) };

    ghost view = { λ a. a.servers };
}

/// Whether bidders are kept for a server: for one that is named, or for each.
fn is_kept(whom: Option<Point>, at: Point) -> bool
    ensures { result ≡ shows whom at }
{
    whom.is_none() || whom == Some(at)
}

/// For how many numbers of a run a transcript has memory from the start. A run over 4,096 prices by chains has 19,001 if
/// no mask is rejected.
const NUMBERS_FOR_RUN: usize = 20_000;

/// No bidder yet of a server, with memory for these and for most runs if bidders are kept for it.
fn unseen(
    alloc: Global,
    grid: &Grid,
    whom: Option<Point>,
    at: Point,
    bidders: &[Bidder],
    words: &[WordList],
) -> Result<ShownBidders, AllocError>
    ensures { IfOk result (λ seen. seen ≡ []) }
{
    let numbers = if is_kept(whom, at) {
        numbers_for_bidders(grid, bidders, words, at.number()).saturating_add(NUMBERS_FOR_RUN)
    } else {
        0
    };
    ShownBidders::with_capacity(alloc, numbers)
}

impl SeenByAll {
    /// No bidder yet.
    pub fn new(alloc: Global) -> SeenByAll
        ensures { result ≡ record { one = []; two = []; three = [] } }
    {
        SeenByAll {
            servers: Trio::of(|_| ShownBidders::new(alloc)),
        }
    }

    /// No bidder yet, with memory for these in each transcript for which bidders are kept.
    fn with_room_for(
        alloc: Global,
        grid: &Grid,
        whom: Option<Point>,
        bidders: &[Bidder],
        words: &[WordList],
    ) -> Result<SeenByAll, AllocError>
        ensures { IfOk result (λ seen. seen ≡ record { one = []; two = []; three = [] }) }
    {
        let servers = Trio::try_of(|at| unseen(alloc, grid, whom, at, bidders, words))?;
        Ok(SeenByAll { servers })
    }

    /// Appends a bidder of which nobody knows more than these points, as each server sees it.
    pub fn push_sealed(&mut self, points: Trio<FeList>) -> Result<(), AllocError>
        ensures { OnOk result ((s : Point) → member self.new s ≡ member self.old s ++ seen_sealed s points ∷ []) }
    {
        let Trio { one, two, three } = &points;
        self.servers.one.push(None, one.as_slice(), None)?;
        self.servers.two.push(None, two.as_slice(), None)?;
        self.servers.three.push(None, three.as_slice(), None)?;
        Ok(())
    }

    /// The bidders of others after these. What is appended of others gives its memory back at once.
    fn append(&mut self, others: SeenByAll) -> Result<(), AllocError>
        ensures { OnOk result (self.new ≡ record {
          one = self.old.one ++ others.one;
          two = self.old.two ++ others.two;
          three = self.old.three ++ others.three;
        }) }
    {
        let Trio { one, two, three } = others.servers;
        self.servers.one.append(one)?;
        self.servers.two.append(two)?;
        self.servers.three.append(three)?;
        Ok(())
    }

    /// The bidders as one server sees them; what the others see is dropped.
    pub(crate) fn into_one(self, at: Point) -> ShownBidders
        ensures { result ≡ member self at }
    {
        match at {
            Point::One => self.servers.one,
            Point::Two => self.servers.two,
            Point::Three => self.servers.three,
        }
    }

    /// The bidders as each server sees them, given away.
    pub(crate) fn into_parts(self) -> Trio<ShownBidders>
        ensures { result ≡ self }
    {
        self.servers
    }
}

/// Appends a bidder with these points, as this server sees it, if bidders are kept for the server, and else nothing.
fn show(
    whom: Option<Point>,
    at: Point,
    bidder: &Bidder,
    words: &WordList,
    points: &FeList,
    seen: &mut ShownBidders,
) -> Result<(), AllocError>
    ensures shown { OnOk result (shows whom at ≡ true → seen.new
        ≡ seen.old ++ seen_with at (record { bidder = bidder.now; words = words.now }) points.now ∷ []) }
    ensures not_shown { shows whom at ≡ false → seen.new ≡ seen.old }
{
    if is_kept(whom, at) {
        let own = if bidder.known == Some(at) {
            Some((&bidder.curve, words))
        } else {
            None
        };
        seen.push(bidder.known, points.as_slice(), own)?;
    }
    Ok(())
}

impl SeenByAll {
    /// Appends a bidder with these points, as each server sees it for which bidders are kept.
    fn show_each(
        &mut self,
        whom: Option<Point>,
        bidder: &Bidder,
        words: &WordList,
        points: &Trio<FeList>,
    ) -> Result<(), AllocError>
        ensures shown { OnOk result ((s : Point) → shows whom s ≡ true → member self.new s
            ≡ member self.old s
            ++ seen_with s (record { bidder = bidder.now; words = words.now }) (member points.now s) ∷ []) }
        ensures not_shown { (s : Point) → shows whom s ≡ false → member self.new s ≡ member self.old s }
    {
        let Trio { one, two, three } = &mut self.servers;
        show(whom, Point::One, bidder, words, &points.one, one)?;
        show(whom, Point::Two, bidder, words, &points.two, two)?;
        show(whom, Point::Three, bidder, words, &points.three, three)
    }
}

/// Deals the quantities of a bidder by its words, adds the points, and shows the bidder to the servers for which
/// bidders are kept.
fn deal_one(
    alloc: Global,
    grid: &Grid,
    whom: Option<Point>,
    bidder: &Bidder,
    words: &WordList,
    totals: &mut Totals,
    seen: &mut SeenByAll,
) -> Result<(), AllocError>
    requires of_grid { IsOfGrid grid.now bidder.now.curve }
    requires words { CanDeal (counts_of grid.now) words.now }
    requires prices { totals.old.prices ≡ grid.now.prices }
    ensures { (farmers : List BidderWithWords) → HasDealt grid.now whom farmers totals.old seen.old
        → OnOk result (HasDealt grid.now whom (farmers ++ record { bidder = bidder.now; words = words.now } ∷ [])
        totals.new seen.new) }
{
    let mut tape = front(alloc, words, words_kept(grid))?;
    let dealt = deal_bidder(alloc, grid, &bidder.curve, &mut tape);
    // One call lets the tape go, not each way out by itself.
    drop(tape);
    let dealt = dealt?;
    totals.add(&dealt);
    let points = dealt.into_points();
    let shown = seen.show_each(whom, bidder, words, &points);
    drop(points);
    shown
}

/// Some bidders of a book: their points added up, and each bidder as the servers see it for which bidders are kept.
#[derive(Drop)]
struct DealtPart {
    totals: Totals,
    seen: SeenByAll,
}

impl DealtPart {
    /// Adds the points of another part, and takes its bidders after these.
    fn merge(&mut self, other: DealtPart) -> Result<(), AllocError>
        requires { other.totals.prices ≡ self.old.totals.prices }
        ensures { (grid : Lattice) (whom : Option Point) (few rest : List BidderWithWords)
            → HasDealt grid whom few self.old.totals self.old.seen
            → HasDealt grid whom rest other.totals other.seen
            → OnOk result (HasDealt grid whom (few ++ rest) self.new.totals self.new.seen) }
    {
        self.totals.merge(&other.totals);
        self.seen.append(other.seen)
    }
}

/// Puts two parts together, of which the second has the bidders after those of the first.
fn join_parts(
    first: Result<DealtPart, AllocError>,
    second: Result<DealtPart, AllocError>,
) -> Result<DealtPart, AllocError>
    requires { IfOk first (λ few. IfOk second (λ rest. rest.totals.prices ≡ few.totals.prices)) }
    ensures { (grid : Lattice) (whom : Option Point) (few rest : List BidderWithWords)
        → IfOk first (λ part. HasDealt grid whom few part.totals part.seen)
        → IfOk second (λ part. HasDealt grid whom rest part.totals part.seen)
        → IfOk result (λ both. HasDealt grid whom (few ++ rest) both.totals both.seen) }
{
    let (second, few) = beside(second, first)?;
    let (mut few, rest) = beside(few, second)?;
    let merged = few.merge(rest);
    let (both, ()) = beside(few, merged)?;
    Ok(both)
}

/// Deals the quantities of the bidders one after another, and shows them where no bidder is seen yet.
fn deal_in_order(
    alloc: Global,
    grid: &Grid,
    whom: Option<Point>,
    bidders: &[Bidder],
    words: &[WordList],
    mut seen: SeenByAll,
) -> Result<DealtPart, AllocError>
    requires can { CanDealAll grid.now bidders.now words.now }
    requires nobody { seen ≡ record { one = []; two = []; three = [] } }
    ensures { IfOk result (λ part. HasDealt grid.now whom (farmers_of bidders.now words.now) part.totals part.seen) }
{
    let mut totals = Totals::new(alloc, grid)?;
    for i in 0..words.len() {
        deal_one(
            alloc,
            grid,
            whom,
            &bidders[i],
            &words[i],
            &mut totals,
            &mut seen,
        )?;
    }
    Ok(DealtPart { totals, seen })
}

/// The bidders of a book with their words, and the server for which they are kept, if one is named.
#[derive(Drop)]
struct Bidding<'a> {
    grid: &'a Grid,
    whom: Option<Point>,
    bidders: &'a [Bidder],
    words: &'a [WordList],
}

impl Parts<(), Result<DealtPart, AllocError>> for Bidding<'_> {
    ghost use Rattle.std.specs.Prelude.{IfOk};
    ghost use Rattle.beet_transcripts.specs.DealtBooks.{CanDealPart, HasDealt, deal-splits, part_of};

    ghost can = { λ s from count own. CanDealPart s.grid.now s.bidders.now s.words.now from count };

    ghost does = { λ s from count old new result. IfOk result (λ part.
        HasDealt s.grid.now s.whom (part_of s.bidders.now s.words.now from count) part.totals part.seen) };

    ghost splits = { λ s from few rest front back least.
        deal-splits s.grid.now s.bidders.now s.words.now from few rest };

    fn in_order(
        &self,
        alloc: Global,
        from: usize,
        count: usize,
        _own: &mut [()],
    ) -> Result<DealtPart, AllocError> {
        let end = from + count;
        // The bidders of all other parts end up behind those of the first.
        let last = if from == 0 { self.words.len() } else { end };
        let seen = SeenByAll::with_room_for(
            alloc,
            self.grid,
            self.whom,
            &self.bidders[from..last],
            &self.words[from..last],
        )?;
        deal_in_order(
            alloc,
            self.grid,
            self.whom,
            &self.bidders[from..end],
            &self.words[from..end],
            seen,
        )
    }

    fn join(
        &self,
        few: Result<DealtPart, AllocError>,
        rest: Result<DealtPart, AllocError>,
    ) -> Result<DealtPart, AllocError> {
        join_parts(few, rest)
    }
}

/// Deals the quantities of so many bidders by a thread for each processor.
fn deal_in_parts<R: Threads + Sync>(
    rt: &R,
    alloc: Global,
    bidding: &Bidding<'_>,
    count: usize,
) -> Result<DealtPart, AllocError>
    requires can { CanDealPart bidding.now.grid.now bidding.now.bidders.now bidding.now.words.now 0 count }
    ensures { IfOk result (λ part. HasDealt bidding.now.grid.now bidding.now.whom
        (part_of bidding.now.bidders.now bidding.now.words.now 0 count) part.totals part.seen) }
{
    in_parts(rt, alloc, bidding, count, &mut [])
}

/// What the bidders of a book deal: the inputs of the servers, and the bidders as the servers see them for which they
/// are kept.
#[derive(Drop)]
pub(crate) struct DealtBook {
    pub(crate) inputs: Trio<FeList>,
    pub(crate) seen: SeenByAll,
}

/// Deals the quantities of all bidders of a book, each by its own words, by a thread for each processor. The bidders
/// are kept for one server alone, or for all three if none is named.
pub(crate) fn deal_book<R: Threads + Sync>(
    rt: &R,
    alloc: Global,
    whom: Option<Point>,
    book: &Book,
    words: &[WordList],
) -> Result<DealtBook, AllocError>
    requires lists { length words.now ≡ length book.now.bidders }
    requires words { All (CanDeal (counts_of book.now.grid)) words.now }
    ensures inputs { IfOk result (λ dealt. dealt.inputs
        ≡ book_inputs book.now.grid.prices (farmers_of book.now.bidders words.now)) }
    ensures seen { IfOk result (λ dealt. (s : Point) → shows whom s ≡ true → member dealt.seen s
        ≡ map (seen_at book.now.grid s) (farmers_of book.now.bidders words.now)) }
    ensures not_seen { IfOk result (λ dealt. (s : Point) → shows whom s ≡ false → member dealt.seen s ≡ []) }
{
    let bidding = Bidding {
        grid: book.grid(),
        whom,
        bidders: book.bidders(),
        words,
    };
    let dealt = deal_in_parts(rt, alloc, &bidding, words.len())?;
    Ok(DealtBook {
        inputs: dealt.totals.inputs(),
        seen: dealt.seen,
    })
}
