//! The bidders that bytes stand for. They exist in proofs alone, so that no memory is taken for them.

ghost use Rattle.std.specs.Prelude.{◌≡◌, List};
ghost use Rattle.std.specs.Borrow.{ftrue};
ghost use Rattle.beet_view.specs.declared.view.Seen.{Seen as Shown};

use beet_bids::Curve;
use beet_field::{Fe, Point};
use beet_words::WordList;
use std::marker::{Model, Send};

/// A list of bidders. A clause reads them as `bidders`.
#[derive(Drop)]
pub(crate) struct Listed {
    ghost bidders: { List Shown },
}

impl Model for Listed {
    ghost also_owns = { λ _. ftrue };
}

// It owns nothing, which is proved.
unsafe impl Send for Listed {}

/// What a list is made of.
#[derive(Clone, Copy, Drop)]
pub(crate) enum Listing<'a> {
    /// No bidder.
    Empty,
    /// The bidders of a list, and one more: the server that knows it, its points, and its curve and words if they are
    /// shown.
    And(&'a Listed, Option<Point>, &'a [Fe], Option<(&'a Curve, &'a WordList)>),
    /// The bidders of two lists.
    Both(&'a Listed, &'a Listed),
}

impl Listed {
    ghost use Rattle.beet_view.specs.Listings.{listed};

    /// The list of what it is made of.
    #[inline(always)]
    pub(crate) fn of(_listing: &Listing<'_>) -> Listed
        ensures { result.bidders ≡ listed _listing.now }
    {
        Listed {}
    }
}
