//! Points that are collected in memory that was taken before.

ghost use Rattle.std.specs.Prelude.{◌≡◌, ◌<◌, IfOk, length};
ghost use Rattle.beet_book.specs.Columns.{HasRoom, none_in, pushed};

use beet_field::{Fe, Trio};
use beet_words::FeList;
use std::alloc::{AllocError, Global};
use std::marker::Model;

/// The points of three servers, with room for a number of points at each.
#[derive(Drop)]
pub(crate) struct Columns {
    room: u32,
    points: Trio<Vec<Fe>>,
}

impl Model for Columns {
    ghost use Rattle.std.specs.Prelude.{◌≤◌, vec_capacity};
    ghost use Rattle.beet_book.specs.Columns.{Columns as Seen};

    ghost Value = { Seen };

    ghost view = { λ a. record {
      room = a.room;
      points = record { one = a.points.one.items; two = a.points.two.items; three = a.points.three.items };
    } };

    ghost invariant = { λ a. (a.room ≤ vec_capacity a.points.one)
        × (a.room ≤ vec_capacity a.points.two)
        × (a.room ≤ vec_capacity a.points.three) };
}

impl Columns {
    /// No points, and room for so many at each server.
    pub(crate) fn new(alloc: Global, room: u32) -> Result<Columns, AllocError>
        ensures { IfOk result (λ columns. columns ≡ none_in room) }
    {
        Ok(Columns {
            room,
            points: Trio::try_of(|_| Vec::with_capacity(alloc, room as usize))?,
        })
    }

    /// One more point at each server.
    pub(crate) fn push(&mut self, points: Trio<Fe>)
        requires { HasRoom self.old }
        ensures { self.new ≡ pushed self.old points }
    {
        self.points.one.push_reserved(points.one);
        self.points.two.push_reserved(points.two);
        self.points.three.push_reserved(points.three);
    }

    pub(crate) fn into_points(self) -> Trio<FeList>
        ensures { result ≡ self.points }
    {
        self.points.map(|_, points| FeList::of(points))
    }
}
