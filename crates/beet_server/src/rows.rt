//! Lists of numbers, kept one after another.

ghost use Rattle.std.specs.Prelude.{◌≡◌, ◌<◌, ◌≤◌, ◌+◌, ◌-◌, ◌++◌, [], ◌∷◌, length, IfOk, Some, slice_get, slice_index};
ghost use Rattle.std.specs.Prelude.{take, drop};

use crate::parts::append_all;
use beet_field::Fe;
use std::alloc::{AllocError, Global};
use std::marker::Model;

/// Lists of numbers. They lie one after another, so a short one takes little memory.
#[derive(Drop)]
pub struct Rows {
    items: Vec<Fe>,
    ends: Vec<usize>,
}

impl Model for Rows {
    ghost use Rattle.std.specs.Prelude.{vec_capacity, length};
    ghost use Rattle.beet_server.specs.Rows.{Rows as Shown, rows_of, AreEnds};

    ghost Value = { Shown };

    ghost view = { λ r. record {
      rows = rows_of r.items.items 0 r.ends.items;
      count = length r.items.items;
      items_room = vec_capacity r.items;
      ends_room = vec_capacity r.ends;
    } };

    ghost invariant = { λ r. AreEnds 0 r.ends.items (length r.items.items) };
}

impl Rows {
    /// None, with room for so many lists and numbers.
    pub fn new(alloc: Global, lists: usize, numbers: usize) -> Result<Rows, AllocError>
        ensures none { IfOk result (λ r. r.rows ≡ []) }
        ensures count { IfOk result (λ r. r.count ≡ 0) }
        ensures items_room { IfOk result (λ r. r.items_room ≡ numbers) }
        ensures ends_room { IfOk result (λ r. r.ends_room ≡ lists) }
    {
        let items = Vec::with_capacity(alloc, numbers)?;
        let ends = Vec::with_capacity(alloc, lists)?;
        Ok(Rows { items, ends })
    }

    /// Appends a list. There is room for it.
    pub fn push(&mut self, row: &[Fe])
        requires items { self.old.count + length row.now ≤ self.old.items_room }
        requires ends { length self.old.rows < self.old.ends_room }
        ensures rows { self.new.rows ≡ self.old.rows ++ row.now ∷ [] }
        ensures count { self.new.count ≡ self.old.count + length row.now }
        ensures items_room { self.new.items_room ≡ self.old.items_room }
        ensures ends_room { self.new.ends_room ≡ self.old.ends_room }
    {
        append_all(&mut self.items, row);
        let end = self.items.len();
        self.ends.push_reserved(end);
    }

    /// The list at a place.
    pub fn row(&self, k: usize) -> &[Fe]
        requires { k < length self.now.rows }
        ensures { Some result.now ≡ slice_get self.now.rows k }
    {
        if k == 0 {
            let end = end_at(self.ends.as_slice(), 0);
            return between(self.items.as_slice(), 0, end);
        }
        let start = end_at(self.ends.as_slice(), k - 1);
        let end = end_at(self.ends.as_slice(), k);
        between(self.items.as_slice(), start, end)
    }
}

/// The end of the list at a place.
fn end_at(ends: &[usize], k: usize) -> usize
    requires { k < length ends.now }
    ensures { result ≡ slice_index ends.now k }
{
    ends[k]
}

/// The numbers between two places.
fn between(items: &[Fe], start: usize, end: usize) -> &[Fe]
    requires start { start ≤ end }
    requires end { end ≤ length items.now }
    ensures { result.now ≡ take (end - start) (drop start items.now) }
{
    &items[start..end]
}
