//! Three lists of numbers, one for each server.

ghost use Rattle.std.specs.Prelude.{◌≡◌, [], IfOk, slice_index};
ghost use Rattle.beet_field.specs.Trio.{member, trio_of};

use beet_field::{Fe, Point, Trio};
use std::alloc::{AllocError, Global};
use std::marker::Model;

/// A list of numbers for each of the three servers.
#[derive(Drop)]
pub(crate) struct Numbers {
    pub lists: Trio<Vec<Fe>>,
}

impl Model for Numbers {
    ghost use Rattle.std.specs.Prelude.{ℕ, List};
    ghost use Rattle.beet_field.specs.declared.trio.Trio.{Trio as Each};

    ghost Value = { Each (List ℕ) };

    ghost view = { λ a. record { one = a.lists.one.items; two = a.lists.two.items; three = a.lists.three.items } };
}

impl Numbers {
    /// No numbers yet.
    pub(crate) fn new(alloc: Global) -> Numbers
        ensures { result ≡ trio_of (λ server. []) }
    {
        Numbers {
            lists: Trio::of(|_| Vec::new(alloc)),
        }
    }

    /// The list of a server.
    pub(crate) fn at(&self, server: Point) -> &[Fe]
        ensures { result.now ≡ member self.now server }
    {
        self.lists.get(server).as_slice()
    }

    /// The same lists, in memory of their own.
    pub(crate) fn copy(&self, alloc: Global) -> Result<Numbers, AllocError>
        ensures { IfOk result (λ numbers. numbers ≡ self.now) }
    {
        let lists = Trio::try_of(|server| Vec::from_slice(alloc, self.at(server)))?;
        Ok(Numbers { lists })
    }
}

/// The number at a place, or 0 past the end.
pub fn number_at(numbers: &[Fe], place: usize) -> Fe
    ensures { result ≡ slice_index numbers.now place }
{
    match numbers.get(place) {
        Some(number) => *number,
        None => Fe::default(),
    }
}
