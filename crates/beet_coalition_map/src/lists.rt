//! Five lists of numbers, one for each server, and the words that they are drawn from.

ghost use Rattle.std.specs.Prelude.{◌≡◌, ◌≤◌, IfOk, All, length, map};
ghost use Rattle.beet_weights.specs.Quadratics.{IsServer, of_five};
ghost use Rattle.beet_words.specs.Words.{IsWord, accepted, ones_in};
ghost use Rattle.beet_coalition.specs.Lists.{at_server};
ghost use Rattle.beet_coalition_map.specs.Steps.{FitBack};

use crate::begins::words_at;
use beet_field::Fe;
use beet_words::{FeList, Word, WordList, numbers_in, put_back};
use std::alloc::{AllocError, Global};
use std::marker::Model;

/// How many servers there are.
const SERVERS: usize = 5;

/// A list of numbers for each of the five servers.
#[derive(Drop)]
pub(crate) struct FiveLists {
    pub one: Vec<Fe>,
    pub two: Vec<Fe>,
    pub three: Vec<Fe>,
    pub four: Vec<Fe>,
    pub five: Vec<Fe>,
}

impl Model for FiveLists {
    ghost use Rattle.std.specs.Prelude.{ℕ, List, [], ◌∷◌};

    ghost Value = { List (List ℕ) };

    ghost view = { λ a. a.one.items ∷ a.two.items ∷ a.three.items ∷ a.four.items ∷ a.five.items ∷ [] };
}

/// The points of a server, of the lists of all, with room for so many.
fn points_at(
    alloc: Global,
    lists: &[FeList],
    server: u32,
    room: usize,
) -> Result<Vec<Fe>, AllocError>
    requires { 1 ≤ server }
    ensures { IfOk result (λ points. points.items ≡ at_server lists.now server) }
{
    let mut points = Vec::with_capacity(alloc, room)?;
    if let Some(list) = lists.get(server as usize - 1) {
        points.extend_from_slice(list.as_slice())?;
    }
    Ok(points)
}

/// The numbers that a server draws from its words.
fn numbers_at(alloc: Global, lists: &[WordList], server: u32) -> Result<Vec<Fe>, AllocError>
    requires { 1 ≤ server }
    ensures { IfOk result (λ numbers. numbers.items ≡ accepted (at_server lists.now server)) }
{
    numbers_in(alloc, words_at(lists, server))
}

impl FiveLists {
    /// The same lists as these, each with room for so many numbers.
    pub(crate) fn with_room(
        alloc: Global,
        lists: &[FeList],
        room: usize,
    ) -> Result<FiveLists, AllocError>
        ensures { IfOk result (λ five. five ≡ of_five (at_server lists.now)) }
    {
        Ok(FiveLists {
            one: points_at(alloc, lists, 1, room)?,
            two: points_at(alloc, lists, 2, room)?,
            three: points_at(alloc, lists, 3, room)?,
            four: points_at(alloc, lists, 4, room)?,
            five: points_at(alloc, lists, 5, room)?,
        })
    }

    /// The numbers that the servers draw from their words.
    pub(crate) fn drawn(alloc: Global, words: &[WordList]) -> Result<FiveLists, AllocError>
        ensures { IfOk result (λ five. five ≡ of_five (λ j. accepted (at_server words.now j))) }
    {
        Ok(FiveLists {
            one: numbers_at(alloc, words, 1)?,
            two: numbers_at(alloc, words, 2)?,
            three: numbers_at(alloc, words, 3)?,
            four: numbers_at(alloc, words, 4)?,
            five: numbers_at(alloc, words, 5)?,
        })
    }

    /// The same lists, in memory of their own.
    pub(crate) fn copy(&self, alloc: Global) -> Result<FiveLists, AllocError>
        ensures { IfOk result (λ five. five ≡ self.now) }
    {
        Ok(FiveLists {
            one: Vec::from_slice(alloc, self.one.as_slice())?,
            two: Vec::from_slice(alloc, self.two.as_slice())?,
            three: Vec::from_slice(alloc, self.three.as_slice())?,
            four: Vec::from_slice(alloc, self.four.as_slice())?,
            five: Vec::from_slice(alloc, self.five.as_slice())?,
        })
    }

    /// The list of a server.
    pub(crate) fn at(&self, server: u32) -> &[Fe]
        requires { IsServer server }
        ensures { result.now ≡ at_server self.now server }
    {
        match server {
            1 => self.one.as_slice(),
            2 => self.two.as_slice(),
            3 => self.three.as_slice(),
            4 => self.four.as_slice(),
            _ => self.five.as_slice(),
        }
    }
}

/// The words with these numbers in the places of those that are not all ones.
fn words_with(alloc: Global, words: &[Word], numbers: &[Fe]) -> Result<WordList, AllocError>
    requires { length numbers.now ≡ length (accepted words.now) }
    ensures numbers { IfOk result (λ back. accepted back ≡ numbers.now) }
    ensures places { IfOk result (λ back. ones_in back ≡ ones_in words.now) }
    ensures below { IfOk result (λ back. All IsWord back) }
{
    let back = put_back(alloc, words, numbers)?;
    let _below = back.as_slice();
    Ok(back)
}

/// The words of each server with these numbers in the places of those that are not all ones.
pub(crate) fn all_back(
    alloc: Global,
    words: &[WordList],
    numbers: &FiveLists,
) -> Result<Vec<WordList>, AllocError>
    requires { FitBack words.now numbers.now }
    ensures five { IfOk result (λ back. length back.items ≡ 5) }
    ensures numbers { IfOk result (λ back. map accepted back.items ≡ numbers.now) }
    ensures places { IfOk result (λ back. map ones_in back.items ≡ of_five (λ j. ones_in (at_server words.now j))) }
    ensures below { IfOk result (λ back. All (All IsWord) back.items) }
{
    let mut back = Vec::with_capacity(alloc, SERVERS)?;
    back.push_reserved(words_with(alloc, words_at(words, 1), numbers.one.as_slice())?);
    back.push_reserved(words_with(alloc, words_at(words, 2), numbers.two.as_slice())?);
    back.push_reserved(words_with(alloc, words_at(words, 3), numbers.three.as_slice())?);
    back.push_reserved(words_with(alloc, words_at(words, 4), numbers.four.as_slice())?);
    back.push_reserved(words_with(alloc, words_at(words, 5), numbers.five.as_slice())?);
    Ok(back)
}
