//! The numbers that the servers draw from their words, and words with given numbers.

ghost use Rattle.std.specs.Prelude.{IfOk, OnOk, ◌≡◌};
ghost use Rattle.beet_sharing.specs.Runs.{numbers_of};
ghost use Rattle.beet_map.specs.Mapped.{AreWords};
ghost use Rattle.beet_map.specs.Premise.{FitBack, SamePlaces};

use crate::numbers::Numbers;
use beet_field::{Point, Trio};
use beet_words::{WordList, numbers_in, put_back};
use std::alloc::{AllocError, Global};

/// The numbers of each server.
pub(crate) fn all_numbers(alloc: Global, words: &Trio<WordList>) -> Result<Numbers, AllocError>
    ensures numbers { IfOk result (λ numbers. numbers ≡ numbers_of words.now) }
    ensures below { OnOk result (AreWords words.now) }
{
    let one = numbers_in(alloc, words.one.as_slice())?;
    let two = numbers_in(alloc, words.two.as_slice())?;
    let three = numbers_in(alloc, words.three.as_slice())?;
    Ok(Numbers {
        lists: Trio { one, two, three },
    })
}

/// The words of each server with these numbers in the places of those that are not all ones.
pub(crate) fn all_back(
    alloc: Global,
    words: &Trio<WordList>,
    numbers: &Numbers,
) -> Result<Trio<WordList>, AllocError>
    requires { FitBack words.now numbers.now }
    ensures numbers { IfOk result (λ back. numbers_of back ≡ numbers.now) }
    ensures places { IfOk result (λ back. SamePlaces back words.now) }
{
    let back = Trio {
        one: put_back(alloc, words.one.as_slice(), numbers.at(Point::One)),
        two: put_back(alloc, words.two.as_slice(), numbers.at(Point::Two)),
        three: put_back(alloc, words.three.as_slice(), numbers.at(Point::Three)),
    };
    back.transpose()
}
