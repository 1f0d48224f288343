//! The numbers that are drawn from words, and words with given numbers.

ghost use Rattle.std.specs.Prelude.{◌≡◌, ◌∷◌, ◌++◌, [], ℕ, IfOk, OnOk, length, slice_index};
ghost use Rattle.beet_field.specs.Field.{IsElement};
ghost use Rattle.beet_words.specs.Words.{IsWord, accepted, ones_in};

use crate::word::{Word, WordList};
use beet_field::Fe;
use std::alloc::{AllocError, Global};

/// Appends the number of a word, if it has one.
fn keep(numbers: &mut Vec<Fe>, word: Word) -> Result<(), AllocError>
    ensures kept { OnOk result (numbers.new.items ≡ numbers.old.items ++ accepted (word ∷ [])) }
    ensures below { IsWord word }
{
    // A word is below 2^61.
    let _below = word.value();
    if let Some(number) = word.field() {
        numbers.push(number)?;
    }
    Ok(())
}

/// The numbers that are drawn from words, in order.
pub fn numbers_in(alloc: Global, words: &[Word]) -> Result<Vec<Fe>, AllocError>
    ensures numbers { IfOk result (λ numbers. numbers.items ≡ accepted words.now) }
    ensures below { OnOk result ((k : ℕ) → IsWord (slice_index words.now k)) }
{
    let mut numbers = Vec::with_capacity(alloc, words.len())?;
    for word in words {
        keep(&mut numbers, *word)?;
    }
    Ok(numbers)
}

/// The word of a number, which is not all ones.
pub fn word_of(number: Fe) -> Word
    ensures value { result ≡ number }
    ensures below { IsElement result }
{
    match Word::of(number.value()) {
        Some(word) => word,
        None => unreachable!(),
    }
}

/// The words with these numbers in the places of those that are not all ones.
pub fn put_back(alloc: Global, words: &[Word], numbers: &[Fe]) -> Result<WordList, AllocError>
    requires { length numbers.now ≡ length (accepted words.now) }
    ensures numbers { IfOk result (λ back. accepted back ≡ numbers.now) }
    ensures places { IfOk result (λ back. ones_in back ≡ ones_in words.now) }
{
    let mut back = WordList::with_capacity(alloc, words.len())?;
    let mut place = 0;
    for word in words {
        let put = if word.is_ones() {
            *word
        } else {
            let number = numbers[place];
            place += 1;
            word_of(number)
        };
        back.push(put)?;
    }
    Ok(back)
}
