//! Words, and lists of words and of field numbers.

ghost use Rattle.std.specs.Prelude.{◌≡◌, ◌↔◌, ◌≤◌, ◌<◌, ◌^◌, ◌/◌, ◌%◌, ◌++◌, ◌∷◌, [], length, take, IsNone, IfSome};
ghost use Rattle.std.specs.Prelude.{IfOk, IsTrue, All, bit_xor, if◌then◌else◌, is_ok};
ghost use Rattle.beet_words.specs.Words.{IsWord, ones};

use beet_field::{Fe, P};
use std::alloc::{AllocError, Global};
use std::marker::Model;

/// A number below 2^61.
#[derive(Clone, Copy, PartialEq, Eq, Debug)]
pub struct Word {
    number: u64,
}

impl Model for Word {
    ghost use Rattle.std.specs.Prelude.{ℕ};
    ghost use Rattle.beet_words.specs.Words.{IsWord};

    ghost Value = { ℕ };

    ghost view = { λ a. a.number };

    ghost invariant = { λ a. IsWord a.number };

    ghost inverse = { λ n. record { number = n } };
}

impl Word {
    /// The word of the number `n`, or none if it is 2^61 or more.
    pub fn of(n: u64) -> Option<Word>
        ensures refused { IsNone result ↔ (2 ^ 61 ≤ n) }
        ensures value { IfSome result (λ w. w ≡ n) }
    {
        if n < 1 << 61 {
            Some(Word { number: n })
        } else {
            None
        }
    }

    /// The word of the low 61 bits of `n`.
    pub(crate) fn of_low_bits(n: u64) -> Word
        ensures { result ≡ n % 2 ^ 61 }
    {
        Word { number: n & P }
    }

    pub fn value(self) -> u64
        ensures value { result ≡ self }
        ensures below { IsWord result }
    {
        self.number
    }

    /// Whether the bit at the place `k` is set; the bit 0 is the lowest.
    pub fn bit(self, k: u32) -> bool
        requires { k < 61 }
        ensures { IsTrue result ↔ (self / 2 ^ k % 2 ≡ 1) }
    {
        (self.number >> k) & 1 == 1
    }

    /// The exclusive or, bit by bit.
    pub fn xor(self, other: Word) -> Word
        ensures { result ≡ bit_xor self other }
    {
        Word {
            number: self.number ^ other.number,
        }
    }

    /// Whether all 61 bits are set. Such a word is passed over when numbers are drawn.
    pub fn is_ones(self) -> bool
        ensures { IsTrue result ↔ (self ≡ ones) }
    {
        self.number == P
    }

    /// The word as a number of the field, or none if all its bits are set.
    pub fn field(self) -> Option<Fe>
        ensures refused { IsNone result ↔ (self ≡ ones) }
        ensures value { IfSome result (λ x. x ≡ self) }
    {
        Fe::of(self.number)
    }
}

/// A list of words.
#[derive(Drop)]
pub struct WordList {
    items: Vec<Word>,
}

impl Model for WordList {
    ghost use Rattle.std.specs.Prelude.{ℕ, List, All};
    ghost use Rattle.beet_words.specs.Words.{IsWord};

    ghost Value = { List ℕ };

    ghost view = { λ a. a.items.items };

    ghost invariant = { λ a. All IsWord a.items.items };
}

impl WordList {
    /// The list of no words.
    pub fn new(alloc: Global) -> WordList
        ensures { result ≡ [] }
    {
        WordList {
            items: Vec::new(alloc),
        }
    }

    /// The list of no words, with room for so many. Want of memory is the only error.
    pub fn with_capacity(alloc: Global, room: usize) -> Result<WordList, AllocError>
        ensures { IfOk result (λ words. words ≡ []) }
    {
        Ok(WordList {
            items: Vec::with_capacity(alloc, room)?,
        })
    }

    pub fn of(items: Vec<Word>) -> WordList
        ensures { result ≡ items.items }
    {
        // Each word tells the proof that it is below 2^61.
        for word in &items {
            let _below = word.value();
        }
        WordList { items }
    }

    /// Appends a word. Want of memory is the only error, and leaves the list as it was.
    pub fn push(&mut self, word: Word) -> Result<(), AllocError>
        ensures { self.new ≡ (if is_ok result then self.old ++ word ∷ [] else self.old) }
    {
        self.items.push(word)?;
        Ok(())
    }

    /// How many words there are.
    pub fn len(&self) -> usize
        ensures { result ≡ length self.now }
    {
        self.items.len()
    }

    /// Whether there is no word.
    pub fn is_empty(&self) -> bool
        ensures { IsTrue result ↔ (self.now ≡ []) }
    {
        self.items.is_empty()
    }

    /// The items.
    pub fn as_slice(&self) -> &[Word]
        ensures value { result.now ≡ self.now }
        ensures below { All IsWord result.now }
    {
        self.items.as_slice()
    }

    /// The first so many words of the list, or all if it has no more, in memory of their own.
    pub fn front(&self, alloc: Global, count: usize) -> Result<WordList, AllocError>
        ensures { IfOk result (λ words. words ≡ take count self.now) }
    {
        let count = count.min(self.items.len());
        Ok(WordList {
            items: Vec::from_slice(alloc, &self.items[..count])?,
        })
    }

    /// The same list, in memory of its own.
    pub fn copy(&self, alloc: Global) -> Result<WordList, AllocError>
        ensures { IfOk result (λ words. words ≡ self.now) }
    {
        Ok(WordList {
            items: Vec::from_slice(alloc, self.items.as_slice())?,
        })
    }
}

/// A list of numbers of the field.
#[derive(Drop)]
pub struct FeList {
    items: Vec<Fe>,
}

impl Model for FeList {
    ghost use Rattle.std.specs.Prelude.{ℕ, List};

    ghost Value = { List ℕ };

    ghost view = { λ a. a.items.items };
}

impl FeList {
    pub fn of(items: Vec<Fe>) -> FeList
        ensures { result ≡ items.items }
    {
        FeList { items }
    }

    /// The items.
    pub fn as_slice(&self) -> &[Fe]
        ensures { result.now ≡ self.now }
    {
        self.items.as_slice()
    }

    /// The same list, in memory of its own.
    pub fn copy(&self, alloc: Global) -> Result<FeList, AllocError>
        ensures { IfOk result (λ numbers. numbers ≡ self.now) }
    {
        Ok(FeList {
            items: Vec::from_slice(alloc, self.items.as_slice())?,
        })
    }
}
