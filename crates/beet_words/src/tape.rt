//! Tapes: words that are taken from the front.

ghost use Rattle.std.specs.Prelude.{◌≡◌, ◌≢◌, ◌<◌, ◌≤◌, ◌^◌, ◌-◌, ◌+◌, ◌∷◌, drop, length, slice_index, take, IfOk, All};
ghost use Rattle.beet_words.specs.Words.{IsWord, accepted, ones};
ghost use Rattle.beet_words.specs.Seeds.{seed_words};
ghost use Rattle.beet_words.specs.Tapes.{left_of, drawn_from, Draws};

use crate::seed::words_of_seed;
use crate::word::{Word, WordList};
use beet_field::Fe;
use std::alloc::{AllocError, Global};
use std::marker::Model;

/// Words, and how many of them are passed. Numbers are drawn by passing over words whose bits are
/// all set; masks are taken word by word.
#[derive(Drop)]
pub struct Tape {
    words: WordList,
    place: u32,
    accepted_words: u32,
}

impl Model for Tape {
    ghost use Rattle.std.specs.Prelude.{◌≡◌, ◌≤◌, ◌<◌, ◌^◌, length, drop};
    ghost use Rattle.beet_words.specs.Words.{accepted};
    ghost use Rattle.beet_words.specs.Tapes.{Tape as Shown};

    ghost Value = { Shown };

    ghost view = { λ a. record { words = a.words; passed = a.place } };

    ghost invariant = { λ a. (a.place ≤ length a.words) × (length a.words < 2 ^ 32)
        × (a.accepted_words ≡ length (accepted (drop a.place a.words))) };
}

/// How many of the words are numbers of the field: all but those whose bits are all set.
pub fn count_accepted(words: &[Word]) -> usize
    ensures counted { result ≡ length (accepted words.now) }
    ensures no_more { result ≤ length words.now }
{
    words.iter().filter(|word| !word.is_ones()).count()
}

/// The first number that stands at the place or after it, and the place that follows it.
fn next_number(words: &[Word], from: u32) -> (Fe, u32)
    requires few { length words.now < 2 ^ 32 }
    requires some { 0 < length (accepted (drop from words.now)) }
    ensures next { accepted (drop from words.now) ≡ result.0 ∷ accepted (drop result.1 words.now) }
    ensures forward { from < result.1 }
    ensures within { result.1 ≤ length words.now }
    ensures at_word { slice_index words.now (result.1 - 1) ≡ result.0 }
    ensures accepted_word { result.0 ≢ ones }
{
    for place in from..words.len() as u32 {
        if let Some(number) = words[place as usize].field() {
            return (number, place + 1);
        }
    }
    unreachable!()
}

impl Tape {
    /// The tape of these words, at the first.
    pub fn of_words(words: WordList) -> Tape
        requires { length words < 2 ^ 32 }
        ensures { result ≡ record { words = words; passed = 0 } }
    {
        let accepted_words = count_accepted(words.as_slice()) as u32;
        Tape {
            words,
            place: 0,
            accepted_words,
        }
    }

    /// The tape of the first `n` words of a seed and a stream, at the first.
    pub fn of_seed(alloc: Global, seed: &[u8; 32], stream: u64, n: u32) -> Result<Tape, AllocError>
        ensures { IfOk result (λ tape. tape ≡ record { words = seed_words seed.now stream n; passed = 0 }) }
    {
        let words = words_of_seed(alloc, seed, stream, n)?;
        Ok(Tape::of_words(words))
    }

    /// All words of the tape, also those that are passed.
    pub fn words(&self) -> &[Word]
        ensures value { result.now ≡ self.now.words }
        ensures below { All IsWord result.now }
    {
        self.words.as_slice()
    }

    /// All words of the tape, given away.
    pub fn into_words(self) -> WordList
        ensures { result ≡ self.words }
    {
        self.words
    }

    /// How many words are not passed.
    pub fn masks_left(&self) -> u32
        ensures { result ≡ length self.now.words - self.now.passed }
    {
        self.words.as_slice().len() as u32 - self.place
    }

    /// How many numbers can be drawn.
    pub fn accepted_left(&self) -> u32
        ensures { result ≡ length (left_of self.now) }
    {
        self.accepted_words
    }

    /// The next word that is a number of the field. It is passed, and so are those before it.
    pub fn draw(&mut self) -> Fe
        requires { 0 < length (left_of self.old) }
        ensures { Draws self.old self.new result }
    {
        let (number, place) = next_number(self.words.as_slice(), self.place);
        self.place = place;
        self.accepted_words -= 1;
        number
    }

    /// The next numbers, one for each place of the list, in the order in which `draw` gives them.
    pub fn draw_each(&mut self, numbers: &mut [Fe])
        requires { length numbers.old ≤ length (left_of self.old) }
        ensures numbers { numbers.new ≡ take (length numbers.old) (left_of self.old) }
        ensures drawn { self.new ≡ drawn_from self.old (length numbers.old) }
    {
        let words = self.words.as_slice();
        let mut place = self.place;
        for number in numbers.iter_mut() {
            let (found, after) = next_number(words, place);
            *number = found;
            place = after;
        }
        self.place = place;
        self.accepted_words -= numbers.len() as u32;
    }

    /// The next word, whatever its bits are. It is passed.
    pub fn next_mask(&mut self) -> Word
        requires { self.old.passed < length self.old.words }
        ensures word { result ≡ slice_index self.old.words self.old.passed }
        ensures passed { self.new ≡ record self.old { passed = self.old.passed + 1 } }
    {
        let word = self.words.as_slice()[self.place as usize];
        self.place += 1;
        if !word.is_ones() {
            self.accepted_words -= 1;
        }
        word
    }

    /// The same tape at the same place, in memory of its own.
    pub fn copy(&self, alloc: Global) -> Result<Tape, AllocError>
        ensures { IfOk result (λ tape. tape ≡ self.now) }
    {
        Ok(Tape {
            words: self.words.copy(alloc)?,
            place: self.place,
            accepted_words: self.accepted_words,
        })
    }
}
