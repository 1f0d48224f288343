//! The words that a generator makes of a seed.

ghost use Rattle.std.specs.Prelude.{◌≡◌, ◌<◌, ◌≤◌, ◌^◌, ◌+◌, ◌*◌, ◌%◌, ◌++◌, ◌∷◌, [], length, min, take, IfOk};
ghost use Rattle.rand_chacha.specs.ChaCha.{of_seed, word_at};
ghost use Rattle.beet_words.specs.Seeds.{seed_words};
ghost use Rattle.beet_words.specs.Words.{accepted};

use crate::word::{Word, WordList};
use beet_field::Fe;
use rand_chacha::ChaCha20Rng;
use rand_core::SeedableRng;
use rand_core::utils::NextWord;
use std::alloc::{AllocError, Global};

/// The generator of a seed and a stream, at its first word.
fn generator(seed: &[u8; 32], stream: u64) -> ChaCha20Rng
    ensures { result ≡ record (of_seed seed.now) { stream = stream } }
{
    let mut rng = ChaCha20Rng::from_seed(*seed);
    // `set_stream` keeps the place, which is 0 in a fresh generator.
    rng.set_stream(stream);
    rng
}

/// The low 61 bits of the next two words of the generator, the low half first.
fn next_of_seed(rng: &mut ChaCha20Rng) -> Word
    requires { rng.old.word_pos + 2 < 2 ^ 68 }
    ensures word { result ≡ (word_at 10 rng.old.key rng.old.stream rng.old.word_pos
        + 2 ^ 32 * word_at 10 rng.old.key rng.old.stream (rng.old.word_pos + 1)) % 2 ^ 61 }
    ensures place { rng.new ≡ record rng.old { word_pos = rng.old.word_pos + 2 } }
{
    let low = rng.next_word();
    let high = rng.next_word();
    let both = low as u64 + ((high as u64) << 32);
    Word::of_low_bits(both)
}

/// The first `n` words of a seed and a stream.
pub(crate) fn words_of_seed(
    alloc: Global,
    seed: &[u8; 32],
    stream: u64,
    n: u32,
) -> Result<WordList, AllocError>
    ensures { IfOk result (λ words. words ≡ seed_words seed.now stream n) }
{
    let mut rng = generator(seed, stream);
    let mut words = WordList::with_capacity(alloc, n as usize)?;
    for _k in 0..n {
        words.push(next_of_seed(&mut rng))?;
    }
    Ok(words)
}

/// Puts the number of a word behind the first so many numbers, if it has one, and tells how many there are then.
fn put(numbers: &mut [Fe], have: usize, word: Word) -> usize
    requires { have < length numbers.old }
    ensures numbers { take result numbers.new ≡ take have numbers.old ++ accepted (word ∷ []) }
    ensures within { result ≤ length numbers.new }
    ensures length { length numbers.new ≡ length numbers.old }
{
    match word.field() {
        Some(number) => {
            numbers[have] = number;
            have + 1
        }
        None => have,
    }
}

/// Draws the first numbers among the first `n` words of a seed and a stream, as a tape of them does, one for each place
/// of the list. Tells how many it drew: fewer than there are places only if no more of the words are numbers.
pub fn draw_seed(seed: &[u8; 32], stream: u64, n: u32, numbers: &mut [Fe]) -> usize
    ensures count { result ≡ min (length numbers.old) (length (accepted (seed_words seed.now stream n))) }
    ensures numbers { take result numbers.new ≡ take result (accepted (seed_words seed.now stream n)) }
    ensures length { length numbers.new ≡ length numbers.old }
{
    let mut rng = generator(seed, stream);
    let mut have = 0;
    for _k in 0..n {
        if have == numbers.len() {
            return have;
        }
        have = put(numbers, have, next_of_seed(&mut rng));
    }
    have
}
