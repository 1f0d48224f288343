//! Words of the second world of those who deal.

ghost use Rattle.std.specs.Prelude.{◌≡◌, ◌<◌, ◌≤◌, ◌+◌, ◌^◌, ◌==◌, length, if◌then◌else◌, IfOk, OnOk, All};
ghost use Rattle.beet_words.specs.Words.{IsWord, accepted, ones};
ghost use Rattle.beet_mapped.specs.Dealers.{DealerMapped, SlopesMoved, slope_mapped};

use beet_field::{Fe, Point};
use beet_map::{moved, number_at};
use beet_words::{Word, WordList, word_of};
use std::alloc::{AllocError, Global};

/// A word in the second world, after so many accepted ones.
fn word_for(me: Point, first: &[Fe], second: &[Fe], drawn: usize, word: Word) -> Word
    ensures { result ≡ slope_mapped me first.now second.now drawn word }
{
    let Some(number) = word.field() else {
        return word;
    };
    if drawn >= first.len() {
        return word;
    }
    word_of(moved(
        me,
        number,
        number_at(first, drawn),
        number_at(second, drawn),
    ))
}

/// One more if the word is drawn as a number.
fn count_drawn(before: usize, word: Word) -> usize
    requires { before + 1 < 2 ^ 64 }
    ensures { result ≡ before + (if word == ones then 0 else 1) }
{
    if word.is_ones() { before } else { before + 1 }
}

/// The words that deal the second quantities, so that the points of server `me` are those of the first.
fn move_words(
    alloc: Global,
    me: Point,
    first: &[Fe],
    second: &[Fe],
    words: &WordList,
) -> Result<WordList, AllocError>
    requires { length first.now ≤ length (accepted words.now) }
    ensures { IfOk result (SlopesMoved me first.now second.now words.now) }
{
    let words = words.as_slice();
    let mut moved = WordList::with_capacity(alloc, words.len())?;
    let mut drawn = 0;
    for word in words {
        moved.push(word_for(me, first, second, drawn, *word))?;
        drawn = count_drawn(drawn, *word);
    }
    Ok(moved)
}

/// The words with which a party deals the second quantities, so that the points of server `me` are those of the first
/// with these words. The words of a party that the server knows stay.
pub fn move_dealer(
    alloc: Global,
    me: Point,
    known: Option<Point>,
    first: &[Fe],
    second: &[Fe],
    words: &WordList,
) -> Result<WordList, AllocError>
    requires count { length second.now ≡ length first.now }
    requires enough { length first.now ≤ length (accepted words.now) }
    ensures mapped { IfOk result (λ mapped. DealerMapped me
        (record { party = record { known = known; quantities = first.now }; words = words.now })
        (record { party = record { known = known; quantities = second.now }; words = mapped })) }
    ensures below { OnOk result (All IsWord words.now) }
    ensures words { IfOk result (λ mapped. All IsWord mapped) }
{
    let mapped = if known == Some(me) {
        words.copy(alloc)?
    } else {
        move_words(alloc, me, first, second, words)?
    };
    // The words of both lists are below 2^61.
    let _given = words.as_slice();
    let _mapped = mapped.as_slice();
    Ok(mapped)
}
