//! Mask words of the second world.

ghost use Rattle.std.specs.Prelude.{◌≡◌, ◌≢◌, ◌<◌, ◌≤◌, ◌+◌, ◌^◌, ◌==◌, ℕ, length, slice_index, if◌then◌else◌, IfOk};
ghost use Rattle.std.specs.Int.Bits.{bit_xor};
ghost use Rattle.beet_field.specs.Trio.{member};
ghost use Rattle.beet_words.specs.Words.{IsWord, ones};
ghost use Rattle.beet_masking.specs.Masks.{mask_at};
ghost use Rattle.beet_turned.specs.Turn.{turned};
ghost use Rattle.beet_turned.specs.MappedMasks.{MasksMapped, loss_in, word_mapped};
ghost use Rattle.beet_masking.specs.Compared.{item_after};

use crate::turning::turn;
use beet_field::{Fe, Point, Trio};
use beet_masking::SPARE_MASKS;
use beet_words::{Word, WordList};
use std::alloc::{AllocError, Global};

/// The word at a place, or 0 past the end.
fn word_at(words: &[Word], place: usize) -> Word
    ensures { result ≡ slice_index words.now place }
{
    match (words.get(place), Word::of(0)) {
        (Some(word), _) => *word,
        (None, Some(zero)) => zero,
        (None, None) => unreachable!(),
    }
}

/// The mask at a place: the exclusive or of the words of the three servers.
fn mask(masks: &Trio<WordList>, place: usize) -> Word
    ensures mask { result ≡ mask_at masks.now place }
    ensures below { IsWord result }
{
    let one = word_at(masks.one.as_slice(), place);
    let two = word_at(masks.two.as_slice(), place);
    let three = word_at(masks.three.as_slice(), place);
    let mask = one.xor(two).xor(three);
    let _below = mask.value();
    mask
}

/// What the number under a mask loses, after so many rejected and accepted ones, if it is compared.
pub fn loss_for(losses: &[Fe], mask: Word, rejected: usize, accepted: usize) -> Option<Fe>
    ensures { result ≡ item_after losses.now mask rejected accepted }
{
    if mask.is_ones() || rejected > SPARE_MASKS as usize {
        return None;
    }
    match losses.get(accepted) {
        Some(loss) => Some(*loss),
        None => None,
    }
}

/// The word of a server in the second world, if the number under the mask loses so much.
pub fn word_for(mask: Word, word: Word, loss: Option<Fe>) -> Word
    ensures { result ≡ word_mapped mask word loss }
{
    match loss {
        Some(loss) => word.xor(mask).xor(turn(mask, loss)),
        None => word,
    }
}

/// One more if the mask is rejected.
pub fn count_rejected(before: usize, mask: Word) -> usize
    requires { before + 1 < 2 ^ 64 }
    ensures { result ≡ before + (if mask == ones then 1 else 0) }
{
    if mask.is_ones() { before + 1 } else { before }
}

/// The words of one server in the second world, which turn each mask that is compared.
fn turning_words(
    alloc: Global,
    losses: &[Fe],
    masks: &Trio<WordList>,
    server: Point,
) -> Result<WordList, AllocError>
    ensures length { IfOk result (λ words. length words ≡ length (member masks.now server)) }
    ensures turns { IfOk result (λ words. (i : ℕ) → i < length words →
        slice_index words i ≡ word_mapped (mask_at masks.now i)
        (slice_index (member masks.now server) i) (loss_in losses.now masks.now i)) }
{
    let words = masks.get(server).as_slice();
    let mut turned = WordList::with_capacity(alloc, words.len())?;
    let mut rejected = 0;
    for i in 0..words.len() {
        let mask = mask(masks, i);
        let loss = loss_for(losses, mask, rejected, i - rejected);
        turned.push(word_for(mask, words[i], loss))?;
        rejected = count_rejected(rejected, mask);
    }
    Ok(turned)
}

/// The words of one server in the second world, if the words of `turner` turn each mask that is compared in the
/// first.
fn words_of(
    alloc: Global,
    turner: Point,
    losses: &[Fe],
    masks: &Trio<WordList>,
    server: Point,
) -> Result<WordList, AllocError>
    ensures length { IfOk result (λ words. length words ≡ length (member masks.now server)) }
    ensures turns { IfOk result (λ words. server ≡ turner → (i : ℕ) → i < length words →
        slice_index words i ≡ word_mapped (mask_at masks.now i)
        (slice_index (member masks.now server) i) (loss_in losses.now masks.now i)) }
    ensures other { IfOk result (λ words. server ≢ turner → words ≡ member masks.now server) }
{
    if server == turner {
        turning_words(alloc, losses, masks, server)
    } else {
        masks.get(server).copy(alloc)
    }
}

/// The mask words of the second world, with which its comparisons open what those of the first world do, if the
/// numbers that are compared, one after another, lose so much. The words of the lower of the other two servers turn
/// each mask that is compared; all others are the same.
pub fn map_masks(
    alloc: Global,
    me: Point,
    losses: &[Fe],
    masks: &Trio<WordList>,
) -> Result<Trio<WordList>, AllocError>
    ensures { IfOk result (λ mapped. MasksMapped me losses.now masks.now mapped) }
{
    let [lower, _] = me.others();
    let mapped = Trio {
        one: words_of(alloc, lower, losses, masks, Point::One),
        two: words_of(alloc, lower, losses, masks, Point::Two),
        three: words_of(alloc, lower, losses, masks, Point::Three),
    };
    mapped.transpose()
}
