//! Mask words of the second world.

ghost use Rattle.std.specs.Prelude.{◌≡◌, ◌≢◌, ◌<◌, ◌-◌, ℕ, [], IfOk, length, slice_index, slice_index_or};
ghost use Rattle.std.specs.Int.Bits.{bit_xor};
ghost use Rattle.beet_masking.specs.Masks.{mask_among, mask_at};
ghost use Rattle.beet_turned.specs.MappedMasks.{word_mapped};
ghost use Rattle.beet_two_books.specs.Losses.{losses_of};
ghost use Rattle.beet_five_map.specs.FiveMasks.{MasksMappedFor, loss_among, lowest_other};

use beet_bids::Book;
use beet_coalition_map::Watchers;
use beet_field::{Point, Trio};
use beet_words::{Word, WordList};
use std::alloc::{AllocError, Global};

/// The exclusive or of a word and the word at a place of a list, if there is one.
fn with_word(word: Word, list: &WordList, place: usize) -> Word
    ensures { result ≡ bit_xor word (slice_index list.now place) }
{
    match list.as_slice().get(place) {
        Some(other) => word.xor(*other),
        None => word,
    }
}

/// The exclusive or of a word and the mask at a place.
fn with_mask(word: Word, masks: &[WordList], place: usize) -> Word
    ensures { result ≡ bit_xor word (mask_among masks.now place) }
{
    let mut with = word;
    for list in masks {
        with = with_word(with, list, place);
    }
    with
}

/// The same masks as those of three servers: the first has the words of `turner`, and the second the exclusive or of
/// all others'.
fn as_three(alloc: Global, masks: &[WordList], turner: usize) -> Result<Trio<WordList>, AllocError>
    requires { turner < length masks.now }
    ensures turner { IfOk result (λ three. three.one ≡ slice_index_or masks.now turner []) }
    ensures masks { IfOk result (λ three. (i : ℕ) → i < length three.one →
        mask_at three i ≡ mask_among masks.now i) }
{
    let list = &masks[turner];
    let words = list.as_slice();
    let mut others = WordList::with_capacity(alloc, words.len())?;
    for i in 0..words.len() {
        others.push(with_mask(words[i], masks, i))?;
    }
    Ok(Trio {
        one: list.copy(alloc)?,
        two: others,
        three: WordList::new(alloc),
    })
}

/// The words of one server in the second world, which turn each mask that is compared in the first.
fn turning_words(
    alloc: Global,
    first: &Book,
    second: &Book,
    masks: &[WordList],
    turner: usize,
) -> Result<WordList, AllocError>
    requires prices { first.now.grid.prices ≡ second.now.grid.prices }
    requires within { turner < length masks.now }
    ensures length { IfOk result (λ words. length words ≡ length (slice_index_or masks.now turner [])) }
    ensures turns { IfOk result (λ words. (i : ℕ) → i < length (slice_index_or masks.now turner []) →
        slice_index words i ≡ word_mapped (mask_among masks.now i)
        (slice_index (slice_index_or masks.now turner []) i)
        (loss_among (losses_of first.now second.now) masks.now i)) }
{
    let three = as_three(alloc, masks, turner)?;
    let mapped = beet_two_books::map_masks(alloc, Point::Two, first, second, &three)?;
    Ok(mapped.one)
}

/// The words of one server in the second world, if the words of `turner` turn each mask that is compared in the
/// first.
fn words_of(
    alloc: Global,
    first: &Book,
    second: &Book,
    masks: &[WordList],
    turner: usize,
    server: usize,
) -> Result<WordList, AllocError>
    requires prices { first.now.grid.prices ≡ second.now.grid.prices }
    requires within { server < length masks.now }
    ensures length { IfOk result (λ words. length words ≡ length (slice_index_or masks.now server [])) }
    ensures turns { IfOk result (λ words. server ≡ turner →
        (i : ℕ) → i < length (slice_index_or masks.now server []) →
        slice_index words i ≡ word_mapped (mask_among masks.now i)
        (slice_index (slice_index_or masks.now server []) i)
        (loss_among (losses_of first.now second.now) masks.now i)) }
    ensures other { IfOk result (λ words. server ≢ turner → words ≡ slice_index_or masks.now server []) }
{
    if server == turner {
        turning_words(alloc, first, second, masks, server)
    } else {
        masks[server].copy(alloc)
    }
}

/// The place of the lowest server that is not one of the two.
fn place_of_lowest(two: Watchers) -> usize
    ensures { result ≡ lowest_other two.a two.b - 1 }
{
    match (two.a, two.b) {
        (1, 2) => 2,
        (1, _) => 1,
        _ => 0,
    }
}

/// The mask words of the second world, with which its comparisons open what those of the first world do. The words of
/// the lowest server that is not one of the two turn each mask that is compared; all others are the same.
pub(crate) fn map_masks(
    alloc: Global,
    two: Watchers,
    first: &Book,
    second: &Book,
    masks: &[WordList],
) -> Result<Vec<WordList>, AllocError>
    requires { first.now.grid.prices ≡ second.now.grid.prices }
    ensures { IfOk result (λ mapped.
        MasksMappedFor two.a two.b (losses_of first.now second.now) masks.now mapped.items) }
{
    let turner = place_of_lowest(two);
    let mut mapped = Vec::with_capacity(alloc, masks.len())?;
    for server in 0..masks.len() {
        mapped.push(words_of(alloc, first, second, masks, turner, server)?)?;
    }
    Ok(mapped)
}
