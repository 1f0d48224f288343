//! The writer of the words of five servers.

ghost use Rattle.std.specs.Prelude.{◌≡◌, ◌++◌, IfOk, OnOk, [], length};
ghost use Rattle.std.specs.List.{flat_map};
ghost use Rattle.beet_words.specs.Bundles.{list_bytes};
ghost use Rattle.beet_weights.specs.Quadratics.{IsServer};
ghost use Rattle.beet_five_view.specs.WordsFiles.{lists_of, words_bytes};

use beet_five_dealing::FiveWords;
use beet_words::{WIDTH, WordList, push_list, push_number};
use std::alloc::{AllocError, Global};

/// The text that the file begins with.
const MAGIC: &[u8] = b"BEETFW01";

/// How many numbers stand for lists: the count of each and its words.
fn numbers_for_lists(lists: &[WordList]) -> usize {
    let mut numbers: usize = 0;
    for list in lists {
        numbers = numbers
            .saturating_add(1)
            .saturating_add(list.as_slice().len());
    }
    numbers
}

/// How many bytes the file has, so that memory is taken once; no clause rests on it.
fn room_for(words: &FiveWords) -> usize {
    let servers = numbers_for_lists(&words.masks).saturating_add(numbers_for_lists(
        &words.coefficients,
    ));
    let numbers = servers.saturating_add(numbers_for_lists(&words.bidders));
    // The text and the number of bidders stand before them.
    numbers.saturating_add(2).saturating_mul(WIDTH)
}

/// Appends the lists of a server.
fn push_lists_of(file: &mut Vec<u8>, words: &FiveWords, server: usize) -> Result<(), AllocError>
    requires server { IsServer server }
    requires masks { length words.now.masks ≡ 5 }
    requires coefficients { length words.now.coefficients ≡ 5 }
    ensures { OnOk result (file.new.items ≡ file.old.items ++ lists_of words.now server) }
{
    push_list(file, &words.masks[server - 1])?;
    push_list(file, &words.coefficients[server - 1])
}

/// Appends the words of bidders.
fn push_bidders(file: &mut Vec<u8>, lists: &[WordList]) -> Result<(), AllocError>
    ensures { OnOk result (file.new.items ≡ file.old.items ++ flat_map list_bytes lists.now) }
{
    for list in lists {
        push_list(file, list)?;
    }
    Ok(())
}

/// Appends the words.
fn push_all(file: &mut Vec<u8>, words: &FiveWords) -> Result<(), AllocError>
    requires masks { length words.now.masks ≡ 5 }
    requires coefficients { length words.now.coefficients ≡ 5 }
    requires file { file.old.items ≡ [] }
    ensures { OnOk result (file.new.items ≡ words_bytes words.now) }
{
    let bidders = words.bidders.as_slice();
    file.extend_from_slice(MAGIC)?;
    push_number(file, bidders.len() as u64)?;
    push_lists_of(file, words, 1)?;
    push_lists_of(file, words, 2)?;
    push_lists_of(file, words, 3)?;
    push_lists_of(file, words, 4)?;
    push_lists_of(file, words, 5)?;
    push_bidders(file, bidders)
}

/// The file of the words of five servers and of the bidders: `BEETFW01`, the number of bidders, for servers 1 to 5 the
/// count and the mask words and the count and the coefficient words, and for each bidder the count and its words. Each
/// number has 8 bytes, the highest first. Want of memory is the only error.
pub fn write_five_words(alloc: Global, words: &FiveWords) -> Result<Vec<u8>, AllocError>
    requires masks { length words.now.masks ≡ 5 }
    requires coefficients { length words.now.coefficients ≡ 5 }
    ensures { IfOk result (λ file. file.items ≡ words_bytes words.now) }
{
    let mut file = Vec::with_capacity(alloc, room_for(words))?;
    push_all(&mut file, words)?;
    Ok(file)
}
