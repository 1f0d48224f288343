//! Bundles: the words of three servers and of all bidders in one binary file.

ghost use Rattle.std.specs.Prelude.{◌≡◌, ◌≤◌, ◌<◌, ◌*◌, ◌++◌, ℕ, List, length, Ok, IfOk, OnOk, All};
ghost use Rattle.std.specs.List.{flat_map};
ghost use Rattle.beet_forms.specs.Faults.{Answers};
ghost use Rattle.beet_forms.specs.declared.faults.TheConstants.{LONGEST_FILE};
ghost use Rattle.beet_words.specs.Words.{IsWord};
ghost use Rattle.beet_words.specs.Fields.{times, number_bytes};
ghost use Rattle.beet_words.specs.Bundles.{up_to as allowed_up_to, word_at, words_at, list_at, server_at, bundle_of};
ghost use Rattle.beet_words.specs.Bundles.{list_bytes, server_bytes, bundle_bytes, AreWords, FitsBundle, IsShort};

use crate::fields::{Allowed, WIDTH, push_number, read_end, read_magic, read_number};
use crate::many::read_many;
use crate::word::{Word, WordList};
use beet_field::{P, Trio};
use beet_forms::{ReadFault, beside};
use std::alloc::{AllocError, Global};
use std::marker::Model;

/// The words of the three servers and of the bidders.
#[derive(Drop)]
pub struct Words {
    pub masks: Trio<WordList>,
    pub coefficients: Trio<WordList>,
    pub bidders: Vec<WordList>,
}

impl Model for Words {
    ghost use Rattle.beet_words.specs.Bundles.{Words as Shown};

    ghost Value = { Shown };

    ghost view = { λ a. record {
      masks = a.masks;
      coefficients = a.coefficients;
      bidders = a.bidders.items;
    } };
}

/// The text that a bundle begins with.
const MAGIC: &[u8] = b"BEETWD01";

/// The most words of a list.
pub const MOST_WORDS: u64 = 16_384;

/// The most bytes that a list and its count take.
const LONGEST_LIST: usize = WIDTH * (1 + MOST_WORDS as usize);

/// The most bidders of a book.
pub const MOST_BIDDERS: usize = 2_000;

/// The reason against a file that does not begin with its text.
pub const BAD_MAGIC: u32 = 1;

/// The reason against a field that is cut off.
pub const TRUNCATED: u32 = 2;

/// The reason against a field whose number is not allowed.
pub const BAD_NUMBER: u32 = 3;

/// The reason against bytes after the last field.
pub const TRAILING: u32 = 4;

/// The reason against a bundle of another number of bidders than the book has.
pub const WRONG_COUNT: u32 = 5;

/// The numbers of a bundle up to the highest.
fn up_to(high: u64) -> Allowed
    ensures { result ≡ allowed_up_to high }
{
    Allowed {
        low: 0,
        high,
        truncated: TRUNCATED,
        outside: BAD_NUMBER,
    }
}

fn read_word(bytes: &[u8], at: usize) -> Result<(Word, usize), ReadFault>
    requires { at ≤ length bytes.now }
    ensures word { Answers (λ read. read) (word_at bytes.now at) result }
    ensures within { IfOk result (λ read. read.1 ≤ length bytes.now) }
{
    let (number, at) = read_number(bytes, up_to(P), at)?;
    let Some(word) = Word::of(number) else {
        unreachable!()
    };
    Ok((word, at))
}

fn read_words(
    alloc: Global,
    bytes: &[u8],
    count: u64,
    at: usize,
) -> Result<(WordList, usize), ReadFault>
    requires { at ≤ length bytes.now }
    ensures words { Answers (λ read. read) (times count (word_at bytes.now) at) result }
    ensures within { IfOk result (λ read. read.1 ≤ length bytes.now) }
{
    let (words, at) = read_many(alloc, bytes, count, at, |from| read_word(bytes, from))?;
    Ok((WordList::of(words), at))
}

/// A count, at most `most`, and so many words.
#[tactic(auto, unfolding(crate::specs::Fields::counted_at))]
pub fn read_list(
    alloc: Global,
    bytes: &[u8],
    most: u64,
    at: usize,
) -> Result<(WordList, usize), ReadFault>
    requires { at ≤ length bytes.now }
    ensures list { Answers (λ read. read) (words_at bytes.now most at) result }
    ensures within { IfOk result (λ read. read.1 ≤ length bytes.now) }
{
    let (count, at) = read_number(bytes, up_to(most), at)?;
    read_words(alloc, bytes, count, at)
}

fn read_lists(
    alloc: Global,
    bytes: &[u8],
    count: u64,
    at: usize,
) -> Result<(Vec<WordList>, usize), ReadFault>
    requires { at ≤ length bytes.now }
    ensures lists { Answers (λ read. (read.0.items, read.1)) (times count (list_at bytes.now) at) result }
    ensures within { IfOk result (λ read. read.1 ≤ length bytes.now) }
{
    read_many(
        alloc,
        bytes,
        count,
        at,
        |from| read_list(alloc, bytes, MOST_WORDS, from),
    )
}

/// The masks and the coefficients of a server.
#[tactic(auto, unfolding(crate::specs::Bundles::server_at))]
fn read_server(
    alloc: Global,
    bytes: &[u8],
    at: usize,
) -> Result<((WordList, WordList), usize), ReadFault>
    requires { at ≤ length bytes.now }
    ensures lists { Answers (λ read. read) (server_at bytes.now at) result }
    ensures within { IfOk result (λ read. read.1 ≤ length bytes.now) }
{
    let (masks, at) = read_list(alloc, bytes, MOST_WORDS, at)?;
    let (coefficients, at) = read_list(alloc, bytes, MOST_WORDS, at)?;
    Ok(((masks, coefficients), at))
}

/// The words of a bundle.
///
/// A bundle is refused at the first place from the left that breaks its format: for the reason 1 at
/// 0 if it does not begin with `BEETWD01`; for the reason 2 at a field that is cut off; for the
/// reason 3 at a number of bidders above 2,000, a count of words above 16,384 or a word of 2^61 or
/// more; for the reason 4 at the first byte after the last field. The file is gone over once, and
/// memory is taken for no more items than it can hold.
#[tactic(auto, unfolding(crate::specs::Bundles::bundle_of))]
pub fn read_bundle(alloc: Global, bytes: &[u8]) -> Result<Words, ReadFault>
    requires { length bytes.now ≤ LONGEST_FILE }
    ensures { Answers (λ words. words) (bundle_of bytes.now) result }
{
    let at = read_magic(bytes, MAGIC, BAD_MAGIC)?;
    let (count, at) = read_number(bytes, up_to(MOST_BIDDERS as u64), at)?;
    let (one, at) = read_server(alloc, bytes, at)?;
    let (one, (two, at)) = beside(one, read_server(alloc, bytes, at))?;
    let ((one, two), (three, at)) = beside((one, two), read_server(alloc, bytes, at))?;
    let servers = (one, two, three);
    let (servers, (bidders, at)) = beside(servers, read_lists(alloc, bytes, count, at))?;
    let (one, two, three) = servers;
    let words = Words {
        masks: Trio {
            one: one.0,
            two: two.0,
            three: three.0,
        },
        coefficients: Trio {
            one: one.1,
            two: two.1,
            three: three.1,
        },
        bidders,
    };
    let (words, ()) = beside(words, read_end(bytes, TRAILING, at))?;
    Ok(words)
}

fn push_words(file: &mut Vec<u8>, words: &[Word]) -> Result<(), AllocError>
    ensures { OnOk result (file.new.items ≡ file.old.items ++ flat_map number_bytes words.now) }
{
    for word in words {
        push_number(file, word.value())?;
    }
    Ok(())
}

/// Appends a list of words after its count. Want of memory is the only error.
pub fn push_list(file: &mut Vec<u8>, list: &WordList) -> Result<(), AllocError>
    ensures bytes { OnOk result (file.new.items ≡ file.old.items ++ list_bytes list.now) }
    ensures words { OnOk result (All IsWord list.now) }
{
    let words = list.as_slice();
    push_number(file, words.len() as u64)?;
    push_words(file, words)
}

/// Appends lists of words.
fn push_lists(file: &mut Vec<u8>, lists: &[WordList]) -> Result<(), AllocError>
    ensures bytes { OnOk result (file.new.items ≡ file.old.items ++ flat_map list_bytes lists.now) }
    ensures words { OnOk result (All (λ list. All IsWord list) lists.now) }
{
    for list in lists {
        push_list(file, list)?;
    }
    Ok(())
}

/// Appends the lists of a server.
fn push_server(
    file: &mut Vec<u8>,
    masks: &WordList,
    coefficients: &WordList,
) -> Result<(), AllocError>
    ensures bytes { OnOk result
        (file.new.items ≡ file.old.items ++ server_bytes masks.now coefficients.now) }
    ensures masks { OnOk result (All IsWord masks.now) }
    ensures coefficients { OnOk result (All IsWord coefficients.now) }
{
    push_list(file, masks)?;
    push_list(file, coefficients)
}

/// Appends the bundle of the words.
fn push_bundle(file: &mut Vec<u8>, words: &Words) -> Result<(), AllocError>
    ensures bytes { OnOk result (file.new.items ≡ file.old.items ++ bundle_bytes words.now) }
    ensures words { OnOk result (AreWords words.now) }
{
    let bidders = words.bidders.as_slice();
    file.extend_from_slice(MAGIC)?;
    push_number(file, bidders.len() as u64)?;
    push_server(file, &words.masks.one, &words.coefficients.one)?;
    push_server(file, &words.masks.two, &words.coefficients.two)?;
    push_server(file, &words.masks.three, &words.coefficients.three)?;
    push_lists(file, bidders)
}

/// How many bytes a list and its count take.
fn list_length(list: &WordList) -> usize
    requires { IsShort list.now }
    ensures value { result ≡ length (list_bytes list.now) }
    ensures within { result ≤ LONGEST_LIST }
{
    WIDTH * (1 + list.len())
}

/// How many bytes the lists of a server take.
fn server_length(masks: &WordList, coefficients: &WordList) -> usize
    requires masks { IsShort masks.now }
    requires coefficients { IsShort coefficients.now }
    ensures value { result ≡ length (server_bytes masks.now coefficients.now) }
    ensures within { result ≤ 2 * LONGEST_LIST }
{
    list_length(masks) + list_length(coefficients)
}

/// How many bytes the lists of all bidders take.
fn lists_length(lists: &[WordList]) -> usize
    requires count { length lists.now ≤ MOST_BIDDERS }
    requires lists { All IsShort lists.now }
    ensures value { result ≡ length (flat_map list_bytes lists.now) }
    ensures within { result ≤ MOST_BIDDERS * LONGEST_LIST }
{
    let mut sum = 0;
    for list in lists {
        sum += list_length(list);
    }
    sum
}

/// How many bytes the bundle of the words takes.
fn bundle_length(words: &Words) -> usize
    requires { FitsBundle words.now }
    ensures { result ≡ length (bundle_bytes words.now) }
{
    let one = server_length(&words.masks.one, &words.coefficients.one);
    let two = server_length(&words.masks.two, &words.coefficients.two);
    let three = server_length(&words.masks.three, &words.coefficients.three);
    MAGIC.len() + WIDTH + one + two + three + lists_length(words.bidders.as_slice())
}

/// The bundle of the words, which are at most 2,000 bidders and at most 16,384 words in each list. Its room is taken
/// at once. Want of memory is the only error.
pub fn write_bundle(alloc: Global, words: &Words) -> Result<Vec<u8>, AllocError>
    requires { FitsBundle words.now }
    ensures bytes { IfOk result (λ file. file.items ≡ bundle_bytes words.now) }
    ensures again { IfOk result (λ file. bundle_of file.items ≡ Ok words.now) }
{
    let mut file = Vec::with_capacity(alloc, bundle_length(words))?;
    push_bundle(&mut file, words)?;
    Ok(file)
}
