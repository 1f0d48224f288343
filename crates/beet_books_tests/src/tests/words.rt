ghost use Rattle.std.specs.Prelude.{◌≤◌, length};
ghost use Rattle.beet_words.specs.Bundles.{FitsBundle};

use super::samples::{Kind, Refused, expect_offset, expect_refusals};
use beet_field::{Fe, Trio};
use beet_forms::ReadFault;
use beet_words::{
    Allowed, FeList, Tape, Word, WordList, Words, count_accepted, push_number, read_bundle,
    read_many, read_number, read_points, read_seed, read_tape, write_bundle, write_tape,
};
use std::alloc::Global;
use std::process::Abort;

/// The word whose bits are all set.
const ONES: u64 = 0x1fff_ffff_ffff_ffff;

/// Compares what a word of 6 and one of ones tell, above which there is none.
fn expect_words(rt: &impl Abort, six: Word, ones: Word) {
    assert!(rt; Word::of(ONES + 1).is_none());
    assert!(rt; six.bit(1) && !six.bit(3));
    assert!(rt; ones.xor(six).value() == 0x1fff_ffff_ffff_fff9);
    assert!(rt; ones.field().is_none());
}

/// Pushes a word to a list that is empty.
fn expect_push(rt: &impl Abort, list: &mut WordList, word: Word) {
    assert!(rt; list.is_empty());
    list.push(word).expect(rt, "memory");
    assert!(rt; list.as_slice() == [word].as_slice());
    assert!(rt; list.len() == 1);
}

/// The list of a word of 6, which was empty, and then one of ones.
fn two_words(rt: &impl Abort, alloc: Global, six: Word, ones: Word) -> WordList {
    let mut list = WordList::new(alloc);
    expect_push(rt, &mut list, six);
    list.push(ones).expect(rt, "memory");
    list
}

/// How many numbers can be drawn from a copy of the list.
fn accepted_of_copy(rt: &impl Abort, alloc: Global, words: &WordList) -> usize {
    let copy = words.copy(alloc).expect(rt, "memory");
    count_accepted(copy.as_slice())
}

/// How many masks are left on a copy of the tape of these words.
fn masks_of_copy(rt: &impl Abort, alloc: Global, words: WordList) -> u32 {
    assert!(rt; words.len() == 2);
    let tape = Tape::of_words(words);
    tape.copy(alloc).expect(rt, "memory").masks_left()
}

/// Whether a copy of the list of this number has it alone.
fn copies(rt: &impl Abort, alloc: Global, number: Fe) -> bool {
    let list = FeList::of(vec![in alloc; number].expect(rt, "memory"));
    let copy = list.copy(alloc).expect(rt, "memory");
    copy.as_slice() == [number].as_slice()
}

/// Compares copies of the list of both words, of their tape, and of a list of a number.
fn expect_copies(rt: &impl Abort, alloc: Global, six: Word, ones: Word) {
    let words = two_words(rt, alloc, six, ones);
    assert!(rt; accepted_of_copy(rt, alloc, &words) == 1);
    assert!(rt; masks_of_copy(rt, alloc, words) == 2);
    assert!(rt; copies(rt, alloc, Fe::reduce(5)));
}

#[test]
fn words_and_lists(rt: HostRuntime) {
    let six = Word::of(6).expect(&rt, "a word");
    let ones = Word::of(ONES).expect(&rt, "a word");
    expect_words(&rt, six, ones);
    expect_copies(&rt, rt.alloc(), six, ones);
}

/// The first two words of the first stream of the zero seed.
const FIRST: u64 = 0x103d_f1a0_ade0_b876;

const SECOND: u64 = 0x08bd_8653_e56a_5d40;

/// Whether the words are these two.
fn are_both(words: &[Word]) -> bool {
    words.iter().map(|word| word.value()).eq([FIRST, SECOND])
}

/// Compares a tape of them, and draws the first.
fn expect_draw(rt: &impl Abort, tape: &mut Tape) {
    assert!(rt; are_both(tape.words()));
    assert!(rt; tape.accepted_left() == 2);
    assert!(rt; tape.draw().value() == FIRST);
    assert!(rt; tape.masks_left() == 1);
}

/// The tape of so many words of a stream of a seed.
fn tape_of_seed(rt: &impl Abort, alloc: Global, seed: &[u8; 32], stream: u64, count: u32) -> Tape {
    Tape::of_seed(alloc, seed, stream, count).expect(rt, "memory")
}

/// The first word of the second stream of a seed.
fn first_of_other(rt: &impl Abort, alloc: Global, seed: &[u8; 32]) -> u64 {
    let mut other = tape_of_seed(rt, alloc, seed, 1, 1);
    assert!(rt; other.accepted_left() == 1);
    other.draw().value()
}

#[test]
fn words_of_the_zero_seed(rt: HostRuntime) {
    let seed = read_seed(&[b'0'; 64]).expect(&rt, "a seed");
    expect_draw(&rt, &mut tape_of_seed(&rt, rt.alloc(), &seed, 0, 2));
    assert!(rt; first_of_other(&rt, rt.alloc(), &seed) != FIRST);
}

/// A tape file of three words, of which two are kept, and what is written of them.
const TAPE_FILE: &[u8] = b"000000000000000a\n1FFFfffffffffffF\n0000000000000003\n";

const WRITTEN: &[u8] = b"000000000000000a\n1fffffffffffffff\n";

/// Tape files, and how they are refused.
const BAD_TAPES: [Refused; 2] = [
    (Some((1, 2)), &["2000000000000000\n"]),
    (
        Some((2, 1)),
        &[
            "0000000000000001\n0000000000000002 ",
            "0000000000000001\n000000000000000g\n",
            "0000000000000001\n0",
        ],
    ),
];

/// Draws the word 10 and takes a mask of ones, and compares what is written of the tape.
fn expect_kept(rt: &impl Abort, alloc: Global, tape: &mut Tape) {
    assert!(rt; tape.masks_left() == 2);
    assert!(rt; tape.accepted_left() == 1);
    assert!(rt; tape.draw().value() == 10);
    assert!(rt; tape.masks_left() == 1);
    assert!(rt; tape.next_mask().is_ones());
    assert!(rt; is_written(rt, alloc, tape, WRITTEN));
}

/// The tape of two words of the tape file.
fn kept(rt: &impl Abort, alloc: Global) -> Tape {
    let words = read_tape(alloc, TAPE_FILE, 2).expect(rt, "words");
    Tape::of_words(words)
}

/// Whether the words of a tape are written so.
fn is_written(rt: &impl Abort, alloc: Global, tape: &Tape, file: &[u8]) -> bool {
    let written = write_tape(alloc, tape.words()).expect(rt, "memory");
    written.as_slice() == file
}

#[test]
fn tape_files(rt: HostRuntime) {
    expect_kept(&rt, rt.alloc(), &mut kept(&rt, rt.alloc()));
    expect_refusals(&rt, rt.alloc(), Kind::Tape, &BAD_TAPES);
}

/// The numbers from 0 to 8.
const BELOW_NINE: Allowed = Allowed {
    low: 0,
    high: 8,
    truncated: 2,
    outside: 3,
};

/// The fields of 3 and 9.
fn three_and_nine(rt: &impl Abort, alloc: Global) -> Vec<u8> {
    let mut file = Vec::new(alloc);
    push_number(&mut file, 3).expect(rt, "memory");
    push_number(&mut file, 9).expect(rt, "memory");
    file
}

/// Why so many points from an offset on are refused.
fn points_fault(
    rt: &impl Abort,
    alloc: Global,
    file: &[u8],
    count: u64,
    at: usize,
) -> Option<ReadFault> {
    assert!(rt; at <= file.len());
    read_points(alloc, file, BELOW_NINE, count, at).err()
}

/// Reads the first of them as a point.
fn expect_point(rt: &impl Abort, alloc: Global, file: &[u8]) {
    let (points, at) = read_points(alloc, file, BELOW_NINE, 1, 0).expect(rt, "a point");
    assert!(rt; at == 8);
    assert!(rt; points.as_slice()[0].value() == 3);
}

/// Reads both as numbers.
fn expect_numbers(rt: &impl Abort, alloc: Global, file: &[u8]) {
    let below_ten = Allowed {
        high: 9,
        ..BELOW_NINE
    };
    let read = read_many(alloc, file, 2, 0, |from| read_number(file, below_ten, from));
    let (numbers, at) = read.expect(rt, "two numbers");
    assert!(rt; at == 16);
    assert!(rt; numbers.as_slice() == [3, 9].as_slice());
}

#[test]
fn numbers_of_a_file(rt: HostRuntime) {
    let alloc = rt.alloc();
    let file = three_and_nine(&rt, alloc);
    expect_point(&rt, alloc, &file);
    expect_offset(&rt, points_fault(&rt, alloc, &file, 2, 0), 8, 3);
    expect_offset(&rt, points_fault(&rt, alloc, &file, 2, 16), 16, 2);
    expect_numbers(&rt, alloc, &file);
}

/// No bidder, and no words.
fn no_words(alloc: Global) -> Words
    ensures { FitsBundle result }
{
    Words {
        masks: Trio {
            one: WordList::new(alloc),
            two: WordList::new(alloc),
            three: WordList::new(alloc),
        },
        coefficients: Trio {
            one: WordList::new(alloc),
            two: WordList::new(alloc),
            three: WordList::new(alloc),
        },
        bidders: Vec::new(alloc),
    }
}

/// The bundle of no words, as a file.
fn empty_bundle(rt: &impl Abort, alloc: Global) -> Vec<u8> {
    let words = no_words(alloc);
    let file = write_bundle(alloc, &words);
    drop(words);
    file.expect(rt, "memory")
}

/// Expects that the first bytes of a bundle are refused.
fn expect_bad_bundle(
    rt: &impl Abort,
    alloc: Global,
    bytes: &[u8],
    count: usize,
    offset: u64,
    reason: u32,
) {
    assert!(rt; count <= bytes.len() && count <= 100);
    expect_offset(
        rt,
        read_bundle(alloc, &bytes[..count]).err(),
        offset,
        reason,
    );
}

/// Reads the bundle of no words, whole, cut off, with a byte more, and then with a bidder too.
fn expect_bundles(rt: &impl Abort, alloc: Global, file: &mut Vec<u8>) {
    assert!(rt; file.len() == 64);
    assert!(rt; read_bundle(alloc, file.as_slice()).is_ok());
    expect_bad_bundle(rt, alloc, file, 63, 56, 2);
    expect_bad_bundle(rt, alloc, file, 7, 0, 1);
    file.push(0).expect(rt, "memory");
    expect_bad_bundle(rt, alloc, file, 65, 64, 4);
    file[16] = 1;
    expect_bad_bundle(rt, alloc, file, 65, 16, 3);
}

#[test]
fn bundles(rt: HostRuntime) {
    expect_bundles(&rt, rt.alloc(), &mut empty_bundle(&rt, rt.alloc()));
}
