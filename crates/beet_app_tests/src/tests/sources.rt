//! The words of a command line that name a farmer's words.

use beet_job_envelopes::{SourceWord, read_source_word};
use std::process::Abort;

/// The bytes of a seed word.
fn seed_of(word: &str) -> Option<[u8; 32]> {
    match read_source_word(word) {
        Some(SourceWord::Seed(bytes)) => Some(bytes),
        _ => None,
    }
}

/// The name of a tape word.
fn tape_of(word: &str) -> Option<&str> {
    match read_source_word(word) {
        Some(SourceWord::Tape(name)) => Some(name),
        _ => None,
    }
}

/// Words that name no source.
const NO_SOURCES: [&str; 12] = [
    "",
    "seed",
    "seed:",
    "tape:",
    "tape",
    "t8",
    "Tape:t8",
    " tape:t8",
    "tape:a\nb",
    "seed:t8",
    "seed:000000000000000000000000000000000000000000000000000000000000000",
    "seed:00000000000000000000000000000000000000000000000000000000000000000",
];

/// Expects that none of the words names a source.
fn expect_no_sources(rt: &impl Abort, words: &[&str]) {
    for word in words {
        assert!(rt; read_source_word(word).is_none(), "of {word}");
    }
}

/// A seed in digits of both cases, and its bytes.
const DIGITS: &str = "seed:00112233445566778899aAbBcCdDeEfF00112233445566778899aabbccddeeff";

const BYTES: [u8; 32] = [
    0x00, 0x11, 0x22, 0x33, 0x44, 0x55, 0x66, 0x77, 0x88, 0x99, 0xaa, 0xbb, 0xcc, 0xdd, 0xee, 0xff,
    0x00, 0x11, 0x22, 0x33, 0x44, 0x55, 0x66, 0x77, 0x88, 0x99, 0xaa, 0xbb, 0xcc, 0xdd, 0xee, 0xff,
];

#[test]
fn source_words(rt: HostRuntime) {
    assert!(rt; seed_of(DIGITS) == Some(BYTES));
    assert!(rt; tape_of("tape:t8") == Some("t8"));
    expect_no_sources(&rt, &NO_SOURCES);
}
