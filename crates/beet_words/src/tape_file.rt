//! Tape files: lines of 16 hexadecimal digits and a newline byte, each a word.

ghost use Rattle.std.specs.Prelude.{◌≡◌, ◌≤◌, ◌*◌, ◌++◌, ◌∷◌, [], ℕ, length, take, IfOk, OnOk, MatchResult, Ok, None};
ghost use Rattle.std.specs.Prelude.{Some};
ghost use Rattle.beet_forms.specs.Faults.{Answers};
ghost use Rattle.beet_forms.specs.declared.faults.TheConstants.{LONGEST_FILE};
ghost use Rattle.beet_words.specs.TapeFiles.{tape_of, line_at, number_in, reason_against, word_in, word_line};
ghost use Rattle.beet_words.specs.TapeFiles.{tape_bytes};
ghost use Rattle.beet_words.specs.Words.{IsWord};

use crate::digits::{DIGITS, read_digits, write_digits};
use crate::word::{Word, WordList};
use beet_forms::ReadFault;
use std::alloc::{AllocError, Global};

/// The most bytes of a tape file.
pub const TAPE_LIMIT: u64 = 1_048_576;

/// The reason against a line that is not 16 hexadecimal digits and a newline byte.
pub const BAD_LINE: u32 = 1;

/// The reason against a line whose number is 2^61 or more.
pub const WORD_TOO_LARGE: u32 = 2;

/// How many bytes a line has.
const LINE: usize = DIGITS + 1;

/// The k-th line, from 0. The last one may be shorter.
fn line(bytes: &[u8], k: u32) -> &[u8]
    requires { LINE * k ≤ length bytes.now }
    ensures { result.now ≡ line_at bytes.now k }
{
    let rest = &bytes[LINE * k as usize..];
    if rest.len() <= LINE {
        rest
    } else {
        &rest[..LINE]
    }
}

fn read_number(line: &[u8]) -> Option<u64>
    ensures { result ≡ number_in line.now }
{
    if line.len() != LINE || line[DIGITS] != b'\n' {
        return None;
    }
    read_digits(&line[..DIGITS])
}

/// The word of a line, or the reason against it.
fn read_line(line: &[u8]) -> Result<Word, u32>
    ensures { MatchResult result
        (λ word. (reason_against line.now ≡ None) × (word ≡ word_in line.now))
        (λ reason. reason_against line.now ≡ Some reason) }
{
    let Some(n) = read_number(line) else {
        return Err(BAD_LINE);
    };
    Word::of(n).ok_or(WORD_TOO_LARGE)
}

/// Keeps a word, unless enough are kept.
fn keep_word(words: &mut WordList, word: Word, keep: u32) -> Result<(), AllocError>
    requires { length words.old ≤ keep }
    ensures { OnOk result (words.new ≡ take keep (words.old ++ word ∷ [])) }
{
    if words.len() < keep as usize {
        words.push(word)?;
    }
    Ok(())
}

/// The first `keep` words of a tape file, which is read to its end.
///
/// The rows are the groups of 17 bytes, counted from 1. A row is refused for the reason 1 if it
/// is not 16 hexadecimal digits of either case and a newline byte, and for the reason 2 if its
/// number is 2^61 or more.
pub fn read_tape(alloc: Global, bytes: &[u8], keep: u32) -> Result<WordList, ReadFault>
    requires { length bytes.now ≤ LONGEST_FILE }
    ensures { Answers (λ words. words) (tape_of bytes.now keep) result }
{
    let count = bytes.len().div_ceil(LINE) as u32;
    let mut words = WordList::with_capacity(alloc, count.min(keep) as usize)?;
    for k in 0..count {
        let word = match read_line(line(bytes, k)) {
            Ok(word) => word,
            Err(reason) => return Err(ReadFault::at_row(k + 1, reason)),
        };
        keep_word(&mut words, word, keep)?;
    }
    Ok(words)
}

/// Appends the line of a word.
fn push_line(file: &mut Vec<u8>, word: Word) -> Result<(), AllocError>
    ensures line { OnOk result (file.new.items ≡ file.old.items ++ word_line word) }
    ensures below { IsWord word }
{
    let mut line = [b'\n'; LINE];
    write_digits(word.value(), &mut line[..DIGITS]);
    file.extend_from_slice(line.as_slice())
}

/// The tape file of the words, in lower-case digits. Want of memory is the only error.
pub fn write_tape(alloc: Global, words: &[Word]) -> Result<Vec<u8>, AllocError>
    ensures bytes { IfOk result (λ file. file.items ≡ tape_bytes words.now) }
    ensures again { IfOk result (λ file. (keep : ℕ) → length words.now ≤ keep
        → tape_of file.items keep ≡ Ok words.now) }
{
    let mut file = Vec::with_capacity(alloc, words.len().saturating_mul(LINE))?;
    for word in words {
        push_line(&mut file, *word)?;
    }
    Ok(file)
}
