//! The jobs of the programs over real files: each line of the file `lines` is one command, and what it says and its
//! status are printed below it. A line that begins with `beet_session` or `beet_sale` is of that program, and its
//! command stands behind this word; other commands are of `beet`. A line `same ONE OTHER` compares two files, and its
//! status is 0 if they hold the same bytes. A line `size FILE` says how many bytes a file holds. A line `splice FILE AT
//! COUNT DIGITS OUT` puts a file in which so many bytes from a place on give way to those of hexadecimal digits, or to
//! none if these are `-`.
#![tactic(auto)]

use beet_link::FreeGate;
use beet_sale_app::run_sale;
use beet_session_app::run_session;
use beet_store::{Desk, HostDesk, HostShelf, Shelf};
use std::alloc::{AllocError, Global};
use std::process::ExitCode;
use std::str;
use std::sync::Wait;
use std::thread::Threads;
use std::time::Clock;

/// The limit of the file of commands in bytes.
const LINES_LIMIT: u64 = 65_536;

/// The limit of a file that is compared or measured, in bytes.
const FILE_LIMIT: u64 = 1_048_576;

fn words_of(alloc: Global, line: &str) -> Result<Vec<String>, AllocError> {
    let mut words = Vec::new(alloc);
    for word in line.split_whitespace() {
        words.push(String::from_str(alloc, word)?)?;
    }
    Ok(words)
}

/// 0 if two files hold the same bytes, else 1.
fn compare<S: Shelf>(alloc: Global, shelf: &mut S, one: &str, other: &str) -> u8 {
    let Ok(one) = shelf.fetch(alloc, one, FILE_LIMIT) else {
        return 1;
    };
    let Ok(other) = shelf.fetch(alloc, other, FILE_LIMIT) else {
        return 1;
    };
    if one == other { 0 } else { 1 }
}

/// Says how many bytes a file holds. Answers 0, or 1 if the file or memory is wanting.
fn say_size<S: Shelf, K: Desk>(alloc: Global, shelf: &mut S, desk: &mut K, name: &str) -> u8 {
    let Ok(bytes) = shelf.fetch(alloc, name, FILE_LIMIT) else {
        return 1;
    };
    let size = bytes.len();
    let Ok(text) = format!(in alloc; "{size}\n") else {
        return 1;
    };
    let _said = desk.say(text.as_bytes());
    0
}

/// The bytes of hexadecimal digits, or none for `-`.
fn bytes_of(alloc: Global, digits: &str) -> Option<Vec<u8>> {
    if digits == "-" {
        Some(Vec::new(alloc))
    } else {
        hex::decode(alloc, digits).ok()
    }
}

/// The words of a line `splice`.
#[derive(Clone, Copy)]
struct SplicedFile<'a> {
    name: &'a str,
    at: &'a str,
    count: &'a str,
    digits: &'a str,
    out: &'a str,
}

/// The bytes, of which so many from a place on give way to others. `None` if there are not as many, or memory runs
/// out.
fn spliced(alloc: Global, bytes: &[u8], words: &SplicedFile<'_>) -> Option<Vec<u8>> {
    let at = words.at.parse::<usize>().ok()?;
    let end = at.checked_add(words.count.parse::<usize>().ok()?)?;
    let others = bytes_of(alloc, words.digits)?;
    let mut out = Vec::new(alloc);
    out.extend_from_slice(bytes.get(..at)?).ok()?;
    out.extend_from_slice(others.as_slice()).ok()?;
    out.extend_from_slice(bytes.get(end..)?).ok()?;
    Some(out)
}

/// Puts a file with other bytes in the place of some. Answers 0, or 1 if that is not done.
fn splice<S: Shelf, K: Desk>(
    alloc: Global,
    shelf: &mut S,
    desk: &mut K,
    words: &SplicedFile<'_>,
) -> u8 {
    let Ok(bytes) = shelf.fetch(alloc, words.name, FILE_LIMIT) else {
        return 1;
    };
    let Some(bytes) = spliced(alloc, bytes.as_slice(), words) else {
        return 1;
    };
    match desk.put(alloc, words.out, bytes.as_slice()) {
        Ok(()) => 0,
        Err(_) => 1,
    }
}

/// Does the job of these words, or compares, measures or changes the files that they name. Answers the status.
fn run_words<S: Shelf, K: Desk, R: Threads + Wait + Clock + Sync>(
    rt: &R,
    alloc: Global,
    shelf: &mut S,
    desk: &mut K,
    words: &[String],
) -> u8 {
    match words {
        [command, one, other] if command.as_str() == "same" => {
            compare(alloc, shelf, one.as_str(), other.as_str())
        }
        [command, name] if command.as_str() == "size" => {
            say_size(alloc, shelf, desk, name.as_str())
        }
        [command, name, at, count, digits, out] if command.as_str() == "splice" => {
            let words = SplicedFile {
                name: name.as_str(),
                at: at.as_str(),
                count: count.as_str(),
                digits: digits.as_str(),
                out: out.as_str(),
            };
            splice(alloc, shelf, desk, &words)
        }
        [program, ..] if program.as_str() == "beet_session" => {
            run_session(rt, alloc, &words[1..], shelf, desk)
        }
        [program, ..] if program.as_str() == "beet_sale" => {
            run_sale(alloc, &words[1..], shelf, desk)
        }
        _ => beet_app::run(rt, alloc, words, shelf, desk, &FreeGate),
    }
}

/// Says a line, does its job, and says the status.
fn run_line<S: Shelf, K: Desk, R: Threads + Wait + Clock + Sync>(
    rt: &R,
    alloc: Global,
    shelf: &mut S,
    desk: &mut K,
    line: &str,
) -> Result<(), AllocError> {
    let words = words_of(alloc, line)?;
    let command = format!(in alloc; "$ {line}\n")?;
    let _said = desk.say(command.as_bytes());
    let status = run_words(rt, alloc, shelf, desk, words.as_slice());
    let end = format!(in alloc; "= {status}\n")?;
    let _said = desk.say(end.as_bytes());
    Ok(())
}

/// Does the jobs of the lines, in order.
fn run_lines<S: Shelf, K: Desk, R: Threads + Wait + Clock + Sync>(
    rt: &R,
    alloc: Global,
    shelf: &mut S,
    desk: &mut K,
    lines: &str,
) -> Result<(), AllocError> {
    for line in lines.lines() {
        run_line(rt, alloc, shelf, desk, line)?;
    }
    Ok(())
}

fn main(rt: HostRuntime) -> ExitCode {
    let alloc = rt.alloc();
    let mut shelf = HostShelf::new(&rt);
    let mut desk = HostDesk::new(&rt);
    let Ok(bytes) = shelf.fetch(alloc, "lines", LINES_LIMIT) else {
        return ExitCode::from(1);
    };
    let Ok(lines) = str::from_utf8(bytes.as_slice()) else {
        return ExitCode::from(1);
    };
    match run_lines(&rt, alloc, &mut shelf, &mut desk, lines) {
        Ok(()) => ExitCode::from(0),
        Err(_) => ExitCode::from(1),
    }
}
