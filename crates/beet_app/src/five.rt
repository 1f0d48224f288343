//! The commands of five servers.

ghost use Rattle.std.specs.Prelude.{◌≡◌, ◌≤◌, ◌||◌, IfSome, codes, map, option_map, string_bytes, true};
ghost use Rattle.beet_errand.specs.Tasks.{DoesNamed, DoesRun, DoesTask};
ghost use Rattle.beet_command.specs.Words.{is_word};
ghost use Rattle.beet_app.specs.Commands.{five_job_for};
ghost use Rattle.beet_app.specs.Doing.{task_of};
ghost use Rattle.beet_app.specs.Jobs.{five_job_of, five_job_of_seven, five_job_of_three, is_of_five};
ghost use Rattle.beet_app.specs.Jobs.{job_of, server_of_five, two_of_five};

use crate::commands::{are_auction, are_worlds};
use beet_book_differences::WorldsFiles;
use beet_coalition_map::Watchers;
use beet_command::{Line, read_line};
use beet_errand::{Reply, Stop, end_run};
use beet_job_five::five;
use beet_job_five_worlds::five_worlds;
use beet_load::AuctionFiles;
use beet_store::{Desk, Shelf};
use std::alloc::Global;

/// A command among five servers with its words. Those that stand for files are names.
#[derive(Clone, Copy)]
pub(crate) enum FiveCommand<'a> {
    Five(AuctionFiles<'a>),
    FiveWorlds(WorldsFiles<'a>, Watchers),
}

/// The server of five of a digit.
fn server_of_digit(word: &str) -> Option<u32>
    ensures server { result ≡ server_of_five word.now }
    ensures within { IfSome result (λ s. (1 ≤ s) × (s ≤ 5)) }
{
    match word.as_bytes() {
        b"1" => Some(1),
        b"2" => Some(2),
        b"3" => Some(3),
        b"4" => Some(4),
        b"5" => Some(5),
        _ => None,
    }
}

/// The two servers of two digits, of which the first is below the second.
fn two_servers(one: &str, other: &str) -> Option<Watchers>
    ensures { option_map (λ two. (two.a, two.b)) result ≡ two_of_five one.now other.now }
{
    let a = server_of_digit(one)?;
    let b = server_of_digit(other)?;
    Watchers::of(a, b)
}

/// The command of a name with the files of an auction.
fn with_three<'a>(name: &str, files: AuctionFiles<'a>) -> Option<FiveCommand<'a>>
    ensures { option_map five_job_for result
        ≡ five_job_of_three name.now files.entry.auction.now files.entry.servers.now files.entry.book.now }
{
    if name == "five" && are_auction(&files) {
        Some(FiveCommand::Five(files))
    } else {
        None
    }
}

/// The command of a name with the files of two worlds and the numbers of two servers.
fn with_seven<'a>(
    name: &str,
    files: WorldsFiles<'a>,
    one: &str,
    other: &str,
) -> Option<FiveCommand<'a>>
    ensures { option_map five_job_for result
        ≡ five_job_of_seven name.now files.entry.auction.now files.entry.servers.now files.entry.first.now
        files.entry.second.now one.now other.now files.entry.out.now }
{
    if name == "five_worlds" && are_worlds(&files) {
        let watchers = two_servers(one, other)?;
        Some(FiveCommand::FiveWorlds(files, watchers))
    } else {
        None
    }
}

/// The command of five servers that the words name, if they name one.
fn read_command(words: &[String]) -> Option<FiveCommand<'_>>
    ensures { option_map five_job_for result ≡ five_job_of (map string_bytes words.now) }
{
    match read_line(words) {
        Line::Three(name, auction, servers, book) => {
            let files = AuctionFiles {
                auction,
                servers,
                book,
            };
            with_three(name, files)
        }
        Line::Seven(name, auction, servers, first, second, one, other, out) => {
            let files = WorldsFiles {
                auction,
                servers,
                first,
                second,
                out,
            };
            with_seven(name, files, one, other)
        }
        _ => None,
    }
}

/// Does the job of a command.
fn do_job<S: Shelf>(alloc: Global, shelf: &mut S, command: FiveCommand<'_>) -> Result<Reply, Stop>
    ensures { DoesTask (task_of (Some (five_job_for command.entry))) (S.seen shelf.old) (S.seen shelf.new) result }
{
    match command {
        FiveCommand::Five(files) => five(alloc, shelf, &files),
        FiveCommand::FiveWorlds(files, watchers) => five_worlds(alloc, shelf, &files, watchers),
    }
}

/// Does the job that the words of a command among five servers name, if they name one.
fn do_named<S: Shelf>(alloc: Global, shelf: &mut S, words: &[String]) -> Option<Result<Reply, Stop>>
    requires { is_of_five (map string_bytes words.now) ≡ true }
    ensures { DoesNamed (task_of (job_of (map string_bytes words.now))) (S.seen shelf.old) (S.seen shelf.new) result }
{
    match read_command(words) {
        Some(command) => Some(do_job(alloc, shelf, command)),
        None => None,
    }
}

/// Whether a word is the name of a command of five servers.
fn is_five(name: &str) -> bool
    ensures { result ≡ (is_word name.now (codes "five") || is_word name.now (codes "five_worlds")) }
{
    name == "five" || name == "five_worlds"
}

/// Whether the first of the words is a command of five servers.
pub fn names_five(words: &[String]) -> bool
    ensures { result ≡ is_of_five (map string_bytes words.now) }
{
    match words.first() {
        Some(name) => is_five(name.as_str()),
        None => false,
    }
}

/// Does the job of a command of five servers, as `run` does, which hands these commands on. No thread is started.
pub fn run_five<S: Shelf, K: Desk>(
    alloc: Global,
    words: &[String],
    shelf: &mut S,
    desk: &mut K,
) -> u8
    requires { is_of_five (map string_bytes words.now) ≡ true }
    ensures { DoesRun (task_of (job_of (map string_bytes words.now))) (S.seen shelf.old) (S.seen shelf.new)
        (K.seen desk.old) (K.seen desk.new) result }
{
    end_run(alloc, desk, do_named(alloc, shelf, words))
}
