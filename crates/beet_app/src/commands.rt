//! Reading the words of a command.

ghost use Rattle.std.specs.Prelude.{[], ◌∷◌, ◌≡◌, IfSome, map, option_map, string_bytes};
ghost use Rattle.beet_app.specs.Commands.{HasSizes, job_for};
ghost use Rattle.beet_app.specs.Jobs.{job_in, job_of_four, job_of_six, job_of_three, job_of_two};
ghost use Rattle.beet_command.specs.Lines.{words_in};
ghost use Rattle.beet_command.specs.Words.{are_names};

use beet_book_differences::WorldsFiles;
use beet_command::{Line, is_file, read_line};
use beet_field::Point;
use beet_gathering::ListFiles;
use beet_job_audit::AuditFiles;
use beet_job_envelopes::{SealFiles, SourceWord, read_source_word};
use beet_job_trial::numbers_of_words;
use beet_load::AuctionFiles;

/// A command with its words. Those that stand for files are names.
#[derive(Clone, Copy)]
pub(crate) enum Command<'a> {
    Tally { auction: &'a str, book: &'a str },
    Clear(AuctionFiles<'a>),
    Watch(AuctionFiles<'a>),
    Rehearse(AuctionFiles<'a>, &'a str),
    Record(AuctionFiles<'a>, &'a str),
    Audit(AuditFiles<'a>),
    Worlds(WorldsFiles<'a>, Point),
    Seal(SealFiles<'a>, SourceWord<'a>),
    Open(ListFiles<'a>),
    Witness(ListFiles<'a>, &'a str),
    Trial { bidders: u32, prices: u32 },
}

/// Whether the words for the files of an auction are names.
pub(crate) fn are_auction(files: &AuctionFiles<'_>) -> bool
    ensures { result ≡ are_names (files.now.auction.now ∷ files.now.servers.now ∷ files.now.book.now ∷ []) }
{
    is_file(files.auction) && is_file(files.servers) && is_file(files.book)
}

/// Whether the words for the files of two worlds are names.
pub(crate) fn are_worlds(files: &WorldsFiles<'_>) -> bool
    ensures { result ≡ are_names (files.now.auction.now ∷ files.now.servers.now ∷ files.now.first.now
        ∷ files.now.second.now ∷ files.now.out.now ∷ []) }
{
    is_file(files.auction)
        && is_file(files.servers)
        && is_file(files.first)
        && is_file(files.second)
        && is_file(files.out)
}

/// The command of a name with two words.
fn with_two<'a>(name: &str, first: &'a str, second: &'a str) -> Option<Command<'a>>
    ensures job { option_map job_for result ≡ job_of_two name.now first.now second.now }
    ensures sizes { IfSome result HasSizes }
{
    if name == "tally" && is_file(first) && is_file(second) {
        Some(Command::Tally {
            auction: first,
            book: second,
        })
    } else if name == "trial" {
        let (bidders, prices) = numbers_of_words(first, second)?;
        Some(Command::Trial { bidders, prices })
    } else {
        None
    }
}

/// The command of a name with three files.
fn with_three<'a>(name: &str, files: AuctionFiles<'a>) -> Option<Command<'a>>
    ensures job { option_map job_for result
        ≡ job_of_three name.now files.entry.auction.now files.entry.servers.now files.entry.book.now }
    ensures sizes { IfSome result HasSizes }
{
    if !are_auction(&files) {
        None
    } else if name == "clear" {
        Some(Command::Clear(files))
    } else if name == "watch" {
        Some(Command::Watch(files))
    } else if name == "open" {
        Some(Command::Open(ListFiles {
            auction: files.auction,
            servers: files.servers,
            list: files.book,
        }))
    } else {
        None
    }
}

/// The command of a name with four words.
fn with_four<'a>(
    name: &str,
    first: &'a str,
    second: &'a str,
    third: &'a str,
    fourth: &'a str,
) -> Option<Command<'a>>
    ensures job { option_map job_for result ≡ job_of_four name.now first.now second.now third.now fourth.now }
    ensures sizes { IfSome result HasSizes }
{
    if !(is_file(first) && is_file(second) && is_file(fourth)) {
        None
    } else if name == "seal" {
        let source = read_source_word(third)?;
        let files = SealFiles {
            auction: first,
            bid: second,
            out: fourth,
        };
        Some(Command::Seal(files, source))
    } else if !is_file(third) {
        None
    } else if name == "rehearse" {
        let files = AuctionFiles {
            auction: first,
            servers: second,
            book: third,
        };
        Some(Command::Rehearse(files, fourth))
    } else if name == "record" {
        let files = AuctionFiles {
            auction: first,
            servers: second,
            book: third,
        };
        Some(Command::Record(files, fourth))
    } else if name == "witness" {
        let files = ListFiles {
            auction: first,
            servers: second,
            list: third,
        };
        Some(Command::Witness(files, fourth))
    } else if name == "audit" {
        Some(Command::Audit(AuditFiles {
            auction: first,
            one: second,
            two: third,
            three: fourth,
        }))
    } else {
        None
    }
}

/// The command of a name with the files of two worlds and a server's number.
fn with_six<'a>(name: &str, files: WorldsFiles<'a>, server: &str) -> Option<Command<'a>>
    ensures job { option_map job_for result ≡ job_of_six name.now files.entry.auction.now files.entry.servers.now
        files.entry.first.now files.entry.second.now server.now files.entry.out.now }
    ensures sizes { IfSome result HasSizes }
{
    if name == "worlds" && are_worlds(&files) {
        let server = Point::of_digit(server.as_bytes())?;
        Some(Command::Worlds(files, server))
    } else {
        None
    }
}

/// The command that the words name, if they name one.
pub(crate) fn read_command(words: &[String]) -> Option<Command<'_>>
    ensures job { option_map job_for result ≡ job_in (words_in (map string_bytes words.now)) }
    ensures sizes { IfSome result HasSizes }
{
    match read_line(words) {
        Line::Two(name, a, b) => with_two(name, a, b),
        Line::Three(name, auction, servers, book) => {
            let files = AuctionFiles {
                auction,
                servers,
                book,
            };
            with_three(name, files)
        }
        Line::Four(name, a, b, c, d) => with_four(name, a, b, c, d),
        Line::Six(name, auction, servers, first, second, server, out) => {
            let files = WorldsFiles {
                auction,
                servers,
                first,
                second,
                out,
            };
            with_six(name, files, server)
        }
        _ => None,
    }
}
