//! The words of the command `pair`.

ghost use Rattle.std.specs.Prelude.{◌≡◌, option_map};
ghost use Rattle.beet_pair_words.specs.Pairs.{pair_of, read_words, words_of};

use beet_command::is_file;
use beet_field::Point;

/// The names of the files of the command, and the name with which those that it puts begin.
#[derive(Clone, Copy)]
pub struct PairFiles<'a> {
    pub first: &'a str,
    pub second: &'a str,
    pub servers: &'a str,
    pub out: &'a str,
}

/// Reads a command and five words as `pair FIRST SECOND SERVERS SERVER OUT`. `None` if the command is another, a word
/// that stands for a file is no name, or the server is not `1`, `2` or `3`.
pub(crate) fn read_pair<'a>(
    command: &str,
    first: &'a str,
    second: &'a str,
    servers: &'a str,
    server: &str,
    out: &'a str,
) -> Option<(PairFiles<'a>, Point)>
    ensures { option_map read_words result
        ≡ pair_of words_of command.now first.now second.now servers.now server.now out.now }
{
    let named = is_file(first) && is_file(second) && is_file(servers) && is_file(out);
    if !(command == "pair" && named) {
        return None;
    }
    let server = Point::of_digit(server.as_bytes())?;
    let files = PairFiles {
        first,
        second,
        servers,
        out,
    };
    Some((files, server))
}
